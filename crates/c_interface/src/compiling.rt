//! A rule text is compiled into the room of a caller.

ghost use Rattle.std.specs.Prelude.{◌≡◌, ◌≢◌, ◌⊎◌, List};
ghost use Rattle.lc_model.specs.Rule.{NamedRule};
ghost use Rattle.lc_model.specs.Text.Reading.{TextRefusal};
ghost use Rattle.lc_model.specs.Tables.Compiling.{Compiles, IsRefused};
ghost use Rattle.lc_model.specs.Tables.InForce.{limits};
ghost use Rattle.c_interface.specs.Compiling.{AreFiles, IsUncompiled};
ghost use Rattle.c_interface.specs.Refusing.{no_memory, numbers_of_refusal};
ghost use Rattle.c_interface.specs.Said.{no_sentence};

use crate::error_sentences::of_text;
use crate::refusal::{Refusal, in_numbers, none};
use crate::sentence::Sentence;
use rpn_compiler::compile;
use std::alloc::Global;

/// The length of a file of watchpoints in bytes.
pub const WDT: usize = 4_380;

/// The length of a file of actionpoints in bytes.
pub const ADT: usize = 19_516;

/// The result of a compilation, as C sees it: how many entries of the two tables are used, or why the text is refused.
#[repr(C)]
#[derive(Clone, Copy)]
pub struct Compiled {
    /// Why the text is refused; code 0 if it is compiled.
    pub refusal: Refusal,
    /// The used entries of the watchpoint table, up to 176; 0 if the text is refused.
    pub watchpoints: u32,
    /// The used entries of the actionpoint table, up to 176; 0 if the text is refused.
    pub rules: u32,
    /// The refusal for people; empty if the text is compiled.
    pub sentence: Sentence,
}

/// Compiles a rule text into two table files, and returns 0 or the number of the refusal. A refused text leaves both files as
/// they were.
pub fn compile_files(
    alloc: Global,
    text: &[u8],
    wdt: &mut [u8; WDT],
    adt: &mut [u8; ADT],
    told: &mut Compiled,
) -> u32
    ensures answered { result ≡ told.new.refusal.code }
    ensures compiled { result ≡ 0 →
        AreFiles text.now wdt.new adt.new told.new.watchpoints told.new.rules }
    ensures untouched { result ≢ 0 → (wdt.new ≡ wdt.old) × (adt.new ≡ adt.old) }
    ensures why { result ≢ 0 → result ≢ no_memory → (why : TextRefusal) ×
        IsRefused limits text.now why × (told.new.refusal ≡ numbers_of_refusal 0 why) }
    ensures accepts { (rules : List NamedRule) → Compiles limits text.now rules →
        (result ≡ 0) ⊎ (result ≡ no_memory) }
    ensures refuses { (why : TextRefusal) → IsRefused limits text.now why →
        (told.new.refusal ≡ numbers_of_refusal 0 why) ⊎ (result ≡ no_memory) }
    ensures said { result ≢ 0 → IsUncompiled text.now told.new.refusal told.new.sentence }
    ensures silent { result ≡ 0 → told.new.sentence ≡ no_sentence }
{
    match compile(alloc, text) {
        Ok(pair) => {
            wdt.copy_from_slice(pair.wdt.as_slice());
            adt.copy_from_slice(pair.adt.as_slice());
            *told = Compiled {
                refusal: none(),
                watchpoints: pair.watchpoints as u32,
                rules: pair.rules as u32,
                sentence: Sentence::none(),
            };
        }
        Err(error) => {
            *told = Compiled {
                refusal: in_numbers(0, error),
                watchpoints: 0,
                rules: 0,
                sentence: of_text(error),
            };
        }
    }
    told.refusal.code
}
