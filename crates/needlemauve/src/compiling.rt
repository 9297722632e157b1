//! A rule text is compiled.

ghost use Rattle.std.specs.Prelude.{◌≡◌, ◌≢◌, ◌⊎◌, List};
ghost use Rattle.lc_model.specs.Rule.{NamedRule};
ghost use Rattle.lc_model.specs.Text.Reading.{TextRefusal};
ghost use Rattle.lc_model.specs.Tables.Compiling.{Compiles, IsRefused};
ghost use Rattle.lc_model.specs.Tables.InForce.{limits};
ghost use Rattle.c_interface.specs.Compiling.{AreFiles, IsUncompiled};
ghost use Rattle.c_interface.specs.Refusing.{no_memory, numbers_of_refusal};
ghost use Rattle.c_interface.specs.Said.{no_sentence};

use c_interface::{ADT, Compiled, WDT, compile_files};
use std::alloc::Global;

/// Compiles a rule text into two table files, and returns 0 or the number of the refusal. A refused text leaves both files as
/// they were.
#[unsafe(no_mangle)]
pub extern "C" fn needlemauve_compile(
    alloc: Global,
    text: &[u8],
    wdt: &mut [u8; WDT],
    adt: &mut [u8; ADT],
    told: &mut Compiled,
) -> u32
    ensures answered { result ≡ told.new.refusal.code }
    ensures compiled { result ≡ 0 →
        AreFiles text.now wdt.new adt.new told.new.watchpoints told.new.rules }
    ensures untouched { result ≢ 0 → (wdt.new ≡ wdt.old) × (adt.new ≡ adt.old) }
    ensures why { result ≢ 0 → result ≢ no_memory → (why : TextRefusal) ×
        IsRefused limits text.now why × (told.new.refusal ≡ numbers_of_refusal 0 why) }
    ensures accepts { (rules : List NamedRule) → Compiles limits text.now rules →
        (result ≡ 0) ⊎ (result ≡ no_memory) }
    ensures refuses { (why : TextRefusal) → IsRefused limits text.now why →
        (told.new.refusal ≡ numbers_of_refusal 0 why) ⊎ (result ≡ no_memory) }
    ensures said { result ≢ 0 → IsUncompiled text.now told.new.refusal told.new.sentence }
    ensures silent { result ≡ 0 → told.new.sentence ≡ no_sentence }
{
    compile_files(alloc, text, wdt, adt, told)
}
