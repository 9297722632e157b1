//! A Limit Checker's engine with the tables of a rule text.

ghost use Rattle.std.specs.Prelude.{◌≡◌};
ghost use Rattle.lc_model.specs.declared.kind.Kind.TheVariants.{Wdt, Adt};

use lc_model::Kind;
use limit_engine::Engine;
use rpn_compiler::compile;
use std::alloc::Global;
use table_file::{open, preamble};
use table_validator::{ValidImage, validate};

/// Puts tables in force, where they belong together.
fn put_in_force(engine: &mut Engine, wdt: &ValidImage<'_>, adt: &ValidImage<'_>)
    requires wdt { wdt.now.kind ≡ Wdt }
    requires adt { adt.now.kind ≡ Adt }
{
    let is_match = preamble::hash(wdt.image()) == preamble::hash(adt.image())
        && preamble::watchpoint_count(wdt.image()) == preamble::watchpoint_count(adt.image());
    if is_match {
        engine.adopt(wdt, adt);
    }
}

/// A Limit Checker's engine with the tables of a text.
pub fn engine_with(alloc: Global, text: &[u8]) -> anyhow::Result<Engine> {
    let pair = compile(alloc, text)?;
    let wdt = open(pair.wdt.as_slice())?;
    let adt = open(pair.adt.as_slice())?;
    let wdt = validate(Kind::Wdt, wdt.image())?;
    let adt = validate(Kind::Adt, adt.image())?;
    let mut engine = Engine::new(alloc)?;
    put_in_force(&mut engine, &wdt, &adt);
    Ok(engine)
}
