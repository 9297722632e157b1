//! The library's version, and what may be asked of a host that is fed. The kit lets no exported function take a
//! struct that can be read through a `&`, so these take a `&mut`; that nothing changes is a clause.

ghost use Rattle.std.specs.Prelude.{◌≡◌, IsSomeAnd};
ghost use Rattle.c_interface.specs.Asking.{TellsRule, engine_in, figures_of, rule_in};
ghost use Rattle.c_interface.specs.Feeding.{IsFed};

use c_interface::{Figures, Handle, RuleReading, tell_figures, tell_rule};

/// Its first part times 1,000,000, its second times 1,000, and its third.
const VERSION: u32 = 10_000;

/// The version of the archive, in one number that grows with it, as the header's `NEEDLEMAUVE_VERSION_NUMBER`.
#[unsafe(no_mangle)]
pub extern "C" fn needlemauve_version() -> u32
    ensures { result ≡ 10_000 }
{
    VERSION
}

/// Tells how the rule with this number stands, and returns 0; or returns 245 (no Limit Checker runs) or 246 (no such rule), and
/// writes nothing. Condition: the handle holds a host.
#[unsafe(no_mangle)]
pub extern "C" fn needlemauve_host_rule(host: &mut Handle, rule: u16, told: &mut RuleReading) -> u32
    requires there { IsSomeAnd host.old.value IsFed }
    ensures told { IsSomeAnd host.old.value (λ fed.
        TellsRule (rule_in (engine_in fed) rule) told.old told.new result) }
    ensures same { host.new.value ≡ host.old.value }
{
    tell_rule(host, rule, told)
}

/// Tells the figures of a host, and returns 0. Condition: the handle holds a host.
#[unsafe(no_mangle)]
pub extern "C" fn needlemauve_host_figures(host: &mut Handle, told: &mut Figures) -> u32
    requires there { IsSomeAnd host.old.value IsFed }
    ensures told { IsSomeAnd host.old.value (λ fed. told.new ≡ figures_of fed) }
    ensures same { host.new.value ≡ host.old.value }
    ensures answered { result ≡ 0 }
{
    tell_figures(host, told);
    0
}
