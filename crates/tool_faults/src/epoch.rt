//! The instant of second 0.

ghost use Rattle.std.specs.Prelude.{◌≡◌, is_some, true, IfErr, IfOk};
ghost use Rattle.tool_faults.specs.Status.{status_of};

use crate::fault::Fault;
use packet_rows::Epoch;

/// The instant that the option `--epoch` names, if it is given. Error: `Value` if its word is not an instant.
pub fn epoch_of<'a>(word: Option<&'a str>) -> Result<Option<Epoch>, Fault<'a>>
    ensures given { IfOk result (λ epoch. is_some epoch ≡ is_some word.entry) }
    ensures refused { IfErr result (λ fault. (is_some word.entry ≡ true) × (status_of fault ≡ 2)) }
{
    match word {
        None => Ok(None),
        Some(word) => match Epoch::read(word) {
            Some(epoch) => Ok(Some(epoch)),
            None => Err(Fault::Value(
                "--epoch",
                word,
                "write a UTC time, for example 2000-01-01T12:00:00Z",
            )),
        },
    }
}
