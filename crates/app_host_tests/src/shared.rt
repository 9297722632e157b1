//! An assertion that the tests share.

use crate::playing::plays;
use crate::script::{ScriptLine, Spare};
use std::process::Abort;

/// A host with these spares plays the script, and every line holds.
pub fn all_holds<R: Abort + AllocGlobal>(rt: &R, spares: &[Spare], script: &[ScriptLine<'_>]) {
    let first = plays(rt.alloc(), spares, script).expect(rt, "out of memory");
    assert_eq!(rt; first, None, "of the first line that does not hold");
}
