//! Why an expectation can't be read.

use thiserror::Error;

/// What is wrong with the words of an expectation.
#[derive(Clone, Copy, Debug, PartialEq, Eq, Error)]
pub enum ExpectationFault {
    #[error("`expect` goes on with `sequence`, `event`, `state` or `result`, or with `no` and one of the first two")]
    NoWhat,
    #[error("a number is from 0 to 65535")]
    BadNumber,
    #[error("a second is from 0 to 4294967295, and behind `until` from 1 on")]
    BadSecond,
    #[error("seconds are told by `from`, `at`, `by` or `until` with a second, or by `from` and one of the last two")]
    NoSpan,
    #[error("these seconds end before they begin: nothing can come in them")]
    NoSecond,
    #[error("`state` goes on with a rule's name and `active`, `passive`, `disabled` or `off`")]
    NoState,
    #[error("`result` goes on with a rule's name and `none`, `pass`, `fail`, `stale` or `error`")]
    NoResult,
}
