//! The tests of `app_host` with applications of another kind than this profile's. No contract says what these send: the tests
//! check that a host writes all of it, in order, up to where a write fails, and that objects retire and are dropped. A host
//! plays scripts of records and questions (`playing`, `script`) over applications that count, that write letters, and that
//! send when they come and go (`tracked`, `named`, `speaking`). One call is proved: what a counter beside any other
//! application writes (`beside`).
#![tactic(auto)]

pub mod beside;
#[cfg(test)]
mod hosting;
#[cfg(test)]
mod leaving;
pub mod named;
#[cfg(test)]
mod output;
#[cfg(test)]
mod playing;
#[cfg(test)]
mod script;
#[cfg(test)]
mod seats;
#[cfg(test)]
mod shared;
#[cfg(test)]
mod speaking;
#[cfg(test)]
mod tally;
#[cfg(test)]
mod tracked;
#[cfg(test)]
mod written;
