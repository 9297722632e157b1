//! Boxes of any applications side by side, in one host and in one run: a Limit Checker, a scheduler, a counter, and an
//! application of another kind than this profile's. All but that one is taken from `flight_profile`.
#![tactic(auto)]

#[cfg(test)]
mod hosting;
#[cfg(test)]
mod running;
