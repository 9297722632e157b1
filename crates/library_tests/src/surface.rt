//! The public interface as it was asked for: calls, variants, fields and numbers by their names, in the crates that have them.
//! Contracts say that the calls do what they should; here the calls are made, also at the limits of the services.

#[cfg(test)]
mod compiling;
#[cfg(test)]
mod devices;
#[cfg(test)]
mod effort;
#[cfg(test)]
mod numbers;
#[cfg(test)]
mod running;
#[cfg(test)]
mod seats;
#[cfg(test)]
mod serving;
#[cfg(test)]
mod tables;
#[cfg(test)]
mod values;
