//! The tests of the tools' libraries by public calls alone, where no command prints what they return: pages whose reader, writer or
//! memory fails, their progress, and lines, sentences and errors of the libraries' own. The rows of the commands stand in
//! `rows/`.
#![tactic(auto)]

#[cfg(test)]
mod claims;
#[cfg(test)]
mod comparisons;
#[cfg(test)]
mod findings;
#[cfg(test)]
mod packets;
#[cfg(test)]
mod pages;
#[cfg(test)]
mod results;
#[cfg(test)]
mod rows;
#[cfg(test)]
mod scripts;
#[cfg(test)]
mod warnings;
