//! Numbers in a sentence.

use std::fmt;

/// A number with a comma before each three digits.
#[derive(Clone, Copy)]
pub struct Grouped(pub u64);

impl fmt::Display for Grouped {
    fn fmt<W: fmt::Write>(&self, f: &mut fmt::Formatter<W>) -> fmt::Result {
        let units = self.0 % 1_000;
        let thousands = self.0 / 1_000 % 1_000;
        let millions = self.0 / 1_000_000 % 1_000;
        let more = self.0 / 1_000_000_000;
        if more > 0 {
            write!(f, "{more},{millions:03},{thousands:03},{units:03}")
        } else if millions > 0 {
            write!(f, "{millions},{thousands:03},{units:03}")
        } else if thousands > 0 {
            write!(f, "{thousands},{units:03}")
        } else {
            write!(f, "{units}")
        }
    }
}

/// A number with a comma before each three digits, and with a sign where it is negative.
#[derive(Clone, Copy)]
pub struct Signed(pub i64);

impl fmt::Display for Signed {
    fn fmt<W: fmt::Write>(&self, f: &mut fmt::Formatter<W>) -> fmt::Result {
        let magnitude = Grouped(self.0.unsigned_abs());
        if self.0 < 0 {
            write!(f, "-{magnitude}")
        } else {
            write!(f, "{magnitude}")
        }
    }
}

/// A count of things, with the name of one: `1 rule`, `1,000 rules`.
#[derive(Clone, Copy)]
pub struct Many<'a>(pub usize, pub &'a str);

impl fmt::Display for Many<'_> {
    fn fmt<W: fmt::Write>(&self, f: &mut fmt::Formatter<W>) -> fmt::Result {
        let count = Grouped(self.0 as u64);
        let name = self.1;
        if self.0 == 1 {
            write!(f, "{count} {name}")
        } else {
            write!(f, "{count} {name}s")
        }
    }
}
