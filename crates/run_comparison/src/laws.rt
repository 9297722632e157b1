//! A law of the definitions.

ghost use Rattle.run_comparison.specs.Order.{SameAreEqual};

/// Lists of meanings that are the same by the test are equal: requests and events that mean something else differ.
pub fn same_meanings_are_equal()
    ensures { SameAreEqual }
{}
