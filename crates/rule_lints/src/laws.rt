//! The laws of groups, each stated by a function with an empty body.

ghost use Rattle.rule_lints.specs.Groups.{EachIsGrouped, GroupedAreAlike, GroupedOnce};

/// States that each pair of rules that are known to fail alike is in a group, and that a group has no other rules. Of
/// pairs in order, no group has both a group's first rule and another one of that group.
pub fn groups_have_each_pair()
    ensures each { EachIsGrouped }
    ensures no_other { GroupedAreAlike }
    ensures once { GroupedOnce }
{}
