// The normal form of a rule, as a table made from the rule's table of forms.
#![tactic(auto)]

pub mod normalize;
pub mod shape;
