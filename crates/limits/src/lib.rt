// The limits of a rule, told from its table of forms: how deep it nests, and what its intervals are.
#![tactic(auto)]

pub mod depths;
pub mod intervals;
pub mod parts;
