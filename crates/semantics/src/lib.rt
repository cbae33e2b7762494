// What a rule means, what its automaton is and computes, and that the two agree, for every scale, log and form.
// Each function stands for a theorem, which is its contract; there is nothing to run.
#![tactic(auto)]

pub mod agreement;
pub mod boundaries;
pub mod outlook;
pub mod tables;
pub mod worked;
