// Everything that the watch turns down: one case for each reason, its number, and its words.
#![tactic(auto)]

mod refusal;

pub use refusal::Refusal;
