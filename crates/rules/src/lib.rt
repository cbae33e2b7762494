// Rules: a text in, and out of it the tables of an automaton that means what the text says.
#![tactic(auto)]

pub mod rule;

pub use rule::Rule;
