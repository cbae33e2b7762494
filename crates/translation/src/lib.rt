// The automaton of a normal form: its cells and locations, written in one pass over the table of normal forms.
#![tactic(auto)]

pub mod automaton;
pub mod builder;
pub mod clauses;
