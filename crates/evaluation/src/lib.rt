// Every location of a rule's automaton at every event of a log, over any boundary, on any scale: what a run and both
// passes of an outlook are.
#![tactic(auto)]

mod automaton;
pub mod boundary;
mod column;
mod deadlines;
pub mod evaluating;
mod passes;
pub mod rows;
mod segments;
mod starts;
mod turn;

pub use boundary::Boundary;
pub use evaluating::evaluate;
pub use rows::clear_front;
