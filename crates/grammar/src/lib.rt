// How a rule is written: its symbols, numbers, bounds and operators, read from the front of a text.
// Each function answers what it read and what is left, or nothing where the grammar has no such part there.
#![tactic(auto)]

pub mod bounds;
pub mod operator;
pub mod symbol;
