// A rule's tables, entry by entry: forms, normal forms, and the cells and locations of the automaton.
// An entry names earlier entries by number, so a table stands for trees: boxes would want a heap, and the library has none.
#![tactic(auto)]

pub mod cell;
pub mod interval;
pub mod node;
pub mod normal_node;

pub use cell::{Cell, Location};
pub use interval::Interval;
pub use node::Node;
pub use normal_node::NormalNode;
