// The text reader: a whole text read into a table of forms, or turned down.
#![tactic(auto)]

pub mod parsing;
pub mod source;

pub use parsing::read;
pub use source::Source;
