// A rule run over any log on any scale, and its outlook, in memory that the caller lends.
#![tactic(auto)]

pub mod rule_runs;
pub mod working_table;

pub use rule_runs::{is_settled, outlook, run};
pub use working_table::WorkingTable;
