// The report: what a rule says of a log file, as bytes.
#![tactic(auto)]

mod delivery;
mod lines;
mod listing;
mod reports;

pub use reports::{Room, enough, one_report, report};
