// Scales of grades: what a scale answers, the laws that it shows, and the three scales of the watch.
#![tactic(auto)]

pub mod doubt;
pub mod lattice;
pub mod level;
pub mod level_scale;
pub mod plain;
pub mod scale;

pub use doubt::Doubt;
pub use level::Level;
pub use plain::Plain;
pub use scale::Scale;
