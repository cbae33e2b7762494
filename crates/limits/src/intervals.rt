ghost use Rattle.std.specs.Prelude.{◌≡◌};
ghost use Rattle.tables.specs.Intervals.{interval_of};
ghost use Rattle.limits.specs.Parts.{every_node};
ghost use Rattle.limits.specs.Limits.{small, proper};

use crate::parts::interval_in;
use tables::{Interval, Node};

const LARGEST: u32 = 1_000_000_000;

// Whether both ends are numbers that a rule may hold.
fn is_small(interval: Interval) -> bool
    ensures { result ≡ small (interval_of interval) }
{
    interval.lower <= LARGEST && interval.upper.is_none_or(|upper| upper <= LARGEST)
}

// Whether the lower end is below the upper, or both are 0.
fn is_proper(interval: Interval) -> bool
    ensures { result ≡ proper (interval_of interval) }
{
    let lower = interval.lower;
    interval
        .upper
        .is_none_or(|upper| lower < upper || lower == upper && upper == 0)
}

// Two chains of one line, each named by its limit: one function over a test would be a third.
//
// Whether no number of a table is too large.
pub fn all_small(nodes: &[Node]) -> bool
    ensures { result ≡ every_node small nodes.now }
{
    nodes
        .iter()
        .all(|node| interval_in(*node).is_none_or(is_small))
}

// Whether each interval of a table is proper.
pub fn all_proper(nodes: &[Node]) -> bool
    ensures { result ≡ every_node proper nodes.now }
{
    nodes
        .iter()
        .all(|node| interval_in(*node).is_none_or(is_proper))
}
