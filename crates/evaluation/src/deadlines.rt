// By which clock a location is decided, whatever else comes.
ghost use Rattle.std.specs.Prelude.{◌≡◌, ◌<◌, length, slice_index_or};
ghost use Rattle.semantics.specs.Automata.{reject};
ghost use Rattle.tables.specs.Intervals.{upper_of};
ghost use Rattle.evaluation.specs.Deadlines as spec;
ghost use Rattle.evaluation.specs.Deadlines.{unless, deadline};
ghost use Rattle.evaluation.specs.Clauses.{clauses};

use crate::automaton::Automaton;
use tables::Cell;

// Of two deadlines the later, where none is never.
fn later(a: Option<u32>, b: Option<u32>) -> Option<u32>
    ensures { upper_of result ≡ spec.later (upper_of a) (upper_of b) }
{
    Some(a?.max(b?))
}

// And the earlier.
pub(crate) fn sooner(a: Option<u32>, b: Option<u32>) -> Option<u32>
    ensures { upper_of result ≡ spec.sooner (upper_of a) (upper_of b) }
{
    match (a, b) {
        (Some(u), Some(v)) => Some(u.min(v)),
        _ => a.or(b),
    }
}

// Chooses a value and runs no step: no deadline where the test's verdict is the one that counts.
fn end_unless(holds: bool, end: Option<u32>) -> Option<u32>
    ensures { upper_of result ≡ unless holds (upper_of end) }
{
    if holds { None } else { end }
}

impl Automaton<'_> {
    // The last clock reading at which cell k may still be other than the verdict, highest or lowest; none where it always may.
    pub(crate) fn deadline_of(&self, k: usize, verdict: bool) -> Option<u32>
        requires { k < length self.now.cells.now }
        ensures { upper_of result ≡ deadline verdict (slice_index_or (clauses self.now.cells.now) k reject) }
    {
        match self.cells[k] {
            Cell::And { left, right } => {
                let a = self.deadline_of(left as usize, verdict);
                let b = self.deadline_of(right as usize, verdict);
                if verdict { later(a, b) } else { sooner(a, b) }
            }
            Cell::Or { left, right } => {
                let a = self.deadline_of(left as usize, verdict);
                let b = self.deadline_of(right as usize, verdict);
                if verdict { sooner(a, b) } else { later(a, b) }
            }
            Cell::Inside { interval } => end_unless(verdict, interval.upper),
            Cell::Outside { interval } => end_unless(!verdict, interval.upper),
            Cell::AtMost { upper } => end_unless(verdict, upper),
            Cell::Above { upper } => end_unless(!verdict, upper),
            _ => None,
        }
    }
}
