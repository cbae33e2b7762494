// The events of a log, from the last to the first.
ghost use Rattle.std.specs.Prelude.{◌≡◌, ◌+◌, ◌*◌, ◌≤◌, length};
ghost use Rattle.evaluation.specs.Passes.{Timed, Rest, EventDone, EventsDone};

use crate::automaton::Automaton;
use crate::turn::Turn;
use logs::{Log, MOST_EVENTS, event_of};
use scales::Scale;

// A log of no more events than this has its times in a small array: to clear the large one would take longer than its run.
const FEW_EVENTS: usize = 16;

// The time of each event, asked of the log once; in an array, since the library has no heap.
fn times_of<L: Log, const N: usize>(log: &L) -> [u64; N]
    requires fits { length (L.events log.now) ≤ N }
    ensures timed { Timed (L.events log.now) (length (L.events log.now)) result }
    ensures long { length result ≡ N }
{
    let mut times = [0; N];
    for (k, time) in times[..log.count()].iter_mut().enumerate() {
        *time = log.time(k + 1);
    }
    times
}

impl Turn<'_> {
    // The event, which is asked of the log once: first the cells whose start it is, which resets read, then every start before it.
    fn at_event<S: Scale, L: Log>(&self, log: &L, grades: &mut [S])
        requires timed { Timed (L.events log.now) self.now.count self.now.times.now }
        requires fits { self.now.base + length self.now.automaton.cells.now ≤ length grades.old }
        ensures done { EventDone S.ops (L.events log.now) self.now grades.old grades.new }
        ensures rest { Rest S.ops self.now.base (length self.now.automaton.cells.now) grades.old grades.new }
    {
        let event = event_of(log, self.at);
        self.column(&event, grades);
        self.starts(grades);
        self.settle(grades);
    }
}

// From the last event to the first, by their times.
fn backward_by<S: Scale, L: Log>(
    log: &L,
    automaton: &Automaton<'_>,
    times: &[u64],
    grades: &mut [S],
    count: usize,
)
    requires timed { Timed (L.events log.now) count times.now }
    requires long { count ≤ length times.now }
    requires fits { length automaton.now.locations.now * count + length automaton.now.cells.now ≤ length grades.old }
    ensures done { EventsDone S.ops (L.events log.now) automaton.now.cells.now automaton.now.locations.now count 0 grades.old grades.new }
    ensures rest { Rest S.ops (length automaton.now.locations.now * count) (length automaton.now.cells.now) grades.old grades.new }
{
    let base = automaton.locations.len() * count;
    for at in (1..=count).rev() {
        let turn = Turn {
            automaton: *automaton,
            times,
            at,
            count,
            base,
        };
        turn.at_event(log, grades);
    }
}

// From the last event to the first.
pub(crate) fn backward<S: Scale, L: Log>(
    log: &L,
    automaton: &Automaton<'_>,
    grades: &mut [S],
    count: usize,
)
    requires counted { count ≡ length (L.events log.now) }
    requires fits { length automaton.now.locations.now * count + length automaton.now.cells.now ≤ length grades.old }
    ensures done { EventsDone S.ops (L.events log.now) automaton.now.cells.now automaton.now.locations.now count 0 grades.old grades.new }
    ensures rest { Rest S.ops (length automaton.now.locations.now * count) (length automaton.now.cells.now) grades.old grades.new }
{
    if count <= FEW_EVENTS {
        backward_by(
            log,
            automaton,
            &times_of::<L, FEW_EVENTS>(log),
            grades,
            count,
        );
    } else {
        backward_by(
            log,
            automaton,
            &times_of::<L, MOST_EVENTS>(log),
            grades,
            count,
        );
    }
}
