// The event whose turn it is, in a run of an automaton from the last event of a log to the first.
ghost use Rattle.std.specs.Prelude.{◌≡◌, ◌+◌, ◌-◌, ◌*◌, ◌<◌, ◌≤◌, length};
ghost use Rattle.evaluation.specs.Times.{Rising};

use crate::automaton::Automaton;

// Event `at` of `count`, whose times never fall. Each location has a row of `count` places in memory, and behind the rows,
// from `base` on, stands the column of the event's cells. The memory is no part of a turn: with it, every method would have to
// say of each other field that it stays; so each asks for its room.
#[derive(Clone, Copy)]
pub(crate) struct Turn<'a> {
    pub(crate) automaton: Automaton<'a>,
    pub(crate) times: &'a [u64],
    pub(crate) at: usize,
    pub(crate) count: usize,
    pub(crate) base: usize,
    ghost begun: { 0 < at },
    ghost logged: { at ≤ count },
    ghost few: { count ≤ 512 },
    ghost based: { base ≡ length automaton.locations.now * count },
    ghost timed: { count ≤ length times.now },
    ghost rising: { Rising count times.now },
}

impl Turn<'_> {
    // The place of location l and event r.
    pub(crate) fn place(&self, l: usize, r: usize) -> usize
        requires few_rows { l ≤ 65536 }
        requires begun { 0 < r }
        requires logged { r ≤ self.now.count }
        ensures { result ≡ l * self.now.count + (r - 1) }
    {
        l * self.count + (r - 1)
    }
}
