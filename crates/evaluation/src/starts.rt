// The starts before an event, location by location.
ghost use Rattle.std.specs.Prelude.{◌≡◌, ◌+◌, ◌-◌, ◌<◌, ◌≤◌, length, slice_index, slice_index_or, slice_set};
ghost use Rattle.tables.specs.Intervals.{upper_of};
ghost use Rattle.evaluation.specs.Passes.{Deadline, RowDone, RowsDone};

use crate::segments::Segment;
use crate::turn::Turn;
use scales::Scale;
use tables::Location;
use tables::interval::at_most;

// Up to this event the starts before it are too few for a segment to save work.
const FEW_STARTS: usize = 3;

// The place of a start takes the value of its location by a segment.
fn move_start<S: Scale>(grades: &mut [S], at: usize, segment: Segment<S>)
    requires { at < length grades.old }
    ensures { grades.new ≡ slice_set grades.old at (S.ops.join (S.ops.meet (slice_index_or grades.old at S.ops.low) segment.high) segment.low) }
{
    grades[at] = grades[at].meet(segment.high).join(segment.low);
}

impl Turn<'_> {
    // What the clock of an earlier start reads at the event.
    fn clock_of(&self, start: usize) -> u64
        requires begun { 0 < start }
        requires earlier { start < self.now.at }
        ensures { result ≡ slice_index self.now.times.now (self.now.at - 1) - slice_index self.now.times.now (start - 1) }
    {
        self.times[self.at - 1].saturating_sub(self.times[start - 1])
    }

    // The deadline of a location at the event. At the last event there is none, so that every start is graded once.
    fn row_deadline(&self, location: usize) -> Option<u32>
        requires { location < length self.now.automaton.locations.now }
        ensures { Deadline self.now location (upper_of result) }
    {
        if self.at < self.count {
            let Location { root, is_final } = self.automaton.locations[location];
            self.automaton.deadline_of(root as usize, is_final)
        } else {
            None
        }
    }

    // The starts of a location where they are few, each by its own value.
    fn few_starts<S: Scale>(&self, grades: &mut [S], location: usize)
        requires fits { self.now.base + length self.now.automaton.cells.now ≤ length grades.old }
        requires there { location < length self.now.automaton.locations.now }
        ensures { RowDone S.ops self.now location grades.old grades.new }
    {
        let root = self.automaton.locations[location].root as usize;
        for s in (1..self.at).rev() {
            let clock = self.clock_of(s);
            let at = self.place(location, s);
            grades[at] = self.value(grades, clock, grades[at], root);
        }
    }

    // The starts of a location, the latest first, until one is behind the location's deadline: it and all before it are
    // decided, and have stood so since the last event's turn.
    fn row_starts<S: Scale>(&self, grades: &mut [S], location: usize)
        requires fits { self.now.base + length self.now.automaton.cells.now ≤ length grades.old }
        requires there { location < length self.now.automaton.locations.now }
        ensures { RowDone S.ops self.now location grades.old grades.new }
    {
        if self.at <= FEW_STARTS {
            return self.few_starts(grades, location);
        }
        let root = self.automaton.locations[location].root as usize;
        let deadline = self.row_deadline(location);
        let mut segment = self.segment_at(grades, 0, root);
        // by number, which names the start's place in its row
        for s in (1..self.at).rev() {
            let clock = self.clock_of(s);
            if !at_most(deadline, clock) {
                return;
            }
            if !at_most(segment.horizon, clock) {
                segment = self.segment_at(grades, clock, root);
            }
            move_start(grades, self.place(location, s), segment);
        }
    }

    // The starts of every location but location 0, to which nothing jumps. By number: the loop reads no table, and a row is
    // named by its location's number alone.
    pub(crate) fn starts<S: Scale>(&self, grades: &mut [S])
        requires { self.now.base + length self.now.automaton.cells.now ≤ length grades.old }
        ensures { RowsDone S.ops self.now (length self.now.automaton.locations.now) grades.old grades.new }
    {
        // no start is before the first event's
        if self.at == 1 {
            return;
        }
        for l in 1..self.automaton.locations.len() {
            self.row_starts(grades, l);
        }
    }
}
