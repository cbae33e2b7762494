// A location with a start before the event, as a function of its value at the next event: between two tests of its clock
// it is given by two grades.
ghost use Rattle.std.specs.Prelude.{◌≡◌, ◌+◌, ◌<◌, ◌≤◌, length, None};
ghost use Rattle.semantics.specs.Values.{test};
ghost use Rattle.tables.specs.Intervals.{upper_of, interval_of};
ghost use Rattle.evaluation.specs.Segments.{end_from, window_from};
ghost use Rattle.evaluation.specs.Passes.{Valued, Segmented};

use crate::boundary::of_test;
use crate::deadlines::sooner;
use crate::turn::Turn;
use scales::Scale;
use tables::interval::at_most;
use tables::{Cell, Interval};

// The values of a location by the clock `since`, and up to the horizon, where it is lowest and where it is highest at
// the next event.
#[derive(Clone, Copy)]
pub struct Segment<S> {
    pub since: u64,
    pub low: S,
    pub high: S,
    pub horizon: Option<u32>,
}

// The last clock reading at which a test of an upper end comes out as now.
fn end_after(clock: u64, upper: Option<u32>) -> Option<u32>
    ensures { upper_of result ≡ end_from clock (upper_of upper) }
{
    if at_most(upper, clock) { upper } else { None }
}

// The last one at which a test of an interval does.
fn window_after(clock: u64, interval: Interval) -> Option<u32>
    ensures { upper_of result ≡ window_from clock (interval_of interval) }
{
    if clock < interval.lower as u64 {
        Some(interval.lower - 1)
    } else {
        end_after(clock, interval.upper)
    }
}

// A segment of what is the same at every clock and whatever comes next.
fn fixed<S: Scale>(since: u64, grade: S) -> Segment<S>
    ensures since { result.since ≡ since }
    ensures low { result.low ≡ grade }
    ensures high { result.high ≡ grade }
    ensures horizon { result.horizon ≡ None }
{
    Segment {
        since,
        low: grade,
        high: grade,
        horizon: None,
    }
}

// A segment of a test, up to the last clock reading at which it comes out as now.
fn tested<S: Scale>(since: u64, holds: bool, horizon: Option<u32>) -> Segment<S>
    ensures since { result.since ≡ since }
    ensures low { result.low ≡ test S.ops holds }
    ensures high { result.high ≡ test S.ops holds }
    ensures horizon { result.horizon ≡ horizon }
{
    let grade = of_test(holds);
    Segment {
        since,
        low: grade,
        high: grade,
        horizon,
    }
}

impl Turn<'_> {
    // The value of cell k by a clock, where its location has the value `next` at the next event. Behind a reset it stands in the
    // event's column, and so does what asks neither the clock nor a location.
    pub(crate) fn value<S: Scale>(&self, grades: &[S], clock: u64, next: S, k: usize) -> S
        requires fits { self.now.base + length self.now.automaton.cells.now ≤ length grades.now }
        requires inside { k < length self.now.automaton.cells.now }
        ensures { Valued S.ops self.now clock next grades.now k result }
    {
        match self.automaton.cells[k] {
            Cell::And { left, right } => {
                let a: S = self.value(grades, clock, next, left as usize);
                a.meet(self.value(grades, clock, next, right as usize))
            }
            Cell::Or { left, right } => {
                let a: S = self.value(grades, clock, next, left as usize);
                a.join(self.value(grades, clock, next, right as usize))
            }
            Cell::Inside { interval } => of_test(interval.contains(clock)),
            Cell::Outside { interval } => of_test(!interval.contains(clock)),
            Cell::AtMost { upper } => of_test(at_most(upper, clock)),
            Cell::Above { upper } => of_test(!at_most(upper, clock)),
            Cell::Reset { cell } => grades[self.base + cell as usize],
            Cell::Jump { .. } => next,
            _ => grades[self.base + k],
        }
    }

    // Cell k from a clock on, in one walk over its parts: where its location is lowest and where it is highest at the next event,
    // and the last clock reading at which all its tests come out as now. Behind a reset it stands in the event's column, and so
    // does what asks neither the clock nor a location.
    pub(crate) fn segment_at<S: Scale>(&self, grades: &[S], clock: u64, k: usize) -> Segment<S>
        requires fits { self.now.base + length self.now.automaton.cells.now ≤ length grades.now }
        requires inside { k < length self.now.automaton.cells.now }
        ensures since { result.since ≡ clock }
        ensures segmented { Segmented S.ops self.now grades.now k result }
    {
        match self.automaton.cells[k] {
            Cell::And { left, right } => {
                let a: Segment<S> = self.segment_at(grades, clock, left as usize);
                let b: Segment<S> = self.segment_at(grades, clock, right as usize);
                Segment {
                    since: clock,
                    low: a.low.meet(b.low),
                    high: a.high.meet(b.high),
                    horizon: sooner(a.horizon, b.horizon),
                }
            }
            Cell::Or { left, right } => {
                let a: Segment<S> = self.segment_at(grades, clock, left as usize);
                let b: Segment<S> = self.segment_at(grades, clock, right as usize);
                Segment {
                    since: clock,
                    low: a.low.join(b.low),
                    high: a.high.join(b.high),
                    horizon: sooner(a.horizon, b.horizon),
                }
            }
            Cell::Inside { interval } => {
                tested(
                    clock,
                    interval.contains(clock),
                    window_after(clock, interval),
                )
            }
            Cell::Outside { interval } => {
                tested(
                    clock,
                    !interval.contains(clock),
                    window_after(clock, interval),
                )
            }
            Cell::AtMost { upper } => tested(clock, at_most(upper, clock), end_after(clock, upper)),
            Cell::Above { upper } => tested(clock, !at_most(upper, clock), end_after(clock, upper)),
            Cell::Reset { cell } => fixed(clock, grades[self.base + cell as usize]),
            Cell::Jump { .. } => Segment {
                since: clock,
                low: S::lowest(),
                high: S::highest(),
                horizon: None,
            },
            _ => fixed(clock, grades[self.base + k]),
        }
    }
}
