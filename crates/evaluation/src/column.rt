// The column of an event: the grade of every cell whose start is that event.
ghost use Rattle.std.specs.Prelude.{◌≡◌, ◌+◌, ◌≤◌, length};
ghost use Rattle.evaluation.specs.Columns.{graded_by, Reach, Graded, Framed};

use crate::boundary::of_test;
use crate::turn::Turn;
use logs::Event;
use scales::Scale;
use tables::Cell;
use tables::interval::at_most;

impl Turn<'_> {
    // The clock reads 0, and a reset leaves it so.
    fn graded<S: Scale>(&self, event: &Event, grades: &[S], cell: Cell) -> S
        requires { Reach self.now (length grades.now) cell }
        ensures { result ≡ graded_by S.ops event.now self.now grades.now cell }
    {
        match cell {
            Cell::Accept => S::highest(),
            Cell::Reject => S::lowest(),
            Cell::Holds { fact } => S::of_reading(event.reading(fact)),
            Cell::Fails { fact } => S::of_reading(event.reading(fact)).opposite(),
            Cell::And { left, right } => grades[self.base + left as usize].meet(
                grades[self.base + right as usize],
            ),
            Cell::Or { left, right } => grades[self.base + left as usize].join(
                grades[self.base + right as usize],
            ),
            Cell::Inside { interval } => of_test(interval.contains(0)),
            Cell::Outside { interval } => of_test(!interval.contains(0)),
            Cell::AtMost { upper } => of_test(at_most(upper, 0)),
            Cell::Above { upper } => of_test(!at_most(upper, 0)),
            Cell::Reset { cell } => grades[self.base + cell as usize],
            Cell::Jump { location } => grades[self.place(location as usize, self.at)],
        }
    }

    // Grades every cell, each from those before it.
    pub(crate) fn column<S: Scale>(&self, event: &Event, grades: &mut [S])
        requires { self.now.base + length self.now.automaton.cells.now ≤ length grades.old }
        ensures graded { Graded S.ops event.now self.now (length self.now.automaton.cells.now) grades.new }
        ensures framed { Framed S.ops self.now.base (length self.now.automaton.cells.now) grades.old grades.new }
    {
        for (k, cell) in self.automaton.cells.iter().enumerate() {
            grades[self.base + k] = self.graded(event, grades, *cell);
        }
    }
}
