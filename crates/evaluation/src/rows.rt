// The rows of memory: one for each location, with a place for each event.
ghost use Rattle.std.specs.Prelude.{◌≡◌, ℕ, ◌+◌, ◌*◌, ◌<◌, ◌≤◌, min, ◌++◌, length, drop, replicate};
ghost use Rattle.evaluation.specs.Columns.{held_from, held, Framed};
ghost use Rattle.evaluation.specs.Rows.{Moved, Begun};

use crate::automaton::Automaton;
use crate::boundary::Boundary;
use crate::turn::Turn;
use scales::Scale;

impl Turn<'_> {
    // Moves the roots of a column that is graded whole to the places of its start.
    pub(crate) fn settle<S: Scale>(&self, grades: &mut [S])
        requires { self.now.base + length self.now.automaton.cells.now ≤ length grades.old }
        ensures { Moved S.ops self.now (length self.now.automaton.locations.now) grades.old grades.new }
    {
        for (l, location) in self.automaton.locations.iter().enumerate() {
            grades[self.place(l, self.at)] = grades[self.base + location.root as usize];
        }
    }
}

// Writes a grade into k places from `at` on. `fill` of slices needs a `clone` that
// is known not to fail; `Copy` does not say so.
pub(crate) fn fill<S: Scale>(grades: &mut [S], at: usize, k: usize, grade: S)
    requires { at + k ≤ length grades.old }
    ensures wrote { (a : ℕ) → a < k → held_from S.ops grades.new at a ≡ grade }
    ensures framed { Framed S.ops at k grades.old grades.new }
{
    for place in &mut grades[at..at + k] {
        *place = grade;
    }
}

impl Automaton<'_> {
    // Writes what stands behind the last event into the row of each location.
    pub(crate) fn begin<S: Scale>(&self, boundary: Boundary, grades: &mut [S], count: usize)
        requires short { count ≤ 512 }
        requires fits { length self.now.locations.now * count ≤ length grades.old }
        ensures { Begun S.ops boundary self.now.locations.now count (length self.now.locations.now) grades.old grades.new }
    {
        for (l, location) in self.locations.iter().enumerate() {
            fill(grades, l * count, count, boundary.grade(location.is_final));
        }
    }
}

// Makes the first k grades lowest, or all where there are fewer.
pub fn clear_front<S: Scale>(grades: &mut [S], k: usize)
    ensures { grades.new ≡ replicate (min k (length grades.old)) S.ops.low ++ drop k grades.old }
{
    let end = k.min(grades.len());
    fill(grades, 0, end, S::lowest());
}
