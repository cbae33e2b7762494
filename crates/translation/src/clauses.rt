// The cells of a normal form that has a location, once for a next and an until and for their duals.
ghost use Rattle.std.specs.Prelude.{◌≡◌, ◌+◌, ◌^◌, ◌<◌};
ghost use Rattle.semantics.specs.Cells.{five, nine};
ghost use Rattle.tables.specs.Intervals.{interval_of, upper_of};
ghost use Rattle.tables.specs.CellTables.{cell_of, cells_of};
ghost use Rattle.translation.specs.Duals.{inner_of, outer_of, window_of, deadline_of, final_of};

use tables::{Cell, Interval};

// A next or an until, or its dual: every joint and every test turns into its opposite.
#[derive(Clone, Copy)]
pub enum Duality {
    Primal,
    Dual,
}

impl Duality {
    fn inner(self, left: u16, right: u16) -> Cell
        ensures { cell_of result ≡ inner_of self left right }
    {
        match self {
            Duality::Primal => Cell::And { left, right },
            Duality::Dual => Cell::Or { left, right },
        }
    }

    fn outer(self, left: u16, right: u16) -> Cell
        ensures { cell_of result ≡ outer_of self left right }
    {
        match self {
            Duality::Primal => Cell::Or { left, right },
            Duality::Dual => Cell::And { left, right },
        }
    }

    fn window(self, interval: Interval) -> Cell
        ensures { cell_of result ≡ window_of self (interval_of interval) }
    {
        match self {
            Duality::Primal => Cell::Inside { interval },
            Duality::Dual => Cell::Outside { interval },
        }
    }

    fn deadline(self, upper: Option<u32>) -> Cell
        ensures { cell_of result ≡ deadline_of self (upper_of upper) }
    {
        match self {
            Duality::Primal => Cell::AtMost { upper },
            Duality::Dual => Cell::Above { upper },
        }
    }

    // Whether its location is final.
    pub(crate) fn is_final(self) -> bool
        ensures { result ≡ final_of self }
    {
        match self {
            Duality::Primal => false,
            Duality::Dual => true,
        }
    }

    // The cells of a next from cell `base` on, whose location is `own`.
    pub(crate) fn next_cells(self, interval: Interval, own: u16, base: u16, inner: u16) -> [Cell; 5]
        requires { base + 5 < 2 ^ 16 }
        ensures { cells_of result ≡ five (inner_of self) (window_of self (interval_of interval)) own base inner }
    {
        [
            self.window(interval),
            Cell::Reset { cell: inner },
            self.inner(base, base + 1),
            Cell::Jump { location: own },
            Cell::Reset { cell: base + 3 },
        ]
    }

    // The cells of an until from cell `base` on, whose location is `own`.
    pub(crate) fn until_cells(
        self,
        interval: Interval,
        own: u16,
        base: u16,
        left: u16,
        right: u16,
    ) -> [Cell; 9]
        requires { base + 9 < 2 ^ 16 }
        ensures { cells_of result ≡ nine (inner_of self) (outer_of self) (window_of self (interval_of interval)) (deadline_of self (upper_of interval.upper)) own base left right }
    {
        [
            Cell::Reset { cell: right },
            self.window(interval),
            self.inner(base, base + 1),
            Cell::Reset { cell: left },
            Cell::Jump { location: own },
            self.deadline(interval.upper),
            self.inner(base + 3, base + 4),
            self.inner(base + 6, base + 5),
            self.outer(base + 2, base + 7),
        ]
    }
}
