ghost use Rattle.std.specs.Prelude.{◌≡◌, ◌+◌, ◌<◌, ◌≤◌, [], ◌∷◌, ◌++◌, length, slice_index};
ghost use Rattle.tables.specs.CellTables.{cell_of, cells_of, entries_of};
ghost use Rattle.tables.specs.Intervals.{interval_of};
ghost use Rattle.translation.specs.Building.{Room, started, plain_added, timed_added, next_added, until_added, write, NormalBelow};

use crate::automaton::Tables;
use crate::clauses::Duality;
use bounded::Bounded;
use std::marker::Model;
use tables::{Cell, Interval, Location, NormalNode};

// What is written so far: the cells, the locations, and the root cell of each normal form.
#[derive(Drop)]
pub struct Builder {
    pub cells: Bounded<Cell, 577>,
    pub locations: Bounded<Location, 65>,
    pub roots: Bounded<u16, 64>,
}

// Clauses see the cells and locations as the translation has them.
impl Model for Builder {
    ghost use Rattle.tables.specs.CellTables.{cells_of, entries_of};
    ghost use Rattle.translation.specs.Built.{Built};

    ghost Value = { Built };

    ghost view = { λ b. record { cells = cells_of b.cells; entries = entries_of b.locations; roots = b.roots } };
}

impl Builder {
    // Nothing but location 0, whose root comes last.
    pub fn new(root: u16) -> Builder
        ensures { result ≡ started root }
    {
        let mut locations = Bounded::new(Location {
            root,
            is_final: false,
        });
        let _ = locations.push(Location {
            root,
            is_final: false,
        });
        Builder {
            cells: Bounded::new(Cell::Reject),
            locations,
            roots: Bounded::new(0),
        }
    }

    // The root cell of a normal form that was written before.
    fn root(&self, form: usize) -> u16
        requires { form < length self.now.roots }
        ensures { result ≡ slice_index self.now.roots form }
    {
        let roots = self.roots.as_slice();
        roots[form]
    }

    // The cell of a normal form that has no location.
    fn plain(&mut self, cell: Cell)
        requires { Room self.old 1 }
        ensures { self.new ≡ plain_added self.old (cell_of cell) }
    {
        let base = self.cells.len() as u16;
        let _ = self.cells.push(cell);
        let _ = self.roots.push(base);
    }

    // Room for a location is asked apart from `Room`, since a cell without one asks for none.
    //
    // The cells of a normal form that has one; its location's root is cell `root` of these, and the last is its own.
    fn timed(&mut self, cells: &[Cell], root: u16, is_final: bool)
        requires room { Room self.old (length cells.now) }
        requires location { length self.old.entries < 65 }
        requires there { root < length cells.now }
        ensures { self.new ≡ timed_added self.old (cells_of cells.now) root is_final }
    {
        let base = self.cells.len() as u16;
        let _ = self.cells.extend_from_slice(cells);
        let _ = self.locations.push(Location {
            root: base + root,
            is_final,
        });
        let _ = self.roots.push(base + (cells.len() as u16 - 1));
    }

    // A next, or its dual.
    fn next(&mut self, duality: Duality, interval: Interval, inner: usize)
        requires room { Room self.old 5 }
        requires location { length self.old.entries < 65 }
        requires there { inner < length self.old.roots }
        ensures { self.new ≡ next_added self.old duality (interval_of interval) inner }
    {
        let base = self.cells.len() as u16;
        let own = self.locations.len() as u16;
        let cells = duality.next_cells(interval, own, base, self.root(inner));
        self.timed(&cells, 2, duality.is_final())
    }

    // An until, or its dual.
    fn until(&mut self, duality: Duality, interval: Interval, left: usize, right: usize)
        requires room { Room self.old 9 }
        requires location { length self.old.entries < 65 }
        requires left { left < length self.old.roots }
        requires right { right < length self.old.roots }
        ensures { self.new ≡ until_added self.old duality (interval_of interval) left right }
    {
        let base = self.cells.len() as u16;
        let own = self.locations.len() as u16;
        let (left, right) = (self.root(left), self.root(right));
        let cells = duality.until_cells(interval, own, base, left, right);
        self.timed(&cells, 8, duality.is_final())
    }

    // The cells and the location of one normal form more.
    pub fn add(&mut self, node: NormalNode)
        requires room { Room self.old 9 }
        requires location { length self.old.entries < 65 }
        requires earlier { NormalBelow (length self.old.roots) node }
        ensures { self.new ≡ write self.old node }
    {
        match node {
            NormalNode::Top => self.plain(Cell::Accept),
            NormalNode::Bottom => self.plain(Cell::Reject),
            NormalNode::Fact { fact } => self.plain(Cell::Holds { fact }),
            NormalNode::Opposed { fact } => self.plain(Cell::Fails { fact }),
            NormalNode::Both { left, right } => {
                let (left, right) = (self.root(left), self.root(right));
                self.plain(Cell::And { left, right })
            }
            NormalNode::Either { left, right } => {
                let (left, right) = (self.root(left), self.root(right));
                self.plain(Cell::Or { left, right })
            }
            NormalNode::Next { interval, inner } => self.next(Duality::Primal, interval, inner),
            NormalNode::DualNext { interval, inner } => self.next(Duality::Dual, interval, inner),
            NormalNode::Until {
                interval,
                left,
                right,
            } => self.until(Duality::Primal, interval, left, right),
            NormalNode::Release {
                interval,
                left,
                right,
            } => self.until(Duality::Dual, interval, left, right),
        }
    }

    // The tables, with the root of location 0 as the last cell.
    pub(crate) fn finish(mut self, root: Cell) -> Tables
        requires { length self.cells < 577 }
        ensures cells { cells_of result.cells ≡ self.cells ++ cell_of root ∷ [] }
        ensures locations { entries_of result.locations ≡ self.entries }
    {
        let _ = self.cells.push(root);
        let Builder {
            cells,
            locations,
            ..
        } = self;
        Tables { cells, locations }
    }
}
