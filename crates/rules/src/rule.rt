ghost use Rattle.std.specs.Prelude.{◌≡◌, ◌≤◌, true, length};
ghost use Rattle.semantics.specs.Forms.{forms};
ghost use Rattle.semantics.specs.Normals.{normal};
ghost use Rattle.semantics.specs.Cells.{table, entries};
ghost use Rattle.tables.specs.CellTables.{cells_of, entries_of};
ghost use Rattle.normalizing.specs.NormalWritten.{normal_written};
ghost use Rattle.rules.specs.Judging.{form_in, refusal_of};

use bounded::Bounded;
use tables::{Cell, Location, Node, NormalNode};

pub mod loading;
pub mod meaning;
pub mod reading;

// A rule within the limits, ready to run. Only `load` makes one, so its tables are those of one form:
// its forms, its normal form, and the cells and locations of the automaton that this is translated into.
#[derive(Drop)]
pub struct Rule {
    source: Bounded<Node, 64>,
    normals: Bounded<NormalNode, 64>,
    cells: Bounded<Cell, 577>,
    locations: Bounded<Location, 65>,
    ghost counted: { length source ≡ forms (form_in source) },
    ghost lawful: { refusal_of (form_in source) ≡ 0 },
    ghost normalized: { normals ≡ normal_written 0 (normal true (form_in source)) },
    ghost few: { length normals ≤ 64 },
    ghost celled: { cells_of cells ≡ table (normal true (form_in source)) },
    ghost located: { entries_of locations ≡ entries (normal true (form_in source)) },
}
