ghost use Rattle.std.specs.Prelude.{◌≡◌, ◌+◌, ◌-◌, ◌*◌, ◌^◌, ◌≤◌, min, true, length};
ghost use Rattle.semantics.specs.Forms.{forms};
ghost use Rattle.semantics.specs.Normals.{normal, normal_forms};
ghost use Rattle.semantics.specs.Cells.{table, entries};
ghost use Rattle.tables.specs.CellTables.{cells_of, entries_of};
ghost use Rattle.rules.specs.Rules.{form_of_rule, rule_cells, rule_locations};

use crate::rule::Rule;
use tables::{Cell, Location};

// What a run and a report ask of a rule.
impl Rule {
    pub fn forms(&self) -> usize
        ensures { result ≡ forms (form_of_rule self.now) }
    {
        self.source.len()
    }

    pub fn normal_forms(&self) -> usize
        ensures { result ≡ normal_forms (normal true (form_of_rule self.now)) }
    {
        self.normals.len()
    }

    pub fn location_count(&self) -> usize
        ensures is { result ≡ length (entries (normal true (form_of_rule self.now))) }
        ensures few { result ≤ 65 }
    {
        self.locations.len()
    }

    pub fn cell_count(&self) -> usize
        ensures is { result ≡ length (table (normal true (form_of_rule self.now))) }
        ensures few { result ≤ 577 }
    {
        self.cells.len()
    }

    pub fn cells(&self) -> &[Cell]
        ensures is { result.now ≡ rule_cells self.now }
        ensures translated { cells_of result.now ≡ table (normal true (form_of_rule self.now)) }
        ensures few { length result.now ≤ 577 }
    {
        self.cells.as_slice()
    }

    pub fn locations(&self) -> &[Location]
        ensures is { result.now ≡ rule_locations self.now }
        ensures translated { entries_of result.now ≡ entries (normal true (form_of_rule self.now)) }
        ensures few { length result.now ≤ 65 }
    {
        self.locations.as_slice()
    }

    // The grades of memory that a run over so many events needs; where that is no number of the machine, the largest.
    pub fn grades_needed(&self, events: usize) -> usize
        ensures { result ≡ min (length (entries (normal true (form_of_rule self.now))) * events + 2 * length (table (normal true (form_of_rule self.now)))) (2 ^ 64 - 1) }
    {
        let columns = 2 * self.cell_count();
        self.location_count()
            .saturating_mul(events)
            .saturating_add(columns)
    }
}
