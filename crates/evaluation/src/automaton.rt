// The automaton of a rule, as tables.
ghost use Rattle.std.specs.Prelude.{◌≡◌, ◌≤◌, length};
ghost use Rattle.rules.specs.Rules.{rule_cells, rule_locations};

use rules::Rule;
use tables::{Cell, Location};

// The tables, which the rule is asked for once. That they can be run follows from whose they are.
#[derive(Clone, Copy)]
pub(crate) struct Automaton<'a> {
    rule: &'a Rule,
    pub(crate) cells: &'a [Cell],
    pub(crate) locations: &'a [Location],
    ghost celled: { cells.now ≡ rule_cells rule.now },
    ghost located: { locations.now ≡ rule_locations rule.now },
    ghost few_cells: { length cells.now ≤ 577 },
    ghost few_locations: { length locations.now ≤ 65 },
}

impl<'a> Automaton<'a> {
    pub(crate) fn of(rule: &'a Rule) -> Automaton<'a>
        ensures { result.rule.now ≡ rule.now }
    {
        Automaton {
            rule,
            cells: rule.cells(),
            locations: rule.locations(),
        }
    }
}
