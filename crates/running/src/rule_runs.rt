// A rule run over a log, and its outlook at an event.
ghost use Rattle.std.specs.Prelude.{◌≡◌, ℕ, ◌<◌, ◌≤◌, true, List, length, Decides, MatchResult};
ghost use Rattle.logs.specs.declared.event.Event.{Event};
ghost use Rattle.semantics.specs.Words.{word};
ghost use Rattle.semantics.specs.Forms.{Form, grade};
ghost use Rattle.semantics.specs.Continuations.{LawfulContinuation};
ghost use Rattle.evaluation.specs.Columns.{held};
ghost use Rattle.evaluation.specs.RuleEvaluations.{grades_for, Refused, RuleEvaluated};
ghost use Rattle.running.specs.Runs.{run_refusal, outlook_refusal};
ghost use Rattle.running.specs.RuleRuns.{RuleRan, RuleSeen};
ghost use Rattle.running.specs.Tabulations.{RuleForeseen};

use crate::working_table::WorkingTable;
use evaluation::{Boundary, clear_front, evaluate};
use logs::Log;
use refusals::Refusal;
use rules::Rule;
use scales::Scale;

// Grades every event of a log; answers how many there are.
pub fn run<S: Scale, L: Log>(
    rule: &Rule,
    log: &L,
    table: &mut WorkingTable<'_, S>,
) -> Result<usize, Refusal>
    ensures lent { table.new.grades.ghost_name ≡ table.old.grades.ghost_name }
    ensures answer { MatchResult result (λ n. RuleRan S.ops rule.now (L.events log.now) n table.old.grades.now table.new.grades.now) (λ e. Refused (run_refusal (grades_for rule.now (L.events log.now)) (length table.old.grades.now)) e table.old.grades.now table.new.grades.now) }
{
    evaluate(rule, log, Boundary::Run, table.grades)
}

// Location 0's value at an event with its start there, over a boundary. There is memory enough, so that nothing is turned down.
fn foresee<S: Scale, L: Log>(
    rule: &Rule,
    log: &L,
    boundary: Boundary,
    event: usize,
    grades: &mut [S],
) -> S
    requires fits { grades_for rule.now (L.events log.now) ≤ length grades.old }
    requires begun { 0 < event }
    requires logged { event ≤ length (L.events log.now) }
    ensures answer { result ≡ held S.ops (length (L.events log.now)) grades.new 0 event }
    ensures evaluated { RuleEvaluated S.ops rule.now (L.events log.now) boundary (length (L.events log.now)) grades.old grades.new }
{
    let _ = evaluate(rule, log, boundary, grades);
    grades[event - 1]
}

// The floor and the ceiling of the rule at an event: whatever comes next, its grade there lies between the two.
pub fn outlook<S: Scale, L: Log>(
    rule: &Rule,
    log: &L,
    event: usize,
    table: &mut WorkingTable<'_, S>,
) -> Result<(S, S), Refusal>
    ensures lent { table.new.grades.ghost_name ≡ table.old.grades.ghost_name }
    ensures answer { MatchResult result (λ pair. RuleSeen S.ops rule.now (L.events log.now) event pair table.old.grades.now table.new.grades.now) (λ e. Refused (outlook_refusal (grades_for rule.now (L.events log.now)) (length table.old.grades.now) (length (L.events log.now)) event) e table.old.grades.now table.new.grades.now) }
{
    let count = log.count();
    let need = rule.grades_needed(count);
    if table.grades.len() < need {
        return Err(Refusal::MemoryTooShort);
    }
    if event == 0 || event > count {
        return Err(Refusal::EventAbsent);
    }
    let floor = foresee(rule, log, Boundary::Lowest, event, table.grades);
    let ceiling = foresee(rule, log, Boundary::Highest, event, table.grades);
    clear_front(table.grades, need);
    Ok((floor, ceiling))
}

// Whether an outlook's floor and ceiling are one grade, by what is shown: a scale need not have an equality. Then the verdict is
// final: whatever comes next, that is the grade.
pub fn is_settled<S: Scale>(floor: S, ceiling: S) -> bool
    ensures same { Decides result (floor ≡ ceiling) }
    ensures settled { (es whole : List Event) (f : Form) (event : ℕ) → RuleForeseen S.ops es f event (floor, ceiling) → result ≡ true → LawfulContinuation es whole → grade S.ops (word S.ops whole) f event ≡ floor }
{
    floor.shown() == ceiling.shown()
}
