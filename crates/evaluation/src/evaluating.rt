// A rule's automaton evaluated over a log, in memory that the caller lends.
ghost use Rattle.std.specs.Prelude.{◌≡◌, ◌≤◌, length, MatchResult};
ghost use Rattle.evaluation.specs.Evaluations.{needed, Evaluated};
ghost use Rattle.evaluation.specs.RuleEvaluations.{grades_for, memory_refusal, Refused, RuleEvaluated};

use crate::automaton::Automaton;
use crate::boundary::Boundary;
use crate::passes::backward;
use crate::rows::fill;
use logs::Log;
use refusals::Refusal;
use rules::Rule;
use scales::Scale;

fn evaluate_tables<S: Scale, L: Log>(
    log: &L,
    automaton: &Automaton<'_>,
    boundary: Boundary,
    grades: &mut [S],
    count: usize,
)
    requires counted { count ≡ length (L.events log.now) }
    requires fits { needed (L.events log.now) automaton.now.cells.now automaton.now.locations.now ≤ length grades.old }
    ensures { Evaluated S.ops (L.events log.now) automaton.now.cells.now automaton.now.locations.now boundary grades.old grades.new }
{
    let base = automaton.locations.len() * count;
    automaton.begin(boundary, grades, count);
    backward(log, automaton, grades, count);
    fill(grades, base, 2 * automaton.cells.len(), S::lowest());
}

// The value of every location at every event with its start there, over a boundary; answers how many events there are.
// Place r of location l's row is that of event r, and two columns of cells behind the rows end lowest.
pub fn evaluate<S: Scale, L: Log>(
    rule: &Rule,
    log: &L,
    boundary: Boundary,
    grades: &mut [S],
) -> Result<usize, Refusal>
    ensures { MatchResult result (λ n. RuleEvaluated S.ops rule.now (L.events log.now) boundary n grades.old grades.new) (λ e. Refused (memory_refusal (grades_for rule.now (L.events log.now)) (length grades.old)) e grades.old grades.new) }
{
    let automaton = Automaton::of(rule);
    let count = log.count();
    if grades.len() < automaton.locations.len() * count + 2 * automaton.cells.len() {
        return Err(Refusal::MemoryTooShort);
    }
    evaluate_tables(log, &automaton, boundary, grades, count);
    Ok(count)
}
