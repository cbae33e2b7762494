// A report written at the front of an output, with grades that stay as they were where it does not fit.
ghost use Rattle.std.specs.Prelude.{◌≡◌, ℕ, ◌<◌, ◌≤◌, ◌++◌, length, drop, replicate, MatchResult, slice_index_or};
ghost use Rattle.refusals.specs.declared.refusal.Refusal.TheVariants.{MemoryTooShort, OutputTooShort};
ghost use Rattle.scales.specs.declared.doubt.Doubt.TheVariants.{No};
ghost use Rattle.scales.specs.Doubts.{doubt};
ghost use Rattle.semantics.specs.Words.{word};
ghost use Rattle.semantics.specs.Forms as meaning;
ghost use Rattle.rules.specs.Rules.{form_of_rule};
ghost use Rattle.running.specs.Runs.{run_refusal, Refused};
ghost use Rattle.running.specs.RuleRuns.{RuleRan, grades_for};
ghost use Rattle.reporting.specs.Listing.{listed_by};
ghost use Rattle.reporting.specs.Reports.{memory_for};
ghost use Rattle.reporting.specs.Delivery.{Delivery};

use crate::lines::Page;
use crate::listing::listing;
use bounded::Bounded;
use evaluation::clear_front;
use logs::Log;
use refusals::Refusal;
use rules::Rule;
use running::{WorkingTable, run};
use scales::Doubt;

// The most grades that a report takes: a rule has at most 65 locations and 577 cells, a log 512 events.
pub(crate) const MOST_GRADES: usize = 34_434;

// The page at the front of the output; answers its length.
pub(crate) fn deliver(page: &Page, out: &mut [u8]) -> Result<usize, Refusal>
    ensures { MatchResult result (λ n. (length page.now ≤ length out.old) × (n ≡ length page.now) × (out.new ≡ page.now ++ drop n out.old)) (λ e. (e ≡ OutputTooShort) × (length out.old < length page.now) × (out.new ≡ out.old)) }
{
    let bytes = page.as_slice();
    let length = bytes.len();
    if out.len() < length {
        return Err(Refusal::OutputTooShort);
    }
    out[0..length].copy_from_slice(bytes);
    Ok(length)
}

// The run in memory that is lent as a slice; on its own, so that the table's loan ends with it.
fn run_in<L: Log>(rule: &Rule, log: &L, grades: &mut [Doubt]) -> Result<usize, Refusal>
    ensures { MatchResult result (λ n. RuleRan doubt rule.now (L.events log.now) n grades.old grades.new) (λ e. Refused (run_refusal (grades_for rule.now (L.events log.now)) (length grades.old)) e grades.old grades.new) }
{
    let mut table = WorkingTable { grades };
    run(rule, log, &mut table)
}

// The listing of a log that a rule grades in the memory that is lent.
fn graded_listing<L: Log>(rule: &Rule, log: &L, grades: &mut [Doubt]) -> Result<Page, Refusal>
    ensures { MatchResult result (λ page. (page ≡ listed_by (L.events log.now) (meaning.grade doubt (word doubt (L.events log.now)) (form_of_rule rule.now))) × (memory_for (form_of_rule rule.now) (length (L.events log.now)) ≤ length grades.old) × ((p : ℕ) → memory_for (form_of_rule rule.now) (length (L.events log.now)) ≤ p → slice_index_or grades.new p No ≡ slice_index_or grades.old p No)) (λ e. (e ≡ MemoryTooShort) × (length grades.old < memory_for (form_of_rule rule.now) (length (L.events log.now))) × (grades.new ≡ grades.old)) }
{
    run_in(rule, log, grades)?;
    Ok(listing(log, grades))
}

// A copy of grades, so that they can be put back.
fn copied(grades: &[Doubt]) -> Bounded<Doubt, MOST_GRADES>
    requires { length grades.now ≤ 34434 }
    ensures { result ≡ grades.now }
{
    let mut copy = Bounded::new(Doubt::No);
    let _ = copy.extend_from_slice(grades);
    copy
}

// Grades a log in the memory that is lent and delivers the listing. How long the listing is shows only when the log is
// graded, so where the output turns out too short the grades are put back.
pub(crate) fn deliver_graded<L: Log>(
    rule: &Rule,
    log: &L,
    grades: &mut [Doubt],
    out: &mut [u8],
) -> Result<usize, Refusal>
    ensures { Delivery (listed_by (L.events log.now) (meaning.grade doubt (word doubt (L.events log.now)) (form_of_rule rule.now))) (memory_for (form_of_rule rule.now) (length (L.events log.now))) grades.old grades.new out.old out.new result }
{
    let used = rule.grades_needed(log.count()).min(grades.len());
    let before = copied(&grades[0..used]);
    let page = graded_listing(rule, log, grades)?;
    match deliver(&page, out) {
        Ok(length) => {
            clear_front(grades, used);
            Ok(length)
        }
        Err(refusal) => {
            grades[0..used].copy_from_slice(before.as_slice());
            Err(refusal)
        }
    }
}
