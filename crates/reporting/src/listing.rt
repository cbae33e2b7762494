// The bytes of a report: the listing of a log whose grades are known, or the line of a refusal.
ghost use Rattle.std.specs.Prelude.{◌≡◌, ◌+◌, ◌*◌, ◌≤◌, ◌++◌, length};
ghost use Rattle.reporting.specs.Listing.{lines, listed_by, row, refused_line};

use crate::lines::{NEWLINE, Page, write_field, write_line};
use bounded::Bounded;
use logs::Log;
use scales::{Doubt, Scale};

// A line for each event, by the grades of the first row.
fn write_lines<L: Log>(page: &mut Page, log: &L, grades: &[Doubt])
    requires graded { length (L.events log.now) ≤ length grades.now }
    requires room { length page.old + 22 * length (L.events log.now) ≤ 11275 }
    ensures { page.new ≡ page.old ++ lines (L.events log.now) (row grades.now) (length (L.events log.now)) }
{
    let row = &grades[..log.count()];
    for (before, grade) in row.iter().enumerate() {
        let event = before + 1;
        write_line(page, event, log.time(event), grade.shown());
    }
}

pub(crate) fn listing<L: Log>(log: &L, grades: &[Doubt]) -> Page
    requires { length (L.events log.now) ≤ length grades.now }
    ensures { result ≡ listed_by (L.events log.now) (row grades.now) }
{
    let mut page = Bounded::new(0);
    let _ = page.extend_from_slice(b"events ");
    write_field(&mut page, log.count() as u64, NEWLINE);
    write_lines(&mut page, log, grades);
    page
}

#[tactic(auto, using(crate::proofs::Lengths::field_short, std::proofs::lemmas::Grind::common_steps), unfolding(crate::specs::Listing::refused_line))]
pub(crate) fn refusal_line(number: u8) -> Page
    ensures { result ≡ refused_line number }
{
    let mut page = Bounded::new(0);
    let _ = page.extend_from_slice(b"refused ");
    write_field(&mut page, number as u64, NEWLINE);
    page
}
