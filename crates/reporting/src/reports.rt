// The report as one call, and what is known of every report.
ghost use Rattle.reporting.specs.Reports.{OneReport, Enough};
ghost use Rattle.reporting.specs.Delivery.{Reported};

use crate::delivery::{MOST_GRADES, deliver, deliver_graded};
use crate::lines::MOST_BYTES;
use crate::listing::refusal_line;
use files::FileLog;
use logs::Rebase;
use refusals::Refusal;
use rules::Rule;
use scales::Doubt;

// Writes the report of a rule's text and a log file's bytes at the front of `out`, and answers its length. The grades are
// memory for the run, and lowest after it. A refusal, of too few grades or else of too short an output, changes nothing.
pub fn report(
    text: &[u8],
    file: &[u8],
    grades: &mut [Doubt],
    out: &mut [u8],
) -> Result<usize, Refusal>
    ensures { Reported text.now file.now grades.old grades.new out.old out.new result }
{
    match Rule::load(text) {
        Ok(rule) => match FileLog::open(file) {
            Ok(log) => deliver_graded(&rule, &Rebase::over(log), grades, out),
            Err(refusal) => deliver(&refusal_line(refusal.number()), out),
        },
        Err(refusal) => deliver(&refusal_line(refusal.number()), out),
    }
}

// A text and a file have one report, and it takes one number of grades.
pub fn one_report()
    ensures { OneReport }
{}

// Memory and output that a caller lends.
#[derive(Clone, Copy)]
pub struct Room {
    pub grades: usize,
    pub bytes: usize,
}

// What suffices for every report.
pub fn enough() -> Room
    ensures { Enough result.grades result.bytes }
{
    Room {
        grades: MOST_GRADES,
        bytes: MOST_BYTES,
    }
}
