// Records a log from the calls in `calls.txt`, a line each, with a look ahead by the rule in `rule.txt` wherever a call asks
// for one, and prints each answer; then prints the rule's grade at every event. The scale is Doubt.
#![tactic(auto)]

mod calls;
mod telling;

use crate::calls::{places, read_script};
use crate::telling::{graded, lines, refused};
use logs::{Event, MOST_EVENTS};
use recorded::{Outcome, replay};
use rules::Rule;
use running::WorkingTable;
use scales::Doubt;
use std::{fs, slice};

// The whole recording is one call, whose contract holds every answer and every grade.
fn record(rt: &HostRuntime, rule: &Rule, text: &str) -> anyhow::Result<()> {
    let blank = Event {
        time: 0,
        readings: [0; 16],
    };
    let script = read_script(rt.alloc(), text)?;
    let mut events = vec![in rt.alloc(); blank; places(text)]?;
    let mut answers = vec![in rt.alloc(); Ok(Outcome::Accepted); script.calls.len()]?;
    // as much as the longest log takes
    let mut grades = vec![in rt.alloc(); Doubt::No; rule.grades_needed(MOST_EVENTS)]?;
    let mut table = WorkingTable {
        grades: grades.as_mut_slice(),
    };
    let ran = replay(
        rule,
        slice::from_ref(rule),
        events.as_mut_slice(),
        script.calls.as_slice(),
        answers.as_mut_slice(),
        &mut table,
    );
    lines(rt, text, &script, answers.as_slice())?;
    match ran {
        Ok(count) => graded(rt, events.as_slice(), table.grades, count),
        Err(refusal) => refused(rt, refusal),
    }
}

fn main(rt: HostRuntime) -> anyhow::Result<()> {
    let rule = fs::read_to_string(&rt, "rule.txt")?;
    let calls = fs::read_to_string(&rt, "calls.txt")?;
    match Rule::load(rule.as_str().trim_end().as_bytes()) {
        Ok(rule) => record(&rt, &rule, calls.as_str()),
        Err(refusal) => {
            print!(rt; "rule ")?;
            refused(&rt, refusal)
        }
    }
}
