use logs::Event;
use recorded::{Answer, Call, Declined, Outcome, replay};
use refusals::Refusal;
use rules::Rule;
use running::WorkingTable;
use scales::Scale;

// An event of which only facts a and b are read. `run_cases` has one too: a crate for six lines of a test is no plainer.
pub(crate) fn event(time: u64, a: u8, b: u8) -> Event {
    let mut readings = [0u8; 16];
    readings[0] = a;
    readings[1] = b;
    Event { time, readings }
}

fn offer(time: u64, a: u8, b: u8) -> Call {
    Call::Offer {
        event: event(time, a, b),
    }
}

fn outlook(rule: usize, event: usize, memory: usize) -> Call {
    Call::Outlook {
        rule,
        event,
        memory,
    }
}

const RULE: &[u8] = b"(aU[0,50](bR[0,20]a))";

// Both are what the calls name, and the log is graded by the first.
pub(crate) fn rules() -> Result<[Rule; 2], Refusal> {
    Ok([Rule::load(RULE)?, Rule::load(b"F[0,30]b")?])
}

fn calls() -> [Call; 14] {
    [
        outlook(0, 1, usize::MAX),
        offer(1000, 200, 10),
        outlook(0, 1, usize::MAX),
        outlook(1, 1, 26),
        outlook(1, 1, 25),
        outlook(2, 1, usize::MAX),
        offer(1010, 20, 200),
        offer(1009, 1, 1),
        offer(4_000_000_000_001, 1, 1),
        outlook(1, 1, usize::MAX),
        offer(1030, 150, 130),
        offer(1090, 130, 0),
        outlook(0, 1, usize::MAX),
        offer(1100, 1, 1),
    ]
}

fn answered<S: Scale>(rt: &HostRuntime, answer: Answer<S>) -> anyhow::Result<()> {
    match answer {
        Ok(Outcome::Accepted) => println!(rt; "  accepted")?,
        Ok(Outcome::Seen { floor, ceiling }) => {
            let low = floor.shown();
            let high = ceiling.shown();
            println!(rt; "  seen {low} {high}")?;
        }
        Err(Declined::TurnedDown(reason)) => {
            let number = reason.number();
            println!(rt; "  refused {number}")?;
        }
        Err(Declined::RuleAbsent) => println!(rt; "  no such rule")?,
    }
    Ok(())
}

// The front of a row of grades, or why there is none.
pub(crate) fn graded<S: Scale>(
    rt: &HostRuntime,
    ran: Result<usize, Refusal>,
    grades: &[S],
) -> anyhow::Result<()> {
    match ran {
        Ok(count) => {
            print!(rt; "  grades")?;
            for grade in grades.iter().take(count) {
                let shown = grade.shown();
                print!(rt; " {shown}")?;
            }
            println!(rt; "")?;
        }
        Err(refusal) => {
            let number = refusal.number();
            println!(rt; "  run refused {number}")?;
        }
    }
    Ok(())
}

fn held(rt: &HostRuntime, places: &[Event]) -> anyhow::Result<()> {
    print!(rt; "  places")?;
    for place in places {
        let time = place.time;
        print!(rt; " {time}")?;
    }
    println!(rt; "")?;
    Ok(())
}

// The calls on a log of so many places, in a table of so many grades.
fn played<S: Scale + Clone>(
    rt: &HostRuntime,
    rules: &[Rule],
    calls: &[Call],
    places: usize,
    length: usize,
) -> anyhow::Result<()> {
    let [rule, ..] = rules else {
        return Ok(());
    };
    let mut places = vec![in rt.alloc(); event(9, 9, 9); places]?;
    let mut answers = vec![in rt.alloc(); Ok(Outcome::Accepted); calls.len()]?;
    let mut grades = vec![in rt.alloc(); S::highest(); length]?;
    let mut table = WorkingTable {
        grades: grades.as_mut_slice(),
    };
    let ran = replay(
        rule,
        rules,
        places.as_mut_slice(),
        calls,
        answers.as_mut_slice(),
        &mut table,
    );
    for answer in answers.iter() {
        answered(rt, *answer)?;
    }
    graded(rt, ran, table.grades)?;
    held(rt, places.as_slice())
}

pub(crate) fn run<S: Scale + Clone>(
    rt: &HostRuntime,
    name: &str,
    places: usize,
    length: usize,
) -> anyhow::Result<()> {
    println!(rt; "{name}")?;
    played::<S>(rt, &rules()?, &calls(), places, length)
}
