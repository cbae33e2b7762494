// What calls were answered, and the grades at the end, in words.
use crate::calls::{Line, Script, parsed};
use logs::Event;
use recorded::{Answer, Call, Declined, Outcome};
use refusals::Refusal;
use scales::Doubt;

pub(crate) fn refused(rt: &HostRuntime, refusal: Refusal) -> anyhow::Result<()> {
    let number = refusal.number();
    println!(rt; "refused {number}: {refusal}")?;
    Ok(())
}

fn asked(rt: &HostRuntime, call: Call) -> anyhow::Result<()> {
    match call {
        Call::Offer { event } => {
            let time = event.time;
            print!(rt; "offer at {time}: ")?;
        }
        Call::Outlook { event, .. } => print!(rt; "outlook at {event}: ")?,
    }
    Ok(())
}

fn answered(rt: &HostRuntime, answer: Answer<Doubt>) -> anyhow::Result<()> {
    match answer {
        Ok(Outcome::Accepted) => println!(rt; "accepted")?,
        Ok(Outcome::Seen { floor, ceiling }) => println!(rt;
            "at least {floor}, at most {ceiling}"
        )?,
        Err(Declined::TurnedDown(refusal)) => refused(rt, refusal)?,
        Err(absent) => println!(rt; "{absent}")?,
    }
    Ok(())
}

fn other(rt: &HostRuntime, line: &str) -> anyhow::Result<()> {
    match parsed(line) {
        Some(Line::Places { count }) => println!(rt; "places {count}")?,
        _ => println!(rt; "no call: {line}")?,
    }
    Ok(())
}

// Every line of the calls, each call with its answer.
pub(crate) fn lines(
    rt: &HostRuntime,
    text: &str,
    script: &Script,
    answers: &[Answer<Doubt>],
) -> anyhow::Result<()> {
    let mut played = script.calls.iter().zip(answers.iter());
    for (line, is_call) in text.lines().zip(script.is_call.iter()) {
        if *is_call {
            if let Some((call, answer)) = played.next() {
                asked(rt, *call)?;
                answered(rt, *answer)?;
            }
        } else {
            other(rt, line)?;
        }
    }
    Ok(())
}

// The grade of every accepted event.
pub(crate) fn graded(
    rt: &HostRuntime,
    events: &[Event],
    grades: &[Doubt],
    count: usize,
) -> anyhow::Result<()> {
    println!(rt; "closed with {count} events")?;
    for (event, (place, grade)) in (1..=count).zip(events.iter().zip(grades.iter())) {
        let time = place.time;
        println!(rt; "{event} at {time}: {grade}")?;
    }
    Ok(())
}
