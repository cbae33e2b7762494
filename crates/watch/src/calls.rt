use logs::{Event, MOST_EVENTS};
use recorded::Call;
use std::alloc::{AllocError, Global};
use std::str::SplitWhitespace;

// A line of `calls.txt`.
#[derive(Drop)]
pub(crate) enum Line {
    // `places N`: how many events the log has room for, 512 where no line says so
    Places { count: usize },
    // `offer TIME a=READING b=READING ..`, facts that are not named reading 0;
    // `outlook EVENT GRADES`, with so many grades of memory, or `outlook EVENT`, with as much as is needed
    Call { call: Call },
}

// The number of a fact and its reading, as `c=200`.
fn reading(word: &str) -> Option<(usize, u8)> {
    let (fact, reading) = word.split_once('=')?;
    let [letter] = fact.as_bytes() else {
        return None;
    };
    let fact = letter.checked_sub(b'a')?;
    Some((usize::from(fact), reading.parse().ok()?))
}

// What an offer says behind its name.
fn event(mut words: SplitWhitespace<'_>) -> Option<Event> {
    let time = words.next()?.parse().ok()?;
    let mut readings = [0; 16];
    for word in words {
        let (fact, reading) = reading(word)?;
        *readings.get_mut(fact)? = reading;
    }
    Some(Event { time, readings })
}

fn number(word: Option<&str>) -> Option<usize> {
    word?.parse().ok()
}

// The call of a line, or what it says of places, if it is either.
pub(crate) fn parsed(line: &str) -> Option<Line> {
    let mut words = line.split_whitespace();
    let name = words.next()?;
    if name == "offer" {
        let event = event(words)?;
        return Some(Line::Call {
            call: Call::Offer { event },
        });
    }
    let first = number(words.next())?;
    let second = number(words.next());
    match (name, second) {
        ("places", None) => Some(Line::Places { count: first }),
        ("outlook", grades) => Some(Line::Call {
            call: Call::Outlook {
                rule: 0,
                event: first,
                memory: grades.unwrap_or(usize::MAX),
            },
        }),
        _ => None,
    }
}

// The calls of a text, in order, and of each of its lines whether it is one.
#[derive(Drop)]
pub(crate) struct Script {
    pub(crate) calls: Vec<Call>,
    pub(crate) is_call: Vec<bool>,
}

// Each line is read once here, and those that are no calls once more when they are told; `places` reads the first.
pub(crate) fn read_script(heap: Global, text: &str) -> Result<Script, AllocError> {
    let mut calls = Vec::new(heap);
    let mut is_call = Vec::new(heap);
    for line in text.lines() {
        if let Some(Line::Call { call }) = parsed(line) {
            calls.push(call)?;
            is_call.push(true)?;
        } else {
            is_call.push(false)?;
        }
    }
    Ok(Script { calls, is_call })
}

// As many places as the first line asks for, and no more than a log has events at most.
pub(crate) fn places(text: &str) -> usize {
    match text.lines().next().and_then(parsed) {
        Some(Line::Places { count }) => count.min(MOST_EVENTS),
        _ => MOST_EVENTS,
    }
}
