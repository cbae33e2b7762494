// Prints the report of the rule in `rule.txt` and the log file `watch.log`, both of the current folder: how many events, and
// for each its number, the milliseconds since the first one, and the shown number of the rule's grade there, on Doubt. Where
// the rule or the file is refused, by which number.
#![tactic(auto)]

use reporting::{enough, report};
use scales::Doubt;
use std::fs::File;
use std::io;
use std::io::{ErrorKind, Read, Write};

// One byte more than the longest file of a log has, and than the longest rule with a newline behind it:
// whatever is longer is refused by its front alone.
const ENOUGH_LOG: u64 = 23_049;

const ENOUGH_RULE: u64 = 1_026;

// The front of a file; a missing one counts as empty.
fn front(rt: &HostRuntime, path: &str, most: u64) -> io::Result<Vec<u8>> {
    let mut bytes = Vec::new(rt.alloc());
    match File::open(rt, path) {
        Ok(file) => {
            file.take(most).read_to_end(&mut bytes)?;
        }
        Err(e) => {
            if e.kind() != ErrorKind::NotFound {
                return Err(e);
            }
        }
    }
    Ok(bytes)
}

// The text less one newline at its end.
fn line(text: &[u8]) -> &[u8] {
    match text {
        [rest @ .., b'\n'] => rest,
        whole => whole,
    }
}

fn main(rt: HostRuntime) -> io::Result<()> {
    let text = front(&rt, "rule.txt", ENOUGH_RULE)?;
    let bytes = front(&rt, "watch.log", ENOUGH_LOG)?;
    let room = enough();
    let mut grades = vec![in rt.alloc(); Doubt::No; room.grades]?;
    let mut out = vec![in rt.alloc(); 0u8; room.bytes]?;
    match report(
        line(text.as_slice()),
        bytes.as_slice(),
        grades.as_mut_slice(),
        out.as_mut_slice(),
    ) {
        Ok(length) => {
            out.truncate(length);
            rt.stdout().write_all(out.as_slice())
        }
        // What is lent suffices for every report, so this does not happen.
        Err(refusal) => {
            let number = refusal.number();
            println!(rt; "refused {number}")
        }
    }
}
