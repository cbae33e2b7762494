use reporting::{Room, report};
use scales::Doubt;
use std::io::Write;

// What stands in a lent output before a call.
const FILLER: u8 = b'#';

// Whether the first grades are lowest, and all others as they were lent.
fn lowered(grades: &[Doubt], first: usize) -> bool {
    let mut front = grades.iter().take(first);
    let mut behind = grades.iter().skip(first);
    front.all(|grade| *grade == Doubt::No) && behind.all(|grade| *grade == Doubt::Unknown)
}

fn filled(out: &[u8], from: usize) -> bool {
    out.iter().skip(from).all(|byte| *byte == FILLER)
}

// The last line of a report, all lines of which end in a newline.
fn last_line(bytes: &[u8]) -> &[u8] {
    bytes
        .split_inclusive(|byte| *byte == b'\n')
        .last()
        .unwrap_or(bytes)
}

// Prints a report that is short, and of a long one its length and last line.
fn show(rt: &HostRuntime, bytes: &[u8]) -> anyhow::Result<()> {
    let length = bytes.len();
    println!(rt; "  {length} bytes")?;
    if length > 100 {
        rt.stdout().write_all(last_line(bytes))?;
    } else {
        rt.stdout().write_all(bytes)?;
    }
    Ok(())
}

// One call; `used` is how many grades its run takes.
pub(crate) fn case(
    rt: &HostRuntime,
    name: &str,
    text: &[u8],
    file: &[u8],
    used: usize,
    lent: Room,
) -> anyhow::Result<()> {
    let mut grades = vec![in rt.alloc(); Doubt::Unknown; lent.grades]?;
    let mut out = vec![in rt.alloc(); FILLER; lent.bytes]?;
    println!(rt; "{name}")?;
    match report(text, file, grades.as_mut_slice(), out.as_mut_slice()) {
        Ok(length) => {
            let behind = filled(out.as_slice(), length);
            let memory = lowered(grades.as_slice(), used);
            out.truncate(length);
            show(rt, out.as_slice())?;
            println!(rt; "  behind kept {behind}, memory as promised {memory}")?;
        }
        Err(refusal) => {
            let number = refusal.number();
            let kept = filled(out.as_slice(), 0) && lowered(grades.as_slice(), 0);
            println!(rt; "  refused {number}, {refusal}; all kept {kept}")?;
        }
    }
    Ok(())
}
