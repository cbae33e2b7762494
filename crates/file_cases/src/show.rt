use files::FileLog;
use logs::Log;

// What opening the bytes gives.
pub(crate) fn opened(rt: &HostRuntime, name: &str, bytes: &[u8]) -> anyhow::Result<()> {
    match FileLog::open(bytes) {
        Ok(log) => {
            let count = log.count();
            println!(rt; "{name}: {count} events")?;
        }
        Err(refusal) => {
            let number = refusal.number();
            println!(rt; "{name}: refused {number}, {refusal}")?;
        }
    }
    Ok(())
}

// The events of a log: number, time, and the readings of facts a to d.
pub(crate) fn events<L: Log>(rt: &HostRuntime, name: &str, log: &L) -> anyhow::Result<()> {
    let count = log.count();
    println!(rt; "{name}: {count} events")?;
    for event in 1..=count {
        let time = log.time(event);
        let a = log.reading(event, 0);
        let b = log.reading(event, 1);
        let c = log.reading(event, 2);
        let d = log.reading(event, 3);
        println!(rt; "  {event} at {time}: a {a} b {b} c {c} d {d}")?;
    }
    let before = log.time(0);
    let behind = log.time(count.saturating_add(1));
    let nothing = log.reading(1, 16);
    println!(rt; "  absent: {before} {behind} {nothing}")?;
    Ok(())
}
