use crate::draft::Draft;
use crate::show::opened;

// Every way in which bytes fail to be a file, beside files that are.
pub(crate) fn run(rt: &HostRuntime) -> anyhow::Result<()> {
    let heap = rt.alloc();
    opened(rt, "no bytes", &[])?;
    opened(rt, "seven bytes", &[0; 7])?;
    opened(rt, "eight zeros", &[0; 8])?;

    let mut good = Draft::new(heap);
    good.record(1000, 1, &[0, 200], 0)?;
    opened(rt, "one event", good.file(heap, 0)?.as_slice())?;
    opened(rt, "count one more", good.file(heap, 1)?.as_slice())?;
    let mut longer = good.file(heap, 0)?;
    longer.push(0)?;
    opened(rt, "a byte behind", longer.as_slice())?;

    record(rt, "count of 17 pairs", 17, &[0; 34])?;
    record(rt, "facts out of order", 2, &[1, 9, 0, 9])?;
    record(rt, "a fact twice", 2, &[1, 9, 1, 9])?;
    record(rt, "a reading of 0", 1, &[0, 0])?;
    record(rt, "fact 16", 1, &[16, 9])?;
    record(rt, "fact 15", 1, &[15, 9])?;
    record(rt, "a pair too few", 2, &[0, 9])?;
    record(rt, "a pair too many", 1, &[0, 9, 1, 9])
}

fn record(rt: &HostRuntime, name: &str, count: u8, pairs: &[u8]) -> anyhow::Result<()> {
    let heap = rt.alloc();
    let mut draft = Draft::new(heap);
    draft.record(5, count, pairs, 0)?;
    opened(rt, name, draft.file(heap, 0)?.as_slice())
}

fn two_times(
    rt: &HostRuntime,
    name: &str,
    first: u64,
    second: u64,
    slip: u32,
) -> anyhow::Result<()> {
    let heap = rt.alloc();
    let mut draft = Draft::new(heap);
    draft.event(first, 0, 1)?;
    draft.record(second, 1, &[0, 1], slip)?;
    opened(rt, name, draft.file(heap, 0)?.as_slice())
}

fn many(rt: &HostRuntime, name: &str, count: u64) -> anyhow::Result<()> {
    let heap = rt.alloc();
    let mut draft = Draft::new(heap);
    for time in 0..count {
        draft.event(time, 3, 7)?;
    }
    opened(rt, name, draft.file(heap, 0)?.as_slice())
}

// The limits of times, offsets and counts.
pub(crate) fn run_limits(rt: &HostRuntime) -> anyhow::Result<()> {
    two_times(rt, "times alike", 7, 7, 0)?;
    two_times(rt, "a time that falls", 7, 6, 0)?;
    two_times(rt, "the latest time", 7, 4_000_000_000_000, 0)?;
    two_times(rt, "one above the latest time", 7, 4_000_000_000_001, 0)?;
    two_times(rt, "an offset one off", 7, 8, 1)?;
    many(rt, "512 events", 512)?;
    many(rt, "513 events", 513)
}
