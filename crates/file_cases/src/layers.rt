use crate::draft::Draft;
use crate::show::events;
use files::{FileLog, write_file};
use logs::{Log, Rebase, Session};

// A log written into `out`, and what came of it.
fn written<L: Log>(
    rt: &HostRuntime,
    name: &str,
    log: &L,
    out: &mut [u8],
    file: &[u8],
) -> anyhow::Result<()> {
    match write_file(log, out) {
        Ok(length) => {
            let same = length == file.len() && out.starts_with(file);
            println!(rt; "{name}: {length} bytes, same {same}")?;
        }
        Err(refusal) => {
            let number = refusal.number();
            let untouched = out.iter().all(|byte| *byte == 170);
            println!(rt; "{name}: refused {number}, untouched {untouched}")?;
        }
    }
    Ok(())
}

fn layers<L: Log>(rt: &HostRuntime, log: &L) -> anyhow::Result<()> {
    events(rt, "file", log)?;
    events(rt, "rebased", &Rebase::over(log))?;
    let kept = Session::over(log, 2);
    events(rt, "session of c", &kept)?;
    events(rt, "rebased session", &Rebase::over(&kept))?;
    events(
        rt,
        "session of a over session of c",
        &Session::over(&kept, 0),
    )?;
    events(
        rt,
        "session of c, rebased first",
        &Session::over(&Rebase::over(log), 2),
    )?;
    events(
        rt,
        "session of a fact that is not there",
        &Session::over(log, 16),
    )
}

pub(crate) fn run(rt: &HostRuntime) -> anyhow::Result<()> {
    let heap = rt.alloc();
    let mut draft = Draft::new(heap);
    draft.record(100, 2, &[0, 127, 2, 128], 0)?;
    draft.record(100, 0, &[], 0)?;
    draft.record(250, 3, &[0, 128, 1, 1, 2, 255], 0)?;
    draft.record(400, 1, &[2, 127], 0)?;
    let file = draft.file(heap, 0)?;
    let log = FileLog::open(file.as_slice())?;
    layers(rt, &log)?;
    let mut roomy = [170u8; 100];
    written(rt, "written back", &log, &mut roomy, file.as_slice())?;
    let behind = roomy[99];
    println!(rt; "last byte behind: {behind}")?;
    let mut exact = [170u8; 72];
    written(rt, "written to fit", &log, &mut exact, file.as_slice())?;
    let mut short = [170u8; 71];
    written(rt, "a byte too short", &log, &mut short, file.as_slice())
}
