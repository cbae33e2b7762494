use crate::file::{Reply, file};
use crate::grading::graded;
use files::FileLog;
use logs::{Event, Log, Rebase, Session};
use recorded::{ClosedLog, OpenLog};
use rules::Rule;
use scales::{Doubt, Level, Plain, Scale};

// A rule over a file, on one scale.
fn case<S: Scale + Clone>(
    rt: &HostRuntime,
    name: &str,
    text: &[u8],
    replies: &[Reply],
) -> anyhow::Result<()> {
    let bytes = file(rt.alloc(), replies)?;
    let log = FileLog::open(bytes.as_slice())?;
    let rule = Rule::load(text)?;
    graded::<S, FileLog<'_>>(rt, name, &rule, &log)
}

const ANSWERED: &[u8] = b"G(a>F[0,30]b)";

fn three<S: Scale + Clone>(
    rt: &HostRuntime,
    name: &str,
    last: u64,
    a: u8,
    b: u8,
) -> anyhow::Result<()> {
    let replies = [
        Reply { time: 0, a, b: 0 },
        Reply {
            time: 10,
            a: 0,
            b: 0,
        },
        Reply {
            time: last,
            a: 0,
            b,
        },
    ];
    case::<S>(rt, name, ANSWERED, &replies)
}

pub(crate) fn run(rt: &HostRuntime) -> anyhow::Result<()> {
    three::<Plain>(rt, "answered in time, plain", 30, 255, 255)?;
    three::<Plain>(rt, "answered late, plain", 31, 255, 255)?;
    three::<Doubt>(rt, "answered in doubt, doubt", 30, 255, 100)?;
    three::<Level>(rt, "answered by degrees, level", 30, 200, 100)
}

pub(crate) fn run_intervals(rt: &HostRuntime) -> anyhow::Result<()> {
    let nothing = Reply {
        time: 0,
        a: 0,
        b: 0,
    };
    let with_a = Reply {
        time: 0,
        a: 255,
        b: 0,
    };
    case::<Plain>(
        rt,
        "F[0,0]b, two events at 0",
        b"F[0,0]b",
        &[
            nothing,
            Reply {
                time: 0,
                a: 0,
                b: 255,
            },
        ],
    )?;
    case::<Plain>(rt, "Xa, one event", b"Xa", &[with_a])?;
    case::<Plain>(rt, "Ya, one event", b"Ya", &[with_a])?;
    case::<Plain>(
        rt,
        "X[5,*]b, b at 4",
        b"X[5,*]b",
        &[
            nothing,
            Reply {
                time: 4,
                a: 0,
                b: 255,
            },
        ],
    )?;
    case::<Plain>(
        rt,
        "X[5,*]b, b at 5",
        b"X[5,*]b",
        &[
            nothing,
            Reply {
                time: 5,
                a: 0,
                b: 255,
            },
        ],
    )?;
    case::<Plain>(
        rt,
        "G[10,20]b, events at 0 and 25",
        b"G[10,20]b",
        &[
            nothing,
            Reply {
                time: 25,
                a: 0,
                b: 0,
            },
        ],
    )?;
    case::<Plain>(rt, "F[0,30]b, one event", b"F[0,30]b", &[nothing])?;
    case::<Plain>(
        rt,
        "F[0,30]b, another at 40",
        b"F[0,30]b",
        &[
            nothing,
            Reply {
                time: 40,
                a: 0,
                b: 0,
            },
        ],
    )?;
    case::<Plain>(rt, "!Xa, one event", b"!Xa", &[with_a])?;
    case::<Plain>(rt, "X!a, one event", b"X!a", &[with_a])?;
    case::<Level>(rt, "no events", b"(aUb)", &[])
}

fn layered<S: Scale + Clone, L: Log>(rt: &HostRuntime, name: &str, log: &L) -> anyhow::Result<()> {
    let rule = Rule::load(b"(aU[0,50](bR[0,20]a))")?;
    graded::<S, L>(rt, name, &rule, log)
}

pub(crate) fn run_layers(rt: &HostRuntime) -> anyhow::Result<()> {
    let replies = [
        Reply {
            time: 1000,
            a: 200,
            b: 10,
        },
        Reply {
            time: 1010,
            a: 20,
            b: 200,
        },
        Reply {
            time: 1030,
            a: 150,
            b: 130,
        },
        Reply {
            time: 1090,
            a: 130,
            b: 0,
        },
    ];
    let bytes = file(rt.alloc(), &replies)?;
    let log = FileLog::open(bytes.as_slice())?;
    layered::<Level, FileLog<'_>>(rt, "file, level", &log)?;
    let rebased = Rebase::over(log);
    layered::<Doubt, Rebase<FileLog<'_>>>(rt, "rebased, doubt", &rebased)?;
    let kept = Session::over(&rebased, 0);
    layered::<Level, Session>(rt, "session of a over rebased, level", &kept)?;
    layered::<Plain, Session>(rt, "session of a over rebased, plain", &kept)
}

fn event(time: u64, a: u8, b: u8) -> Event {
    let mut readings = [0u8; 16];
    readings[0] = a;
    readings[1] = b;
    Event { time, readings }
}

// A recorded log, some of whose offers are turned down.
pub(crate) fn run_recorded(rt: &HostRuntime) -> anyhow::Result<()> {
    let mut places = [event(9, 9, 9); 5];
    let mut log = OpenLog::open(&mut places);
    let offered = [
        event(1000, 200, 10),
        event(1010, 20, 200),
        event(1009, 1, 1),
        event(4_000_000_000_001, 1, 1),
        event(1030, 150, 130),
        event(1090, 130, 0),
    ];
    let accepted = offered
        .iter()
        .filter(|event| log.offer(**event).is_ok())
        .count();
    println!(rt; "recorded: {accepted} of 6 accepted")?;
    let closed = log.close();
    layered::<Plain, ClosedLog<'_>>(rt, "recorded, plain", &closed)?;
    layered::<Doubt, ClosedLog<'_>>(rt, "recorded, doubt", &closed)?;
    layered::<Level, ClosedLog<'_>>(rt, "recorded, level", &closed)
}
