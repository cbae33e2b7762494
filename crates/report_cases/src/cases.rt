use crate::file::{Reply, file};
use crate::lent::case;
use reporting::{Room, enough};

// The rule of the sample: three locations and 24 cells, so that a run over n events takes 3 × n + 48 grades.
const ANSWERED: &[u8] = b"G(a>F[0,30]b)";

const SAMPLE: [Reply; 3] = [
    Reply {
        time: 1000,
        fact: 0,
        reading: 200,
    },
    Reply {
        time: 1010,
        fact: 2,
        reading: 255,
    },
    Reply {
        time: 1030,
        fact: 1,
        reading: 100,
    },
];

// The longest log: the last time is the latest that a log may have, and fact a stays unanswered.
fn longest() -> [Reply; 512] {
    let mut replies = [Reply {
        time: 0,
        fact: 0,
        reading: 255,
    }; 512];
    for (place, reply) in replies.iter_mut().enumerate() {
        reply.time = (place as u64).saturating_mul(7_000_000_000);
    }
    replies[511].time = 4_000_000_000_000;
    replies
}

pub(crate) fn listings(rt: &HostRuntime) -> anyhow::Result<()> {
    let sample = file(rt.alloc(), &SAMPLE)?;
    let none = file(rt.alloc(), &[])?;
    let many = file(rt.alloc(), &longest())?;
    case(rt, "the sample", ANSWERED, sample.as_slice(), 57, enough())?;
    case(rt, "no events", ANSWERED, none.as_slice(), 48, enough())?;
    case(rt, "512 events", ANSWERED, many.as_slice(), 1584, enough())?;
    case(
        rt,
        "a fact at every event",
        b"a",
        many.as_slice(),
        516,
        enough(),
    )
}

// A text that is refused, beside a file that is none either: the rule's number comes first.
fn refused(rt: &HostRuntime, name: &str, text: &[u8]) -> anyhow::Result<()> {
    case(rt, name, text, b"none", 0, enough())
}

pub(crate) fn refused_rules(rt: &HostRuntime) -> anyhow::Result<()> {
    let mut opposites = [b'!'; 1024];
    opposites[1023] = b'a';
    refused(rt, "no text", b"")?;
    refused(rt, "not a form", b"q")?;
    refused(rt, "too many forms", &opposites)?;
    refused(rt, "too deep", &opposites[991..1024])?;
    refused(rt, "a number too large", b"F[0,1000000001]a")?;
    refused(rt, "an empty interval", b"F[5,4]a")?;
    let seventeen =
        b"(((((Fa&Fa)&(Fa&Fa))&((Fa&Fa)&(Fa&Fa)))&(((Fa&Fa)&(Fa&Fa))&((Fa&Fa)&(Fa&Fa))))&Fa)";
    refused(rt, "a normal form too large", seventeen)
}

pub(crate) fn refused_files(rt: &HostRuntime) -> anyhow::Result<()> {
    let mut short = file(rt.alloc(), &SAMPLE)?;
    let _ = short.pop();
    let falling = file(rt.alloc(), &[SAMPLE[1], SAMPLE[0]])?;
    case(rt, "an empty file", ANSWERED, b"", 0, enough())?;
    case(
        rt,
        "a file cut short",
        ANSWERED,
        short.as_slice(),
        0,
        enough(),
    )?;
    case(
        rt,
        "times that fall",
        ANSWERED,
        falling.as_slice(),
        0,
        enough(),
    )
}

fn lending(grades: usize, bytes: usize) -> Room {
    Room { grades, bytes }
}

// Grades and bytes that just suffice, and one fewer of either or both.
pub(crate) fn fits(rt: &HostRuntime) -> anyhow::Result<()> {
    let sample = file(rt.alloc(), &SAMPLE)?;
    let bytes = sample.as_slice();
    case(rt, "an exact fit", ANSWERED, bytes, 57, lending(57, 35))?;
    case(rt, "a byte too few", ANSWERED, bytes, 57, lending(57, 34))?;
    case(rt, "a grade too few", ANSWERED, bytes, 57, lending(56, 35))?;
    case(rt, "both too few", ANSWERED, bytes, 57, lending(56, 34))?;
    case(
        rt,
        "no file, an exact fit",
        ANSWERED,
        b"",
        0,
        lending(0, 10),
    )?;
    case(
        rt,
        "no file, a byte too few",
        ANSWERED,
        b"",
        0,
        lending(0, 9),
    )?;
    case(rt, "no rule, a byte too few", b"", bytes, 0, lending(0, 9))
}
