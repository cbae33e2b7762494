// Reports delivered and turned down: each case prints the bytes, or the refusal, and whether all else was left as promised.

#![tactic(auto)]

mod cases;
mod file;
mod lent;

fn main(rt: HostRuntime) -> anyhow::Result<()> {
    cases::listings(&rt)?;
    cases::refused_rules(&rt)?;
    cases::refused_files(&rt)?;
    cases::fits(&rt)
}
