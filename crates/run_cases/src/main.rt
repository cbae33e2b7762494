// Rules run over files, layers and recorded logs on every scale: each case prints the grades by event, the outlook at each event, and
// whether the memory behind the rows was left as promised.

#![tactic(auto)]

mod file;
mod grading;
mod worked;

fn main(rt: HostRuntime) -> anyhow::Result<()> {
    worked::run(&rt)?;
    worked::run_intervals(&rt)?;
    worked::run_layers(&rt)?;
    worked::run_recorded(&rt)
}
