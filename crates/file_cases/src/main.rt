// Files good and damaged, layers, and writing back: each case prints what came of it.

#![tactic(auto)]

mod damaged;
mod draft;
mod layers;
mod show;

fn main(rt: HostRuntime) -> anyhow::Result<()> {
    damaged::run(&rt)?;
    damaged::run_limits(&rt)?;
    layers::run(&rt)
}
