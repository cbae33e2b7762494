// Whole recordings on every scale, some of whose calls are turned down: each case prints the answer of every call, the
// grades of the accepted events, and the times that the places hold at last. Then one recording step by step.
#![tactic(auto)]

mod replays;
mod steps;

use scales::{Doubt, Level, Plain};

fn main(rt: HostRuntime) -> anyhow::Result<()> {
    replays::run::<Plain>(&rt, "plain", 6, 100)?;
    replays::run::<Doubt>(&rt, "doubt", 6, 100)?;
    replays::run::<Level>(&rt, "level", 6, 100)?;
    replays::run::<Doubt>(&rt, "doubt, in four places and 30 grades", 4, 30)?;
    steps::run(&rt)
}
