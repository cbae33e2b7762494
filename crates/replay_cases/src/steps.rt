use crate::replays::{event, graded, rules};
use recorded::OpenLog;
use running::{WorkingTable, run as run_rule};
use scales::{Level, Scale};

// A recording as a server makes it: opened, offered events, looked ahead from, closed and run.
pub(crate) fn run(rt: &HostRuntime) -> anyhow::Result<()> {
    let rules = rules()?;
    let mut grades = [Level::highest(); 100];
    let mut table = WorkingTable {
        grades: &mut grades,
    };
    let mut places = [event(9, 9, 9); 5];
    let mut log = OpenLog::open(&mut places);
    let first = log.offer(event(1000, 200, 10)).is_ok();
    let earlier = log.offer(event(999, 1, 1)).is_ok();
    let second = log.offer(event(1010, 20, 200)).is_ok();
    let looked = log.outlook(&rules[0], 1, &mut table).is_ok();
    println!(rt; "step by step: {first} {earlier} {second}, looked ahead {looked}")?;
    let ran = run_rule(&rules[0], &log.close(), &mut table);
    graded(rt, ran, table.grades)
}
