use logs::Log;
use rules::Rule;
use running::{WorkingTable, is_settled, outlook, run};
use scales::Scale;

// Two grades more than a run needs, which stay as they were.
const MORE: usize = 2;

// By what is shown: a scale need not have an equality of its own.
fn is_lowest<S: Scale>(grade: S) -> bool {
    grade.shown() == S::lowest().shown()
}

// A run, row 0 of which is printed.
fn run_printed<S: Scale, L: Log>(
    rt: &HostRuntime,
    rule: &Rule,
    log: &L,
    table: &mut WorkingTable<'_, S>,
) -> anyhow::Result<()> {
    match run(rule, log, table) {
        Ok(count) => {
            print!(rt; "  grades")?;
            for grade in table.grades.iter().take(count) {
                let shown = grade.shown();
                print!(rt; " {shown}")?;
            }
            let rows = rule.location_count().saturating_mul(count);
            let behind = rule.cell_count().saturating_mul(2);
            let mut columns = table.grades.iter().skip(rows).take(behind);
            let cleared = columns.all(|grade| is_lowest(*grade));
            println!(rt; ", cleared {cleared}")?;
        }
        Err(refusal) => {
            let number = refusal.number();
            println!(rt; "  run refused {number}")?;
        }
    }
    Ok(())
}

fn outlook_printed<S: Scale, L: Log>(
    rt: &HostRuntime,
    rule: &Rule,
    log: &L,
    event: usize,
    table: &mut WorkingTable<'_, S>,
) -> anyhow::Result<()> {
    match outlook(rule, log, event, table) {
        Ok((floor, ceiling)) => {
            let low = floor.shown();
            let high = ceiling.shown();
            let settled = is_settled(floor, ceiling);
            println!(rt; "  outlook at {event}: {low} {high}, settled {settled}")?;
        }
        Err(refusal) => {
            let number = refusal.number();
            println!(rt; "  outlook at {event}: refused {number}")?;
        }
    }
    Ok(())
}

// Everything of one rule over one log on one scale.
pub(crate) fn graded<S: Scale + Clone, L: Log>(
    rt: &HostRuntime,
    name: &str,
    rule: &Rule,
    log: &L,
) -> anyhow::Result<()> {
    let count = log.count();
    let need = rule.grades_needed(count);
    let mut grades = vec![in rt.alloc(); S::highest(); need.saturating_add(MORE)]?;
    println!(rt; "{name}")?;
    let mut table = WorkingTable {
        grades: grades.as_mut_slice(),
    };
    run_printed(rt, rule, log, &mut table)?;
    for event in 0..=count {
        outlook_printed(rt, rule, log, event, &mut table)?;
    }
    let kept = table
        .grades
        .iter()
        .skip(need)
        .all(|grade| !is_lowest(*grade));
    let lowest = table
        .grades
        .iter()
        .take(need)
        .all(|grade| is_lowest(*grade));
    println!(rt; "  memory lowest {lowest}, behind kept {kept}")?;
    let mut short = vec![in rt.alloc(); S::highest(); need.saturating_sub(1)]?;
    let mut table = WorkingTable {
        grades: short.as_mut_slice(),
    };
    run_printed(rt, rule, log, &mut table)
}
