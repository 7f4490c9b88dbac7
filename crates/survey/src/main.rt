// Prints what document 01, "The program `survey`", asks of the sheet on standard input.
#![tactic(auto)]

mod input;
mod lines;

ghost use Rattle.std.specs.Prelude.{◌≤◌, length};
ghost use Rattle.conflicts.specs.SetsOf.{StandsIn};
ghost use Rattle.planner.specs.Stands.{SetsStand};
ghost use Rattle.survey.specs.Bytes.{Bytes};

use conflicts::sets::{Sets, find};
use input::read_full;
use lines::{put_count, put_head, put_levels};
use planner::steps::next_of;
use sheet::Table;
use std::io;
use text::Text;
use verdict::lowest::find_lowest;
use walk::four::Four;

// A danger and its chain. That its numbers are bytes tells whoever walks on that there is an end.
fn put_found(rt: &impl Print, danger: Four, chain: &[u8; 32], out: &mut Text<'_>) -> io::Result<()>
    ensures { Bytes danger }
{
    out.put_danger(&danger.into(), chain);
    out.put(b'\n');
    if out.is_due() {
        return out.flush(rt);
    }
    Ok(())
}

// All dangers in turn, and how many there are.
fn put_dangers(rt: &impl Print, sets: &Sets, out: &mut Text<'_>) -> io::Result<()>
    requires jobs_bound { sets.now.table.now.jobs ≤ 32 }
    requires sets_stand { SetsStand sets.now }
{
    let mut count = 0;
    let mut from = Four::from([0; 4]);
    // A `loop`, since each step of the walk begins where the one before it came to.
    loop {
        let step = next_of(sets, &sets.table.level, from);
        let Ok(Some(danger)) = step.walk else {
            put_count(count, out);
            return Ok(());
        };
        put_found(rt, danger, &step.chain, out)?;
        count += 1;
        from = danger;
    }
}

// What is printed of a table that was read. Its sets are worked out once, for the walk and for the lowest levels.
fn put_table(rt: &impl Print, table: &Table, out: &mut Text<'_>) -> io::Result<()>
    requires { (table.now.jobs ≤ 32) × (table.now.objects ≤ 4096) × StandsIn table.now }
{
    let sets = find(table);
    put_head(table.jobs, table.objects, out);
    put_dangers(rt, &sets, out)?;
    let mut lowest = [0; 32];
    let asked = find_lowest(&sets, &mut lowest);
    put_levels(&lowest[..table.jobs], asked, out);
    Ok(())
}

fn survey(rt: &impl Print, s: &[u8], out: &mut Text<'_>) -> io::Result<()> {
    let read = sheet::read_sheet(s);
    if let Err(r) = read.reading {
        out.put_refusal(r.reason.into(), r.place);
        out.put(b'\n');
        return Ok(());
    }
    put_table(rt, &read.table, out)
}

fn main(rt: HostRuntime) -> io::Result<()> {
    let mut bytes = [0; 32768];
    let mut out = Text {
        bytes: &mut bytes,
        used: 0,
    };
    // What stands behind so many bytes is not read.
    let mut sheet = [0; 4096];
    let length = read_full(&mut rt.stdin(), &mut sheet)?;
    survey(&rt, &sheet[..length], &mut out)?;
    out.flush(&rt)
}
