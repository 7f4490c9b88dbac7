// The questions that outsiders ask (document 01, "What the planner takes and gives"). None has a `requires`: it refuses.
#![tactic(auto)]

pub mod levels;
pub mod rows;
pub mod steps;
mod tables;

ghost use Rattle.std.specs.Prelude.{◌≡◌, List, ℕ, length};
ghost use Rattle.sheet.specs.Answer.{Answered};
ghost use Rattle.planner.specs.Checks.{checked_with, with_levels, with_room};
ghost use Rattle.planner.specs.Questions.{Judged, Walked, NoChain, LowestHanded, LevelsCopied};

use levels::{check_levels, check_room};
use sheet::{ReadAnswer, Refusal};
use walk::four::Four;

// Whether a sheet is robust against a list of levels; named, since `true` would not say which of the two it is.
#[derive(Clone, Copy)]
pub enum Verdict {
    Robust,
    Dangerous,
}

// A step of the walk: a danger found, the end, or the refusal. The chain shown with a danger stands beside it, in arrays (document 01, "The
// shape of each place"): the number of its jobs, the jobs T2 .. Tm, and the pairs, the earlier job's operation first; zeros behind them, and
// nothing but zeros where no danger is found.
#[derive(Clone, Copy)]
pub struct WalkAnswer {
    pub walk: Result<Option<Four>, Refusal>,
    pub length: usize,
    pub chain: [u8; 32],
    pub pairs: [u8; 64],
}

// The sheet's own faults, and then those of a list of levels that comes with it.
fn check_with_levels(read: &ReadAnswer, levels: &[u8]) -> Result<(), Refusal>
    ensures { (s : List ℕ) → Answered s read.now → checked_with read.now.table result ≡ with_levels s levels.now }
{
    read.reading?;
    check_levels(read.table.jobs, levels)
}

// The sheet's own faults, and then that of an answer buffer of this length.
fn check_with_room(read: &ReadAnswer, room: usize) -> Result<(), Refusal>
    ensures { (s : List ℕ) → Answered s read.now → checked_with read.now.table result ≡ with_room s room }
{
    read.reading?;
    check_room(read.table.jobs, room)
}

// Is the sheet robust against the levels?
pub fn judge(sheet: &[u8], levels: &[u8]) -> Result<Verdict, Refusal>
    ensures { Judged sheet.now levels.now result }
{
    let read = sheet::read_sheet(sheet);
    check_with_levels(&read, levels)?;
    if tables::is_robust(&read.table, levels) {
        Ok(Verdict::Robust)
    } else {
        Ok(Verdict::Dangerous)
    }
}

// No danger is shown.
fn nothing_shown(walk: Result<Option<Four>, Refusal>) -> WalkAnswer
    ensures { (result.walk ≡ walk) × NoChain result }
{
    WalkAnswer {
        walk,
        length: 0,
        chain: [0; 32],
        pairs: [0; 64],
    }
}

// Which is the first danger above the four numbers, and its chain?
pub fn next_danger(sheet: &[u8], levels: &[u8], above: Four) -> WalkAnswer
    ensures { Walked sheet.now levels.now above result }
{
    let read = sheet::read_sheet(sheet);
    match check_with_levels(&read, levels) {
        Ok(()) => tables::first_above(&read.table, levels, above),
        Err(r) => nothing_shown(Err(r)),
    }
}

// Which are the lowest levels, and how many verdicts does the rule ask for?
pub fn lowest(sheet: &[u8], answer: &mut [u8]) -> Result<u32, Refusal>
    ensures { LowestHanded sheet.now answer.old answer.new result }
{
    let read = sheet::read_sheet(sheet);
    check_with_room(&read, answer.len())?;
    Ok(tables::find_lowest(&read.table, answer))
}

// Which levels does the sheet itself name, and for how many jobs?
pub fn own_levels(sheet: &[u8], answer: &mut [u8]) -> Result<u32, Refusal>
    ensures { LevelsCopied sheet.now answer.old answer.new result }
{
    let read = sheet::read_sheet(sheet);
    check_with_room(&read, answer.len())?;
    tables::copy_levels(&read.table, answer);
    // No From narrows, and at most 32 jobs are read.
    Ok(read.table.jobs as u32)
}
