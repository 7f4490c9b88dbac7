// The questions for C and Rust, over numbers and byte slices alone (include/asmeluka.h). A refusal is its number times 65536 and its place.
#![tactic(auto)]

mod found;

ghost use Rattle.std.specs.Prelude.{◌≡◌};
ghost use Rattle.planner_c.specs.Replies.{code_of, handed_code_lem, ReadReply, JudgeReply, NextReply, LowestReply, LevelsReply};
ghost use Rattle.planner_c.specs.PlaceLaws.{Near, TurnedNear};

use planner::Verdict;
use sheet::Refusal;
use walk::four::Four;

// A refusal as one number.
fn code(r: Refusal) -> u32
    requires { Near r.place }
    ensures { result ≡ code_of r }
{
    let number = u32::from(r.reason);
    // No From narrows, and a place is below 65536.
    let place = r.place as u32;
    number * 65536 + place
}

// The number that comes with the levels in `answer`, or the refusal.
fn handed_code(handed: Result<u32, Refusal>) -> u32
    requires { TurnedNear handed }
    ensures { result ≡ handed_code_lem handed }
{
    match handed {
        Ok(n) => n,
        Err(r) => code(r),
    }
}

// Is the sheet read? 0, or the refusal.
#[unsafe(no_mangle)]
pub extern "C" fn planner_read(sheet: &[u8]) -> u32
    ensures { ReadReply sheet.now result }
{
    match sheet::read_sheet(sheet).reading {
        Ok(()) => 0,
        Err(r) => code(r),
    }
}

// Is the sheet robust against the levels? 1, 0, or the refusal.
#[unsafe(no_mangle)]
pub extern "C" fn planner_judge(sheet: &[u8], levels: &[u8]) -> u32
    ensures { JudgeReply sheet.now levels.now result }
{
    match planner::judge(sheet, levels) {
        Ok(Verdict::Robust) => 1,
        Ok(Verdict::Dangerous) => 0,
        Err(r) => code(r),
    }
}

// Which is the first danger above the four numbers? The number of jobs in its chain, 0 at the end, or the refusal. `found` gets the
// danger's four numbers, 32 places for the chain's jobs, 64 for its pairs and 28 zeros; it keeps every byte at the end and on a refusal.
#[unsafe(no_mangle)]
pub extern "C" fn planner_next(
    sheet: &[u8],
    levels: &[u8],
    t1: u8,
    b1: u8,
    t2: u8,
    tm: u8,
    found: &mut [u8; 128],
) -> u32
    ensures { NextReply sheet.now levels.now (record { t1 = t1; b1 = b1; t2 = t2; tm = tm }) found.old found.new result }
{
    let answer = planner::next_danger(sheet, levels, Four { t1, b1, t2, tm });
    match answer.walk {
        Ok(Some(danger)) => {
            found::show(danger, &answer.chain, &answer.pairs, found);
            // No From narrows, and a chain has at most 32 jobs.
            answer.length as u32
        }
        Ok(None) => 0,
        Err(r) => code(r),
    }
}

// Which are the lowest levels? The number asked, the levels being in the first bytes of `answer`; or the refusal.
#[unsafe(no_mangle)]
pub extern "C" fn planner_lowest(sheet: &[u8], answer: &mut [u8]) -> u32
    ensures { LowestReply sheet.now answer.old answer.new result }
{
    handed_code(planner::lowest(sheet, answer))
}

// Which levels does the sheet itself name? The number of jobs, the levels being in the first bytes of `answer`; or the refusal.
#[unsafe(no_mangle)]
pub extern "C" fn planner_levels(sheet: &[u8], answer: &mut [u8]) -> u32
    ensures { LevelsReply sheet.now answer.old answer.new result }
{
    handed_code(planner::own_levels(sheet, answer))
}
