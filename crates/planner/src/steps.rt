// A step of the walk over the sets of a table already read, for whoever asks again and again.
ghost use Rattle.std.specs.Prelude.{◌≤◌, length};
ghost use Rattle.sheet.specs.Step.{ok};
ghost use Rattle.planner.specs.Questions.{Answers, Walks, walk_of};
ghost use Rattle.planner.specs.Stands.{SetsStand};

use crate::{WalkAnswer, nothing_shown};
use conflicts::sets::Sets;
use walk::above::first_above;
use walk::four::Four;
use walk::shown::show;

// The first danger above the four numbers with the chain shown, or the end.
#[inline(never)]
pub fn next_of(sets: &Sets, levels: &[u8], above: Four) -> WalkAnswer
    requires jobs_bound { (sets.now.table.now.jobs ≤ 32) × (sets.now.table.now.jobs ≤ length levels.now) }
    requires sets_stand { SetsStand sets.now }
    ensures { (k : SetsStand sets.now) → Answers (λ js. Walks levels.now above result js) (ok k.js) (walk_of result.walk) }
{
    let Some(four) = first_above(sets, levels, above) else {
        return nothing_shown(Ok(None));
    };
    let danger = four.indices();
    let level = levels[danger.t1];
    let mut chain = [0u8; 32];
    let mut pairs = [0u8; 64];
    let n = show(sets, level, danger, &mut chain, &mut pairs);
    WalkAnswer {
        walk: Ok(Some(four)),
        // No From goes from u32 to usize.
        length: n as usize,
        chain,
        pairs,
    }
}
