// The walk: the first danger above four numbers (document 01, "The walk and the chain shown").
ghost use Rattle.std.specs.Prelude.{◌≡◌, ◌≤◌, length};
ghost use Rattle.theory.specs.Danger.{Jobs};
ghost use Rattle.theory.specs.Guards.{Paper};
ghost use Rattle.theory.specs.Form1.{form1};
ghost use Rattle.theory.specs.Lowest.{level};
ghost use Rattle.theory.specs.Walk.{Walks};
ghost use Rattle.conflicts.specs.SetsOf.{SetsOf};
ghost use Rattle.walk.specs.Answers.{named, answered};

use crate::four::{Four, Indices, ZEROS};
use crate::sides::{end_of, firsts_of, lasts_of};
use crate::start::start_above;
use conflicts::sets::Sets;
use splits::guard::{at_ssi, watched};
use splits::split::{find_splits, paths_of};

// Split jobs, their operations, first jobs and last jobs in turn from where the numbers given point, left from inside with the danger found
// (document 01, "The shape of each place"). The loops are over numbers, since the answer is made of these. What depends on the split job alone,
// on its operation, and on the first job is worked out once for each. The numbers given are passed as soon as an inner loop has ended: loops
// that begin after that begin at 0.
pub fn first_above(sets: &Sets, levels: &[u8], given: Four) -> Option<Four>
    requires { (sets.now.table.now.jobs ≤ 32) × (sets.now.table.now.jobs ≤ length levels.now) }
    ensures { (js : Jobs form1)
        → SetsOf js sets.now
        → length js ≡ sets.now.table.now.jobs → Walks form1 (Paper form1) js (level levels.now) (named given) (answered result) }
{
    let jobs = sets.table.jobs;
    let ssi = at_ssi(jobs, levels);
    let mut start = start_above(given);
    'walk: {
        for t1 in start.t1..jobs {
            let level = levels[t1];
            let watch = watched(level, ssi);
            let ends = find_splits(sets, t1, level, watch);
            let paths = paths_of(&sets.clash, t1);
            for b1 in start.b1..16 {
                let may_end = ends.last[b1];
                let firsts = firsts_of(paths, ends.first[b1], may_end);
                for t2 in start.t2..end_of(firsts) {
                    let lasts = lasts_of(paths, watch, firsts, may_end, t2);
                    for tm in start.tm..end_of(lasts) {
                        if jobset::has(lasts, tm) {
                            break 'walk Some(Indices { t1, b1, t2, tm }.four());
                        }
                    }
                    start = ZEROS;
                }
                start = ZEROS;
            }
            start = ZEROS;
        }
        None
    }
}
