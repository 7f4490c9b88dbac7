// The lowest levels, each job's found by itself with all others at SSI, so that no list of levels is judged.
ghost use Rattle.std.specs.Prelude.{◌≡◌, ◌↔◌, ℕ, ◌≤◌, ◌<◌, length};
ghost use Rattle.jobset.specs.Jobset.{bit};
ghost use Rattle.theory.specs.Danger.{Jobs};
ghost use Rattle.theory.specs.Form1.{form1};
ghost use Rattle.conflicts.specs.SetsOf.{SetsOf};
ghost use Rattle.verdict.specs.Needed.{Hit, NeededBy, Needed, LowestOf};
ghost use Rattle.verdict.specs.Verdict.{Lowers};

use crate::judge::is_split_at_rc;
use chain::Paths;
use conflicts::sets::Sets;
use splits::split::paths_of;

// The jobs each of which alone below SSI makes a danger for a split job at SSI: by condition 6 it is first or last itself,
// and by 7 and 8 the other end of the chain, if it is another job, may only be the one of the two.
fn hit_by(paths: Paths, first: u32, last: u32) -> u32
    ensures { (j : ℕ) → (bit result j ≡ 1) ↔ Hit paths.entry.clash.now paths.entry.shut first last j }
{
    if first == 0 || last == 0 {
        return 0;
    }
    let lasts = jobset::intersect(paths.spread(jobset::without(first, last)), last);
    let firsts = jobset::intersect(paths.spread(jobset::without(last, first)), first);
    jobset::union(jobset::intersect(first, last), jobset::union(lasts, firsts))
}

// The jobs that need SSI because job t1 can be split above RC: those, and t1 itself if there is one.
fn needed_by(sets: &Sets, t1: usize) -> u32
    requires { t1 < 32 }
    ensures { (js : Jobs form1) → SetsOf js sets.now → NeededBy form1 js t1 result }
{
    let closed = sets.ww[t1];
    let first = jobset::without(sets.rw[t1], closed);
    let last = jobset::without(sets.wr[t1], closed);
    let paths = paths_of(&sets.clash, t1);
    let hit = hit_by(paths, first, last);
    if hit == 0 {
        return 0;
    }
    jobset::with(hit, t1 as u32)
}

// The jobs that need SSI.
fn needed(sets: &Sets) -> u32
    requires { sets.now.table.now.jobs ≤ 32 }
    ensures { (js : Jobs form1) → SetsOf js sets.now → length js ≡ sets.now.table.now.jobs → Needed form1 js result }
{
    let mut all = 0;
    for t1 in 0..sets.table.jobs {
        all = jobset::union(all, needed_by(sets, t1));
    }
    all
}

// The lowest level of job j, a byte as the answer buffer wants it; `ssi` has the jobs that need SSI.
fn level_of(sets: &Sets, j: usize, ssi: u32) -> u8
    requires { j < 32 }
    ensures { (js : Jobs form1) → SetsOf js sets.now → Needed form1 js ssi → LowestOf form1 js j result }
{
    if jobset::has(ssi, j as u32) {
        return 2;
    }
    if is_split_at_rc(sets, j) { 1 } else { 0 }
}

// The lowest levels go to the first places of `answer`, and the number asked is the result.
#[inline(never)]
pub fn find_lowest(sets: &Sets, answer: &mut [u8]) -> u32
    requires { (sets.now.table.now.jobs ≤ 32) × (sets.now.table.now.jobs ≤ length answer.old) }
    ensures { (js : Jobs form1) → SetsOf js sets.now → length js ≡ sets.now.table.now.jobs → Lowers form1 js answer.old answer.new result }
{
    let jobs = sets.table.jobs;
    let ssi = needed(sets);
    let mut asked = jobs as u32;
    for (j, place) in answer[..jobs].iter_mut().enumerate() {
        let level = level_of(sets, j, ssi);
        *place = level;
        asked += u32::from(0 < level);
    }
    asked
}
