// The verdict on a list of levels.
ghost use Rattle.std.specs.Prelude.{◌≡◌, ℕ, ◌≤◌, ◌<◌, length};
ghost use Rattle.theory.specs.Danger.{Jobs};
ghost use Rattle.theory.specs.Form1.{form1};
ghost use Rattle.conflicts.specs.Sets.{Has};
ghost use Rattle.conflicts.specs.SetsOf.{SetsOf};
ghost use Rattle.splits.specs.Splits.{watch?};
ghost use Rattle.verdict.specs.Verdict.{SplitBy, Judged};

use conflicts::sets::Sets;
use splits::guard::{at_ssi, unnoticed, watched};
use splits::meet::meets;
use splits::split::{find_splits, paths_of};

// Job t1 is the split job of a danger at RC, whatever the levels of the others.
pub fn is_split_at_rc(sets: &Sets, t1: usize) -> bool
    requires { t1 < 32 }
    ensures { (js : Jobs form1) → SetsOf js sets.now → (lv : ℕ → ℕ) → lv t1 ≡ 0 → SplitBy form1 js lv t1 result }
{
    let ends = find_splits(sets, t1, 0, 0);
    let paths = paths_of(&sets.clash, t1);
    ends.first
        .iter()
        .zip(&ends.last)
        .any(|(first, last)| meets(paths, *first, *last))
}

// The same above RC, where no operation need be looked at; `watch` has the jobs that SSI watches together with t1.
fn is_split_above_rc(sets: &Sets, t1: usize, watch: u32) -> bool
    requires { t1 < 32 }
    ensures { (js : Jobs form1) → SetsOf js sets.now → (lv : ℕ → ℕ) → 1 ≤ lv t1 → Has watch (watch? lv t1) → SplitBy form1 js lv t1 result }
{
    let closed = sets.ww[t1];
    let out = sets.rw[t1];
    let back = sets.wr[t1];
    let first = unnoticed(jobset::without(out, closed), watch, back);
    let last = unnoticed(jobset::without(back, closed), watch, out);
    let paths = paths_of(&sets.clash, t1);
    meets(paths, jobset::without(first, watch), last)
        || meets(
            paths,
            jobset::intersect(first, watch),
            jobset::without(last, watch),
        )
}

// The same at any level.
fn is_split(sets: &Sets, t1: usize, level: u8, watch: u32) -> bool
    requires { t1 < 32 }
    ensures { (js : Jobs form1) → SetsOf js sets.now → (lv : ℕ → ℕ) → lv t1 ≡ level → Has watch (watch? lv t1) → SplitBy form1 js lv t1 result }
{
    if level < 1 {
        is_split_at_rc(sets, t1)
    } else {
        is_split_above_rc(sets, t1, watch)
    }
}

// Robust: no job is the split job of a danger.
#[inline(never)]
pub fn is_robust(sets: &Sets, levels: &[u8]) -> bool
    requires { (sets.now.table.now.jobs ≤ 32) × (sets.now.table.now.jobs ≤ length levels.now) }
    ensures { (js : Jobs form1) → SetsOf js sets.now → length js ≡ sets.now.table.now.jobs → Judged form1 js levels.now result }
{
    let jobs = sets.table.jobs;
    let ssi = at_ssi(jobs, levels);
    for (t1, level) in levels[..jobs].iter().enumerate() {
        if is_split(sets, t1, *level, watched(*level, ssi)) {
            return false;
        }
    }
    true
}
