// The first and the last jobs for each operation of a split job.
ghost use Rattle.std.specs.Prelude.{◌≡◌, ℕ, ◌<◌, min, max, leb, eqb, length, get_or};
ghost use Rattle.jobset.specs.Jobset.{bit, one};
ghost use Rattle.splits.specs.Splits.{SplitsOf, ShutBy};
ghost use Rattle.splits.specs.Steps.{ReturnsOf};

use crate::guard::unnoticed;
use chain::Paths;
use conflicts::sets::Sets;

// For each operation of job t1 the jobs that meet condition 5: those that are rw with t1, and if it is at RC those that conflict with a
// later operation.
fn find_returns(sets: &Sets, t1: usize, level: u8) -> [u32; 16]
    requires { t1 < 32 }
    ensures { ReturnsOf sets.now.table.now.kind sets.now.writers t1 level (get_or sets.now.wr t1 0) result }
{
    let mut last = [0u32; 16];
    let mut all = sets.wr[t1];
    // By number: tried as `last.iter_mut().enumerate().rev()`, but nothing can be proved of what is written through an `iter_mut` turned round.
    for b in (0..16).rev() {
        last[b] = all;
        if level < 1 {
            let i = 16 * t1 + b;
            all = jobset::union(all, jobset::union(sets.over(i, 1), sets.over(i, 2)));
        }
    }
    last
}

// The jobs that may be neither first nor last whatever the operation: t1, and if it is above RC those that are ww with it.
fn closed_from_start(ww: &[u32; 32], t1: usize, level: u8) -> u32
    requires { t1 < 32 }
    ensures { (k : ℕ) → bit result k ≡ max (one (eqb t1 k)) (min (one (leb 1 level)) (bit (get_or ww.now t1 0) k)) }
{
    if 1 <= level {
        jobset::with(ww[t1], t1 as u32)
    } else {
        jobset::single(t1 as u32)
    }
}

// The jobs that may be first and last, for each operation of a split job.
#[derive(Clone, Copy)]
pub struct Ends {
    pub first: [u32; 16],
    pub last: [u32; 16],
}

// For each operation of job t1 the jobs that may be first (conditions 2 to 4 and 7) and last (2, 3, 5 and 8).
pub fn find_splits(sets: &Sets, t1: usize, level: u8, watch: u32) -> Ends
    requires { t1 < 32 }
    ensures { SplitsOf sets.now.table.now.kind sets.now.writers sets.now.ww sets.now.rw sets.now.wr t1 level watch result.first result.last }
{
    let mut first = [0u32; 16];
    let mut last = find_returns(sets, t1, level);
    let mut closed = closed_from_start(&sets.ww, t1, level);
    // By number: both arrays are written, and nothing can be proved of what is written through two `iter_mut` that are zipped.
    for b in 0..16 {
        let i = 16 * t1 + b;
        closed = jobset::union(closed, sets.over(i, 2));
        let free = jobset::without(sets.over(i, 1), closed);
        first[b] = unnoticed(free, watch, sets.wr[t1]);
        last[b] = unnoticed(jobset::without(last[b], closed), watch, sets.rw[t1]);
    }
    Ends { first, last }
}

// The jobs that may not stand in the middle of a chain: t1 and those that conflict with it (condition 1).
pub fn shut_by(clash: &[u32; 32], t1: usize) -> u32
    requires { t1 < 32 }
    ensures { ShutBy clash.now t1 result }
{
    jobset::with(clash[t1], t1 as u32)
}

// The paths that a chain for split job t1 may take: none goes through t1 or a job that conflicts with it (condition 1).
pub fn paths_of<'a>(clash: &'a [u32; 32], t1: usize) -> Paths<'a>
    requires { t1 < 32 }
    ensures same { result.clash ≡ clash.entry }
    ensures shut { ShutBy clash.now t1 result.shut }
{
    Paths {
        clash,
        shut: shut_by(clash, t1),
    }
}
