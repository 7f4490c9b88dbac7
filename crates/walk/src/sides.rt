// The first and the last jobs between which a chain leads (document 01, "Conflicts and splits").
ghost use Rattle.std.specs.Prelude.{◌≡◌, cond, ℕ, ◌<◌, ◌≤◌, eqb};
ghost use Rattle.jobset.specs.Jobset.{bit};
ghost use Rattle.walk.specs.Sides.{Firsts, Lasts};

use chain::Paths;

// The first jobs that a path leads to from some last job. Conflicts are mutual, so it leads back too.
pub fn firsts_of(paths: Paths, first: u32, last: u32) -> u32
    ensures { Firsts paths.entry.clash.now paths.entry.shut first last result }
{
    if first == 0 {
        return 0;
    }
    jobset::intersect(first, paths.spread(last))
}

// The last jobs that go with first job f, if it is one of `firsts`: a path leads to them, and condition 6 is met.
pub fn lasts_of(paths: Paths, watch: u32, firsts: u32, last: u32, f: u32) -> u32
    requires { f < 32 }
    ensures { Lasts paths.entry.clash.now paths.entry.shut watch firsts last f result }
{
    if jobset::has(firsts, f) {
        let left = splits::guard::beside(last, watch, f);
        jobset::intersect(left, paths.spread(jobset::single(f)))
    } else {
        0
    }
}

// Where a search through a set may end: nothing is to be looked for in an empty one.
pub fn end_of(m: u32) -> u32
    ensures { (result ≤ 32) × ((k : ℕ) → bit m k ≡ 1 → k < result) × (result ≡ cond (eqb m 0) 0 32) }
{
    if m == 0 { 0 } else { 32 }
}
