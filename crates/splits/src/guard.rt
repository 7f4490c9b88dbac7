// What SSI notices, conditions 6 to 8 of document 01: the only code that knows of it.
ghost use Rattle.std.specs.Prelude.{◌≡◌, ℕ, ◌-◌, ◌≤◌, ◌<◌, min, leb, length};
ghost use Rattle.jobset.specs.Jobset.{bit, one};
ghost use Rattle.conflicts.specs.Sets.{Has};
ghost use Rattle.splits.specs.Splits.{ssi?};

// The jobs at SSI, of the first `jobs` in a list: callers lend the list that they were lent, which may be longer.
pub fn at_ssi(jobs: usize, levels: &[u8]) -> u32
    requires { (jobs ≤ 32) × (jobs ≤ length levels.now) }
    ensures { Has result (ssi? jobs levels.now) }
{
    let mut all = 0;
    for (j, level) in levels[..jobs].iter().enumerate() {
        if 2 <= *level {
            all = jobset::with(all, j as u32);
        }
    }
    all
}

// The jobs that SSI watches together with a split job of this level: those at SSI if it is at SSI itself. A level is a byte here and above, as
// lists lend it: every byte has an answer.
pub fn watched(level: u8, ssi: u32) -> u32
    ensures { (k : ℕ) → bit result k ≡ min (one (leb 2 level)) (bit ssi k) }
{
    if 2 <= level { ssi } else { 0 }
}

// Conditions 7 and 8: of the jobs in `set`, those that are not both watched and in `noticed`.
pub fn unnoticed(set: u32, watch: u32, noticed: u32) -> u32
    ensures { (k : ℕ) → bit result k ≡ bit set k - min (bit watch k) (bit noticed k) }
{
    jobset::without(set, jobset::intersect(watch, noticed))
}

// Condition 6: the last jobs that a first job leaves.
pub fn beside(last: u32, watch: u32, first: u32) -> u32
    requires { first < 32 }
    ensures { (k : ℕ) → bit result k ≡ bit last k - min (bit watch first) (bit watch k) }
{
    if jobset::has(watch, first) {
        jobset::without(last, watch)
    } else {
        last
    }
}
