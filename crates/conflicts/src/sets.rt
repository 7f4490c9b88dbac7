// For each job the jobs with which it is ww, rw and wr, and those with which it conflicts.
ghost use Rattle.std.specs.Prelude.{◌≡◌, ℕ, ◌≤◌, ◌<◌, replicate};
ghost use Rattle.conflicts.specs.Sets.{over};
ghost use Rattle.conflicts.specs.SetsOf.{StandsIn, FoundOf};
ghost use Rattle.conflicts.specs.Found.{Filled, Over, Turned, Any};

use crate::writers::find_writers;
use jobset::{has, single, union, with, without};
use sheet::Table;

// Job j has entry j of the last four arrays, its operation o entry 16 * j + o of `writers`, with the jobs that write the operation's object.
// What must hold of them stands in the clauses: an invariant would ask it of every caller of every function.
#[derive(Drop)]
pub struct Sets<'a> {
    pub table: &'a Table,
    pub writers: [u32; 512],
    pub ww: [u32; 32],
    pub rw: [u32; 32],
    pub wr: [u32; 32],
    pub clash: [u32; 32],
}

impl Sets<'_> {
    // The jobs that write over the operation at i, if it is of kind k: those with which a read (1) is rw, a write (2) ww. Any byte may be asked
    // for, so k is no enum.
    pub fn over(&self, i: usize, k: u8) -> u32
        requires { i < 512 }
        ensures { result ≡ over self.now.table.now.kind self.now.writers i k }
    {
        if self.table.kind[i] == k {
            self.writers[i]
        } else {
            0
        }
    }

    // The jobs other than j that write over one of job j's operations of kind k.
    fn over_job(&self, j: usize, k: u8) -> u32
        requires { j < 32 }
        ensures { Over self.now.table.now.kind self.now.writers k j result }
    {
        let mut all = 0;
        for o in 0..16 {
            all = union(all, self.over(16 * j + o, k));
        }
        without(all, single(j as u32))
    }

    // Those of the table's jobs that are rw with job j: wr is rw turned round.
    fn turned(&self, j: usize) -> u32
        requires { (self.now.table.now.jobs ≤ 32) × (j < 32) }
        ensures { Turned self.now.table.now.jobs self.now.rw j result }
    {
        let mut all = 0;
        for (k, rw) in self.rw[..self.table.jobs].iter().enumerate() {
            if has(*rw, j as u32) {
                all = with(all, k as u32);
            }
        }
        all
    }

    // A conflict is any of the three.
    fn any(&self, j: usize) -> u32
        requires { j < 32 }
        ensures { Any self.now.ww self.now.wr self.now.rw j result }
    {
        union(union(self.ww[j], self.wr[j]), self.rw[j])
    }
}

// The set of each of the first `jobs` jobs, and no job for the others. A loop, since the proof over `array::from_fn` did not close.
fn fill<F: Fn(usize) -> u32>(jobs: usize, set: F) -> [u32; 32]
    requires jobs_bound { jobs ≤ 32 }
    requires calls { (j : ℕ) → j < jobs → F.pre set j }
    ensures { Filled jobs (F.post set) result }
{
    let mut sets = [0u32; 32];
    for (j, place) in sets[..jobs].iter_mut().enumerate() {
        *place = set(j);
    }
    sets
}

// All sets of the jobs that stand in the table, in sets that were empty. Out of line, so that its frame is gone before a search begins.
#[inline(never)]
fn work_out(sets: &mut Sets)
    requires jobs_bound { (sets.old.table.now.jobs ≤ 32) × (sets.old.table.now.objects ≤ 4096) × (sets.old.writers ≡ replicate 512 0) }
    requires stands { StandsIn sets.old.table.now }
    ensures same { sets.new.table ≡ sets.old.table }
    ensures found { (k : StandsIn sets.old.table.now) → FoundOf k.js sets.new }
{
    let table = sets.table;
    find_writers(table, &mut sets.writers);
    sets.ww = fill(table.jobs, |j| sets.over_job(j, 2));
    sets.rw = fill(table.jobs, |j| sets.over_job(j, 1));
    sets.wr = fill(table.jobs, |j| sets.turned(j));
    sets.clash = fill(table.jobs, |j| sets.any(j));
}

// All sets of the jobs that stand in the table. Inlined, so that they stand once on the stack, where the caller keeps them.
#[inline(always)]
pub fn find<'a>(table: &'a Table) -> Sets<'a>
    requires { (table.now.jobs ≤ 32) × (table.now.objects ≤ 4096) × StandsIn table.now }
    ensures same { result.table ≡ table.entry }
    ensures found { (k : StandsIn table.now) → FoundOf k.js result }
{
    let mut sets = Sets {
        table,
        writers: [0u32; 512],
        ww: [0u32; 32],
        rw: [0u32; 32],
        wr: [0u32; 32],
        clash: [0u32; 32],
    };
    work_out(&mut sets);
    sets
}
