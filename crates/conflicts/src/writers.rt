// The jobs that write each operation's object, by an index over spans of 512 objects: no two operations are compared.
ghost use Rattle.std.specs.Prelude.{◌≡◌, ℕ, ◌+◌, ◌*◌, ◌≤◌, ◌<◌, length, replicate, MatchOption};
ghost use Rattle.conflicts.specs.Found.{Gathered, Handed, WritesBelow, Written};

use jobset::with;
use sheet::Table;

// The place of an object in the span from `from` on, if it is in it.
fn place(object: u16, from: usize) -> Option<usize>
    ensures { MatchOption result ((s : ℕ) → s < 512 → ¬ object ≡ from + s) (λ s. (s < 512) × (object ≡ from + s)) }
{
    // No object reaches 65536, so the cut of `from` changes no answer. An object below it then wraps round to far past the span: one compare
    // tells both ends.
    let s = usize::from(object).wrapping_sub(from.min(65536));
    if s < 512 { Some(s) } else { None }
}

// Gives `seen` the jobs that write each object of the span from `from` on, among the first `end` operations.
fn gather(end: usize, table: &Table, from: usize, seen: &mut [u32; 512])
    requires { (end ≤ 512) × (seen.old ≡ replicate 512 0) }
    ensures { Gathered table.now.kind table.now.object end from seen.new }
{
    // Operation i is one of job i / 16.
    for (i, kind) in table.kind[..end].iter().enumerate() {
        if *kind == 2 {
            if let Some(s) = place(table.object[i], from) {
                seen[s] = with(seen[s], (i / 16) as u32);
            }
        }
    }
}

// Gives each of the first `end` operations on an object of the span its jobs.
fn hand_out(end: usize, table: &Table, from: usize, seen: &[u32; 512], writers: &mut [u32; 512])
    requires { (end ≤ 512) × (length writers.old ≡ 512) }
    ensures { Handed table.now.object seen.now end from writers.old writers.new }
{
    for (i, writer) in writers[..end].iter_mut().enumerate() {
        if let Some(s) = place(table.object[i], from) {
            *writer = seen[s];
        }
    }
}

// For each operation of the table's jobs the jobs that write its object, its own job too.
pub fn find_writers(table: &Table, writers: &mut [u32; 512])
    requires jobs_bound { (table.now.jobs ≤ 32) × (table.now.objects ≤ 4096) × (writers.old ≡ replicate 512 0) }
    requires writes_below { WritesBelow table.now.objects table.now.kind table.now.object (16 * table.now.jobs) }
    ensures { Written table.now.kind table.now.object (16 * table.now.jobs) writers.new }
{
    for from in (0..table.objects).step_by(512) {
        let mut seen = [0u32; 512];
        gather(16 * table.jobs, table, from, &mut seen);
        hand_out(16 * table.jobs, table, from, &seen, writers);
    }
}
