// The questions about a table that a sheet was read into. The sets of jobs that conflict are worked out here, in a frame of their own.
ghost use Rattle.std.specs.Prelude.{◌≡◌, ◌++◌, ◌≤◌, length, take, drop};
ghost use Rattle.theory.specs.Form1.{form1};
ghost use Rattle.theory.specs.Planner.{Robust₁};
ghost use Rattle.sheet.specs.Step.{ok};
ghost use Rattle.conflicts.specs.SetsOf.{StandsIn};
ghost use Rattle.verdict.specs.Verdict.{Tells, Lowers};
ghost use Rattle.planner.specs.Questions.{Answers, Walks, walk_of};

use crate::WalkAnswer;
use crate::rows::put;
use crate::steps::next_of;
use sheet::Table;
use walk::four::Four;

// Whether the jobs in the table are robust against the levels.
#[inline(never)]
pub fn is_robust(table: &Table, levels: &[u8]) -> bool
    requires jobs_bound { (table.now.jobs ≤ 32) × (table.now.objects ≤ 4096) × (length levels.now ≡ table.now.jobs) }
    requires stands { StandsIn table.now }
    ensures { (k : StandsIn table.now) → Tells (Robust₁ k.js levels.now) result }
{
    let sets = conflicts::sets::find(table);
    verdict::judge::is_robust(&sets, levels)
}

// The first danger above the four numbers with the chain shown, or the end.
#[inline(never)]
pub fn first_above(table: &Table, levels: &[u8], above: Four) -> WalkAnswer
    requires jobs_bound { (table.now.jobs ≤ 32) × (table.now.objects ≤ 4096) × (length levels.now ≡ table.now.jobs) }
    requires stands { StandsIn table.now }
    ensures { (k : StandsIn table.now) → Answers (λ js. Walks levels.now above result js) (ok k.js) (walk_of result.walk) }
{
    let sets = conflicts::sets::find(table);
    next_of(&sets, levels, above)
}

// The lowest levels of the jobs in the table, to the first bytes of `answer`; the number asked.
#[inline(never)]
pub fn find_lowest(table: &Table, answer: &mut [u8]) -> u32
    requires jobs_bound { (table.now.jobs ≤ 32) × (table.now.objects ≤ 4096) × (table.now.jobs ≤ length answer.old) }
    requires stands { StandsIn table.now }
    ensures { (k : StandsIn table.now) → Lowers form1 k.js answer.old answer.new result }
{
    let sets = conflicts::sets::find(table);
    verdict::lowest::find_lowest(&sets, answer)
}

// The levels that a sheet names for its jobs, to the first bytes of `answer`.
pub fn copy_levels(table: &Table, answer: &mut [u8])
    requires { (table.now.jobs ≤ 32) × (table.now.jobs ≤ length answer.old) }
    ensures { answer.new ≡ take table.now.jobs table.now.level ++ drop table.now.jobs answer.old }
{
    put(&table.level[..table.jobs], 0, answer);
}
