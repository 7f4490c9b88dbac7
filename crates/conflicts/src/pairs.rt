// Pairs of operations that conflict, for the chain shown (document 01, "The walk and the chain shown"). No helper array.
ghost use Rattle.std.specs.Prelude.{◌≡◌, ◌<◌};
ghost use Rattle.theory.specs.Danger.{Jobs};
ghost use Rattle.theory.specs.Form1.{form1};
ghost use Rattle.conflicts.specs.Laid.{op_at, Laid};
ghost use Rattle.conflicts.specs.Pairs.{fits?, Fits, Partner, Paired};

use sheet::Table;

// Whether the operation at x is rw with the one at y or, if `any`, in some conflict with it.
fn conflict(table: &Table, x: usize, y: usize, any: bool) -> bool
    requires { (x < 512) × (y < 512) }
    ensures { result ≡ fits? form1 any (op_at table.now.kind table.now.object x) (op_at table.now.kind table.now.object y) }
{
    if table.object[x] != table.object[y] {
        return false;
    }
    match (table.kind[x], table.kind[y]) {
        (1, 2) => true,
        (2, 1 | 2) => any,
        _ => false,
    }
}

// The lowest operation of job j with which operation b of job i is rw or, from operation `any` of job j on, in some conflict. `any` is where a
// range begins, so 16 leaves it empty; `Fits` has it so.
pub fn partner(table: &Table, i: usize, b: usize, j: usize, any: usize) -> Option<usize>
    requires { (i < 32) × (b < 16) × (j < 32) }
    ensures { (js : Jobs form1) → Laid table.now.kind table.now.object js → Partner (Fits form1 js any i j b) result }
{
    (0..16).find(|a| conflict(table, 16 * i + b, 16 * j + *a, any <= *a))
}

#[derive(Clone, Copy)]
pub struct Pair {
    pub earlier: usize,
    pub later: usize,
}

// The lowest pair of an operation of job i and one of job j such that the first is rw with the second or, from operation `any` of job j on,
// in some conflict with it.
pub fn lowest_pair(table: &Table, i: usize, j: usize, any: usize) -> Option<Pair>
    requires { (i < 32) × (j < 32) }
    ensures { (js : Jobs form1) → Laid table.now.kind table.now.object js → Paired (Fits form1 js any i j) result }
{
    // A loop, since a `find_map` over the same range was not proved to give the lowest.
    for earlier in 0..16 {
        if let Some(later) = partner(table, i, earlier, j, any) {
            return Some(Pair { earlier, later });
        }
    }
    None
}
