// Paths between first and last jobs.
ghost use Rattle.splits.specs.Splits.{Meeting};

use chain::Paths;

// Whether some first job is joined with some last one.
pub fn meets(paths: Paths, first: u32, last: u32) -> bool
    ensures { Meeting paths.entry.clash.now paths.entry.shut first last result }
{
    if first == 0 || last == 0 {
        return false;
    }
    0 < jobset::intersect(paths.spread(first), last)
}
