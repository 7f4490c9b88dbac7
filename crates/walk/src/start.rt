// Where a search for the first danger above four given numbers starts.
ghost use Rattle.walk.specs.Starts.{Starts};

use crate::four::{Four, Indices, ZEROS};

// The lowest four numbers above those given, counted from 0. A given number 0 names nothing, so what stands after it does not matter.
pub fn start_above(given: Four) -> Indices
    ensures { Starts given result }
{
    let mut start = ZEROS;
    let Some(t1) = given.t1.checked_sub(1) else {
        return start;
    };
    start.t1 = usize::from(t1);
    let Some(b1) = given.b1.checked_sub(1) else {
        return start;
    };
    start.b1 = usize::from(b1);
    let Some(t2) = given.t2.checked_sub(1) else {
        return start;
    };
    start.t2 = u32::from(t2);
    start.tm = u32::from(given.tm);
    start
}
