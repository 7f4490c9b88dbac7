// The chain shown with a danger, and its pairs (document 01, "The walk and the chain shown").
ghost use Rattle.std.specs.Prelude.{◌≡◌, ◌++◌, suc, ◌+◌, ◌*◌, ◌<◌, ◌≤◌, length, drop, set};
ghost use Rattle.walk.specs.ShownIn.{DangerIn, ShownIn, ToPair, pair_row};

use crate::four::Indices;
use conflicts::pairs::{Pair, lowest_pair, partner};
use conflicts::sets::Sets;
use splits::split::paths_of;

// Pair `at` gets its two operations, which count from 0 here and from 1 in the array; `as u8`, since no `From` narrows.
fn put_pair(pairs: &mut [u8; 64], at: usize, pair: Pair)
    requires { (at < 32) × (pair.earlier < 16) × (pair.later < 16) }
    ensures { pairs.new ≡ set (set pairs.old (2 * at) (pair.earlier + 1)) (2 * at + 1) (pair.later + 1) }
{
    pairs[2 * at] = (pair.earlier + 1) as u8;
    pairs[2 * at + 1] = (pair.later + 1) as u8;
}

// From which operation of T1 on any conflict with Tm will do, by condition 5: at RC from the one after b1, at SI and SSI from none.
fn any_from(level: u8, b1: usize) -> usize
    requires { b1 < 16 }
    ensures { (level < 1 → result ≡ suc b1) × (1 ≤ level → result ≡ 16) }
{
    if level < 1 { b1 + 1 } else { 16 }
}

// The pairs of a chain: b1 with its partner in T2, each job with the next, and the last one with T1. A danger's chain has all of them, so
// that each is found.
fn write_pairs(sets: &Sets, level: u8, danger: Indices, chain: &[u8], pairs: &mut [u8; 64])
    requires pairs_len { length pairs.old ≡ 64 }
    requires to_pair { ToPair sets.now.table.now.kind sets.now.table.now.object chain.now level danger.t1 danger.b1 danger.t2 }
    ensures { (w : ToPair sets.now.table.now.kind sets.now.table.now.object chain.now level danger.t1 danger.b1 danger.t2)
        → pairs.new ≡ pair_row w.ps ++ drop (2 * length w.ps) pairs.old }
{
    let table = sets.table;
    let Indices { t1, b1, t2, .. } = danger;
    // `as usize`, since usize has no `From<u32>`
    let mut from = t2 as usize;
    let later = partner(table, t1, b1, from, 16).unwrap();
    put_pair(pairs, 0, Pair { earlier: b1, later });
    // By number, which is also the pair's place: `enumerate` and `skip` would be no plainer.
    for at in 1..chain.len() {
        let to = usize::from(chain[at] - 1);
        put_pair(pairs, at, lowest_pair(table, from, to, 0).unwrap());
        from = to;
    }
    let any = any_from(level, b1);
    put_pair(
        pairs,
        chain.len(),
        lowest_pair(table, from, t1, any).unwrap(),
    );
}

// The chain's jobs T2 .. Tm go to the front of `chain`, its pairs to the front of `pairs`, all numbers from 1; the answer is how many jobs
// the chain has. The danger itself counts from 0, and has a chain.
pub fn show(
    sets: &Sets,
    level: u8,
    danger: Indices,
    chain: &mut [u8; 32],
    pairs: &mut [u8; 64],
) -> u32
    requires pairs_len { length pairs.old ≡ 64 }
    requires danger_in { DangerIn sets.now.table.now.kind sets.now.table.now.object sets.now.clash level danger.t1 danger.b1 danger.t2 danger.tm }
    ensures { (d : DangerIn sets.now.table.now.kind sets.now.table.now.object sets.now.clash level danger.t1 danger.b1 danger.t2 danger.tm)
        → ShownIn d.js d.lv danger.t1 danger.b1 danger.t2 danger.tm chain.old chain.new pairs.old pairs.new result }
{
    let paths = paths_of(&sets.clash, danger.t1);
    let n = paths.show(danger.t2, danger.tm, chain).unwrap();
    // `as usize`, since usize has no `From<u32>`
    write_pairs(sets, level, danger, &chain[..n as usize], pairs);
    n
}
