// The bytes that show a danger: its four numbers, the jobs of its chain, the pairs, and room that is kept for more.
ghost use Rattle.std.specs.Prelude.{◌≡◌, ◌∷◌, ◌++◌, replicate};

use planner::rows::put;
use walk::four::Four;

// A danger's four numbers and its chain with the pairs, to `found`; zeros behind them.
pub fn show(danger: Four, chain: &[u8; 32], pairs: &[u8; 64], found: &mut [u8; 128])
    ensures { found.new
        ≡ danger.t1 ∷ danger.b1 ∷ danger.t2 ∷ danger.tm ∷ (chain.now ++ pairs.now ++ replicate 28 0) }
{
    let kept = [0u8; 28];
    put(&<[u8; 4]>::from(danger), 0, found);
    put(chain, 4, found);
    put(pairs, 36, found);
    put(&kept, 100, found);
}
