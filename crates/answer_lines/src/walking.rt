// The question for the next danger: kind 3 of docs/REPLIES.md.
ghost use Rattle.text.specs.Text.{SameBuffer};

use crate::put_refusal;
use text::Text;
use walk::four::Four;

// The pairs, up to the first that is zeros.
fn put_pairs(pairs: &[u8; 64], out: &mut Text<'_>)
    ensures { SameBuffer out.old out.new }
{
    out.put_word(b" :");
    for [earlier, later] in pairs.as_chunks::<2>().0 {
        if *earlier == 0 {
            return;
        }
        out.put(b' ');
        out.put_number(u64::from(*earlier));
        out.put(b'-');
        out.put_number(u64::from(*later));
    }
}

pub fn put_answer(sheet: &[u8], levels: &[u8], four: &[u8; 4], out: &mut Text<'_>)
    ensures { SameBuffer out.old out.new }
{
    let a = planner::next_danger(sheet, levels, Four::from(*four));
    match a.walk {
        Ok(Some(danger)) => {
            out.put_danger(&danger.into(), &a.chain);
            put_pairs(&a.pairs, out);
        }
        Ok(None) => out.put_word(b"end"),
        Err(r) => put_refusal(r, out),
    }
}
