// The question whether a sheet is robust against levels: kind 2 of docs/REPLIES.md.
ghost use Rattle.text.specs.Text.{SameBuffer};

use crate::put_refusal;
use planner::Verdict;
use text::Text;

pub fn put_answer(sheet: &[u8], levels: &[u8], out: &mut Text<'_>)
    ensures { SameBuffer out.old out.new }
{
    match planner::judge(sheet, levels) {
        Ok(Verdict::Robust) => out.put_word(b"robust"),
        Ok(Verdict::Dangerous) => out.put_word(b"not robust"),
        Err(r) => put_refusal(r, out),
    }
}
