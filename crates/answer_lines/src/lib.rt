// The lines that tell the answers, without their line feeds (docs/REPLIES.md, "The lines").
#![tactic(auto)]

pub mod buffers;
pub mod judging;
pub mod reading;
pub mod walking;

ghost use Rattle.text.specs.Text.{SameBuffer};

use sheet::Refusal;
use text::Text;

fn put_refusal(r: Refusal, out: &mut Text<'_>)
    ensures { SameBuffer out.old out.new }
{
    out.put_refusal(r.reason.into(), r.place);
}
