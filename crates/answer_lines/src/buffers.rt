// The questions that come with an answer buffer, for the lowest levels and for the sheet's own: kinds 4 and 5 of docs/REPLIES.md.
ghost use Rattle.text.specs.Text.{SameBuffer};

use crate::put_refusal;
use sheet::Refusal;
use text::Text;

// The word with the number that the question answers, or the refusal, and then the whole buffer.
pub fn put_answer<Q: FnOnce(&[u8], &mut [u8]) -> Result<u32, Refusal>>(
    word: &str,
    question: Q,
    sheet: &[u8],
    buffer: &mut [u8],
    out: &mut Text<'_>,
)
    requires { Q.IsAlwaysCallable question }
    ensures { SameBuffer out.old out.new }
{
    match question(sheet, buffer) {
        Ok(n) => {
            out.put_word(word.as_bytes());
            out.put(b' ');
            out.put_number(u64::from(n));
        }
        Err(r) => put_refusal(r, out),
    }
    out.put_word(b" :");
    for b in buffer {
        out.put(b' ');
        out.put_hex(*b);
    }
}
