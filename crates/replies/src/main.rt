// Answers a stream of questions from standard input, one line each, for comparison with the second program (docs/REPLIES.md).
#![tactic(auto)]

mod fault;
mod input;
mod question;

ghost use Rattle.std.specs.Prelude.{◌≤◌, IfOk};

use fault::Fault;
use input::Ahead;
use question::PART;
use std::io;
use std::io::Read;
use text::Text;

// What ended the stream early, and the number of the question at which it did.
#[derive(Drop)]
struct Stop {
    fault: Fault,
    question: u32,
}

// The next question, and its line, which goes out in time.
fn next<R: Read>(
    rt: &impl Print,
    input: &mut Ahead<R>,
    sheet: &mut [u8; PART],
    list: &mut [u8; PART],
    out: &mut Text<'_>,
) -> Result<(), Fault> {
    question::answer(input, sheet, list, out)?;
    if out.is_due() {
        out.flush(rt)?;
    }
    Ok(())
}

// The number of questions.
fn count(input: &mut impl Read) -> Result<u32, Fault>
    ensures { IfOk result (λ n. n ≤ 100000) }
{
    let n = u32::from_be_bytes(question::bytes(input)?);
    if 100000 < n {
        return Err(Fault::Malformed);
    }
    Ok(n)
}

// Nothing stands behind the last question.
fn nothing_left(input: &mut impl Read) -> Result<(), Fault> {
    match question::bytes::<1, _>(input) {
        Ok(_) => Err(Fault::Malformed),
        Err(Fault::Cut) => Ok(()),
        Err(fault) => Err(fault),
    }
}

// The whole stream: the number of questions, the questions, and nothing behind them.
fn stream<R: Read>(rt: &impl Print, input: &mut Ahead<R>, out: &mut Text<'_>) -> Result<(), Stop> {
    let mut sheet = [0; PART];
    let mut list = [0; PART];
    let n = count(input).map_err(|fault| Stop { fault, question: 0 })?;
    for question in 1..=n {
        next(rt, input, &mut sheet, &mut list, out).map_err(|fault| Stop { fault, question })?;
    }
    let question = n + 1;
    nothing_left(input).map_err(|fault| Stop { fault, question })
}

fn main(rt: HostRuntime) -> io::Result<()> {
    let mut bytes = [0; 32768];
    let mut out = Text {
        bytes: &mut bytes,
        used: 0,
    };
    let mut input = Ahead::new(rt.stdin());
    if let Err(Stop { fault, question }) = stream(&rt, &mut input, &mut out) {
        let word: &[u8] = match fault {
            Fault::Cut => b"cut",
            Fault::Malformed => b"malformed",
            Fault::Io(e) => {
                // The questions that were answered have their lines.
                out.flush(&rt)?;
                return Err(e);
            }
        };
        out.put_word(word);
        out.put_word(b" at question ");
        out.put_number(u64::from(question));
        out.put(b'\n');
    }
    out.flush(&rt)
}
