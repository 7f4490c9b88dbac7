// One question of the stream: its kind, the lengths of its parts, the parts, and its line (docs/REPLIES.md).
ghost use Rattle.std.specs.Prelude.{◌≤◌, IfOk, OnOk};
ghost use Rattle.std.specs.Io.KnownBytes.{Consumes};
ghost use Rattle.text.specs.Text.{SameBuffer};

use crate::fault::Fault;
use crate::input::{Ahead, read_full};
use answer_lines::{buffers, judging, reading, walking};
use std::io::Read;
use text::Text;

// The most bytes of a part.
pub const PART: usize = 4096;

#[derive(Clone, Copy, PartialEq, Eq)]
enum Kind {
    Read,
    Judge,
    Next,
    Lowest,
    Levels,
}

impl TryFrom<u8> for Kind {
    type Error = Fault;

    fn try_from(number: u8) -> Result<Kind, Fault> {
        match number {
            1 => Ok(Kind::Read),
            2 => Ok(Kind::Judge),
            3 => Ok(Kind::Next),
            4 => Ok(Kind::Lowest),
            5 => Ok(Kind::Levels),
            _ => Err(Fault::Malformed),
        }
    }
}

// Fills `part` with the next bytes of the stream, all of which are there, or the stream is cut.
fn fill<R: Read>(input: &mut R, part: &mut [u8]) -> Result<(), Fault>
    ensures { OnOk result (Consumes (R.remaining input.old) (R.remaining input.new) part.new) }
{
    let n = read_full(input, part)?;
    if n < part.len() {
        return Err(Fault::Cut);
    }
    Ok(())
}

// The next N bytes of the stream.
pub fn bytes<const N: usize, R: Read>(input: &mut R) -> Result<[u8; N], Fault>
    ensures { IfOk result (λ b. Consumes (R.remaining input.old) (R.remaining input.new) b) }
{
    let mut bytes = [0; N];
    fill(input, &mut bytes)?;
    Ok(bytes)
}

fn length(input: &mut impl Read) -> Result<usize, Fault> {
    Ok(usize::from(u16::from_be_bytes(bytes(input)?)))
}

// How long the parts of a question are.
#[derive(Clone, Copy)]
struct Lengths {
    sheet: usize,
    list: usize,
}

impl Lengths {
    // The lengths that a kind has, all of which are there before any of them is judged.
    fn read(input: &mut impl Read, kind: Kind) -> Result<Lengths, Fault>
        ensures { IfOk result (λ l. (l.sheet ≤ 4096) × (l.list ≤ 4096)) }
    {
        let sheet = length(input)?;
        let list = if kind == Kind::Read {
            0
        } else {
            length(input)?
        };
        let fits = kind != Kind::Next || length(input)? == 4;
        if PART < sheet || PART < list || !fits {
            return Err(Fault::Malformed);
        }
        Ok(Lengths { sheet, list })
    }
}

// Reads the next question, its parts into the room lent for them, and puts its line.
pub fn answer<R: Read>(
    input: &mut Ahead<R>,
    sheet: &mut [u8; PART],
    list: &mut [u8; PART],
    out: &mut Text<'_>,
) -> Result<(), Fault>
    ensures { SameBuffer out.old out.new }
{
    let [number] = bytes::<1, _>(input)?;
    let kind = Kind::try_from(number)?;
    let lengths = Lengths::read(input, kind)?;
    let sheet = &mut sheet[..lengths.sheet];
    fill(input, sheet)?;
    let list = &mut list[..lengths.list];
    fill(input, list)?;
    match kind {
        Kind::Read => reading::put_answer(sheet, out),
        Kind::Judge => judging::put_answer(sheet, list, out),
        Kind::Next => walking::put_answer(sheet, list, &bytes(input)?, out),
        Kind::Lowest => buffers::put_answer("lowest", planner::lowest, sheet, list, out),
        Kind::Levels => buffers::put_answer("levels", planner::own_levels, sheet, list, out),
    }
    out.put(b'\n');
    Ok(())
}
