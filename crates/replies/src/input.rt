// Standard input, read a buffer at a time.
ghost use Rattle.std.specs.Prelude.{◌≡◌, ◌-◌, ◌<◌, ◌≤◌, ◌++◌, min, None, IfOk, OnOk, length, take};
ghost use Rattle.std.specs.Io.KnownBytes.{Keeps, Consumes, ReadConsumes, IsAtEnd};
ghost use Rattle.std.specs.Io.{ReadsAtMost};

use std::io;
use std::io::Read;

// Reads until `bytes` is full or the input ends, and returns how many bytes stand at its start. A read that fails ends it with its error.
// It stands in `survey` too, since a library that reads would load modules of `os`, and rest on what they declare.
pub fn read_full<R: Read>(reader: &mut R, bytes: &mut [u8]) -> io::Result<usize>
    ensures bound { ReadsAtMost result bytes.new }
    ensures bytes { IfOk result (λ n. Consumes (R.remaining reader.old) (R.remaining reader.new) (take n bytes.new)) }
    ensures end { IfOk result (λ n. n < length bytes.new → IsAtEnd (R.remaining reader.new)) }
{
    let mut done = 0;
    while done < bytes.len() {
        let n = reader.read(&mut bytes[done..])?;
        if n == 0 {
            return Ok(done);
        }
        done += n;
    }
    Ok(done)
}

// A reader, and what was read of it ahead: what is still to be given stands from `at` to `end` in `bytes`. No `BufReader`, which would want
// a heap.
#[derive(Drop)]
pub struct Ahead<R> {
    input: R,
    bytes: [u8; 65536],
    at: usize,
    end: usize,
    ghost ordered: { at ≤ end },
    ghost in_bounds: { end ≤ 65536 },
}

impl<R: Read> Ahead<R> {
    ghost use Rattle.replies.specs.Ahead.{ahead, left};

    pub fn new(input: R) -> Ahead<R>
        ensures same_input { result.input ≡ input }
        ensures empty { result.end ≡ 0 }
    {
        Ahead {
            input,
            bytes: [0; 65536],
            at: 0,
            end: 0,
        }
    }

    // Where nothing is ahead, fills `bytes` as far as the input goes. What a fill that fails had read is lost.
    fn refill(&mut self) -> io::Result<()>
        ensures kept { OnOk result (Keeps (left R.remaining self.old) (left R.remaining self.new)) }
        ensures end { OnOk result (self.new.end ≤ self.new.at → IsAtEnd (R.remaining self.new.input)) }
    {
        if self.at < self.end {
            return Ok(());
        }
        self.end = read_full(&mut self.input, &mut self.bytes)?;
        self.at = 0;
        Ok(())
    }

    // Gives as many bytes as are ahead and `part` has room for, and returns how many.
    fn give(&mut self, part: &mut [u8]) -> usize
        ensures count { result ≡ min (length part.new) (self.old.end - self.old.at) }
        ensures given { ahead self.old ≡ take result part.new ++ ahead self.new }
        ensures same_input { self.new.input ≡ self.old.input }
    {
        let n = part.len().min(self.end - self.at);
        part[..n].copy_from_slice(&self.bytes[self.at..self.at + n]);
        self.at += n;
        n
    }
}

// Its `remaining` is left open, since the law asks that a read that fails lose nothing.
impl<R: Read> Read for Ahead<R> {
    ghost use Rattle.replies.specs.Ahead.{left};

    fn read(&mut self, part: &mut [u8]) -> io::Result<usize>
        ensures bound { ReadsAtMost result part.new }
        ensures bytes { ReadConsumes None None result part.new }
        ensures given { IfOk result (λ n. Consumes (left R.remaining self.old) (left R.remaining self.new) (take n part.new)) }
        ensures end { IfOk result (λ n. n ≡ 0 → 0 < length part.new → IsAtEnd (R.remaining self.new.input)) }
    {
        self.refill()?;
        Ok(self.give(part))
    }
}
