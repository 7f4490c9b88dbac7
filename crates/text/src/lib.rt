// How the programs make their lines: bytes, words and numbers go to the end of what a buffer holds already, its first `used` bytes. What has
// no room is left out, so a program writes the buffer away in time.
#![tactic(auto)]

mod lines;

ghost use Rattle.std.specs.Prelude.{◌≡◌, IsOk, [], ◌∷◌, ◌<◌, ◌/◌, ltb, length, take};
ghost use Rattle.text.specs.Text.{Puts, decimal, nibble, hexadecimal};

use std::{fmt, io};

// A buffer and how many of its bytes are used, since there is no heap for a `Vec`. Any number may stand there, so a caller owes nothing.
#[derive(Drop)]
pub struct Text<'a> {
    pub bytes: &'a mut [u8],
    pub used: usize,
}

fn hex_digit(d: u8) -> u8
    requires { d < 16 }
    ensures { result ≡ nibble d }
{
    if d < 10 { b'0' + d } else { b'a' - 10 + d }
}

impl Text<'_> {
    // One byte more. By index: the proof over `get_mut` did not close.
    pub fn put(&mut self, b: u8)
        ensures { Puts self.old (b ∷ []) self.new }
    {
        let n = self.used;
        if n < self.bytes.len() {
            self.bytes[n] = b;
            self.used = n + 1;
        }
    }

    // The bytes of a word.
    pub fn put_word(&mut self, word: &[u8])
        ensures { Puts self.old word.now self.new }
    {
        for b in word {
            self.put(*b);
        }
    }

    // A number in decimal, by hand: a `write!` tells what it printed only where it succeeds, and no clause says that it does.
    pub fn put_number(&mut self, n: u64)
        ensures { Puts self.old (decimal n) self.new }
    {
        if n < 10 {
            self.put(b'0' + n as u8);
            return;
        }
        self.put_number(n / 10);
        self.put(b'0' + (n % 10) as u8);
    }

    // A byte as two hexadecimal digits, by hand likewise.
    pub fn put_hex(&mut self, b: u8)
        ensures { Puts self.old (hexadecimal b) self.new }
    {
        self.put(hex_digit(b / 16));
        self.put(hex_digit(b % 16));
    }

    // What the buffer holds.
    pub fn held(&self) -> &[u8]
        ensures { result.now ≡ take self.now.used self.now.bytes.now }
    {
        &self.bytes[..self.used.min(self.bytes.len())]
    }

    // Writes away what the buffer holds, and empties it, also where the write fails.
    pub fn flush(&mut self, rt: &impl Print) -> io::Result<()>
        ensures empty { self.new.used ≡ 0 }
        ensures same_buffer { self.new.bytes ≡ self.old.bytes }
    {
        let written = rt.write_all(self.held());
        self.used = 0;
        written
    }

    // Whether the buffer is to be written away: more than half of it is used, and a line takes at most the other half.
    pub fn is_due(&self) -> bool
        ensures { result ≡ ltb (length self.now.bytes.now / 2) self.now.used }
    {
        self.bytes.len() / 2 < self.used
    }
}

impl fmt::Write for Text<'_> {
    ghost write_str_gives = { Puts };

    // What has no room is left out here too, so no write fails.
    fn write_str(&mut self, s: &str) -> fmt::Result
        ensures ok { IsOk result → Puts self.old s.now self.new }
        ensures never_fails { IsOk result }
    {
        self.put_word(s.as_bytes());
        Ok(())
    }
}
