// The lines that only `survey` prints (document 01, "The program `survey`").
ghost use Rattle.text.specs.Text.{SameBuffer};

use text::Text;

// A word, a number and the end of the line.
fn put_named(word: &[u8], n: u64, out: &mut Text<'_>)
    ensures { SameBuffer out.old out.new }
{
    out.put_word(word);
    out.put_number(n);
    out.put(b'\n');
}

// The declared numbers.
pub fn put_head(jobs: usize, objects: usize, out: &mut Text<'_>)
    ensures { SameBuffer out.old out.new }
{
    out.put_word(b"jobs ");
    out.put_number(jobs as u64);
    put_named(b" objects ", objects as u64, out);
}

// How many dangers there are.
pub fn put_count(count: u64, out: &mut Text<'_>)
    ensures { SameBuffer out.old out.new }
{
    put_named(b"dangers ", count, out);
}

// The lowest levels, in job order, and the number asked.
pub fn put_levels(levels: &[u8], asked: u32, out: &mut Text<'_>)
    ensures { SameBuffer out.old out.new }
{
    out.put_word(b"lowest");
    for level in levels {
        // A level is a byte in the answer buffer.
        match *level {
            0 => out.put_word(b" RC"),
            1 => out.put_word(b" SI"),
            _ => out.put_word(b" SSI"),
        }
    }
    put_named(b"\nasked ", u64::from(asked), out);
}
