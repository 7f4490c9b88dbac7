// What the programs print alike of a refusal and of a danger, put by hand: the promise is `Puts` in every case, that of a `write!` only
// where it succeeds.
ghost use Rattle.std.specs.Prelude.{◌≡◌};
ghost use Rattle.text.specs.Text.{Puts};
ghost use Rattle.text.specs.Lines.{row, refusal_line, danger_line};

use crate::Text;

impl Text<'_> {
    // `refused`, the reason's number, `at`, the place.
    pub fn put_refusal(&mut self, number: u32, place: usize)
        ensures { Puts self.old (refusal_line number place) self.new }
    {
        self.put_word(b"refused ");
        self.put_number(u64::from(number));
        self.put_word(b" at ");
        // `as`, since no `From` goes from usize to u64.
        self.put_number(place as u64);
    }

    // A space and a number, for each up to the first zero.
    fn put_row(&mut self, numbers: &[u8])
        ensures { Puts self.old (row numbers.now) self.new }
    {
        for n in numbers {
            // A local, so that the proof's goal keeps its name under the edit `row_ends_at_one`.
            let ended = *n == 0;
            if ended {
                return;
            }
            self.put(b' ');
            self.put_number(u64::from(*n));
        }
    }

    // `danger`, the four numbers, a colon, the jobs of the chain; behind them the chain has zeros.
    pub fn put_danger(&mut self, four: &[u8; 4], chain: &[u8; 32])
        ensures { Puts self.old (danger_line four.now chain.now) self.new }
    {
        self.put_word(b"danger");
        self.put_row(four);
        self.put_word(b" :");
        self.put_row(chain);
    }
}
