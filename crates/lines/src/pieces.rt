// The pieces of a line, put one after the other. A piece that does not fit is left out.
ghost use Rattle.std.specs.Prelude.{◌≡◌, [], ◌∷◌, ◌++◌};
ghost use Rattle.lines.specs.Text.{decimal, digit, line_end, event_text, events_text};
ghost use Rattle.lines.specs.Pieces.{Puts};

use model::Kind;

// The bytes that are lent for a line, and the place in them that the line has reached.
#[derive(Drop)]
pub struct Line<'a> {
    pub out: &'a mut [u8],
    pub at: usize,
}

impl<'a> Line<'a> {
    // A line that begins at the front of the bytes.
    pub fn begin(out: &'a mut [u8]) -> Line<'a>
        ensures same { result.out.ghost_name ≡ out.entry.ghost_name }
        ensures bytes { result.out.now ≡ out.old }
        ensures at { result.at ≡ 0 }
    {
        Line { out, at: 0 }
    }

    // Puts one byte.
    pub fn put_byte(&mut self, byte: u8)
        ensures { Puts (byte ∷ []) self.old self.new }
    {
        self.put(&[byte])
    }

    // Puts some words. The place is compared by hand, so that nothing is added before it is known to fit.
    pub fn put(&mut self, words: &[u8])
        ensures { Puts words.now self.old self.new }
    {
        let size = words.len();
        if self.out.len() < size {
            return;
        }
        if self.out.len() - size < self.at {
            return;
        }
        let next = self.at + size;
        self.out[self.at..next].copy_from_slice(words);
        self.at = next;
    }

    // Puts a number, in decimal digits. `as` is proved to lose nothing of a digit.
    pub fn put_decimal(&mut self, number: u32)
        ensures { Puts (decimal number) self.old self.new }
    {
        if 10 <= number {
            self.put_decimal(number / 10);
        }
        self.put_byte(b'0' + (number % 10) as u8)
    }

    // Puts some words and then a number.
    #[tactic(auto, using(crate::proofs::Lines::then_puts))]
    pub fn put_number(&mut self, words: &[u8], number: u32)
        ensures { Puts (words.now ++ decimal number) self.old self.new }
    {
        self.put(words);
        self.put_decimal(number)
    }

    // Puts some words and a number, and ends the line.
    #[tactic(auto, using(crate::proofs::Lines::after_number))]
    pub fn put_last(&mut self, words: &[u8], number: u32)
        ensures { Puts (words.now ++ (decimal number ++ line_end)) self.old self.new }
    {
        self.put_number(words, number);
        self.put(b"\n")
    }

    // Puts the letter of an event and its tablet's digit; of a tablet above 9, the last one.
    fn put_at(&mut self, letter: u8, tablet: u8)
        ensures { Puts (letter ∷ digit tablet ∷ []) self.old self.new }
    {
        self.put_byte(letter);
        self.put_byte(b'0' + tablet % 10)
    }

    // Puts an event by its two bytes, with a question mark for a kind that has no letter.
    pub fn put_event(&mut self, kind: u8, tablet: u8)
        ensures { Puts (event_text kind tablet) self.old self.new }
    {
        match Kind::try_from(kind) {
            Ok(Kind::Read) => self.put_at(b'R', tablet),
            Ok(Kind::Write) => self.put_at(b'W', tablet),
            Ok(Kind::Stabilize) => self.put(b"S"),
            Ok(Kind::Failed) => self.put(b"SF"),
            Ok(Kind::Up) => self.put_at(b'U', tablet),
            Ok(Kind::Down) => self.put_at(b'D', tablet),
            Err(_) => self.put_at(b'?', tablet),
        }
    }

    // Puts the events, which are two bytes each, and ends the line.
    pub fn put_events(&mut self, events: &[u8])
        ensures { Puts (events_text events.now) self.old self.new }
    {
        if let Some((first, later)) = events.as_chunks::<2>().0.split_first() {
            self.put_event(first[0], first[1]);
            for event in later {
                self.put(b" ");
                self.put_event(event[0], event[1]);
            }
        }
        self.put(b"\n")
    }
}
