// Text put into a lent buffer, piece after piece.
#![tactic(auto)]

ghost use Rattle.lines.specs.Text.{decimal};
ghost use Rattle.lines.specs.Text.{next as text_next};
ghost use Rattle.lines.specs.Text.{pair as text_pair};

// A lent buffer, and where the next piece goes.
#[derive(Drop)]
pub struct Line<'a> {
    pub buffer: &'a mut [u8],
    pub end: usize,
}

impl<'a> Line<'a> {
    ghost use Rattle.lines.specs.Inner.Growing.{Starts, HasRoom, Grows};

    // Nothing is put yet.
    pub fn new(buffer: &'a mut [u8]) -> Self
        ensures { Starts buffer.entry result }
    {
        Line { buffer, end: 0 }
    }

    // Words.
    pub fn words(&mut self, text: &[u8])
        requires { HasRoom self.old text.now }
        ensures { Grows self.old text.now self.new }
    {
        listing::copy(text, &mut self.buffer[self.end..]);
        self.end += text.len();
    }

    // A number.
    pub fn number(&mut self, n: usize)
        requires { HasRoom self.old (decimal n) }
        ensures { Grows self.old (decimal n) self.new }
    {
        let mut digits = [0u8; 20];
        let k = io::decimal(n as u64, &mut digits);
        self.words(&digits[..k]);
    }

    // A number after a space.
    pub fn next(&mut self, n: usize)
        requires { HasRoom self.old (text_next n) }
        ensures { Grows self.old (text_next n) self.new }
    {
        self.words(b" ");
        self.number(n);
    }

    // A pair after a space.
    pub fn pair(&mut self, a: usize, b: usize)
        requires { HasRoom self.old (text_pair a b) }
        ensures { Grows self.old (text_pair a b) self.new }
    {
        self.next(a);
        self.words(b"-");
        self.number(b);
    }
}
