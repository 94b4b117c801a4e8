// The nodes of a good text, in text order, word by word: the exits of the open blocks are one number, eight bits a level.
ghost use Rattle.text.specs.Inner.Writer.{TextWritten};

use crate::passing::{LEVEL, follow, location, past_block, within};
use crate::pen::Pen;
use grammar::Reader;
use listing::Kind;
use words::Word;

impl Pen {
    ghost use Rattle.listing.specs.Inner.Coded.{number_of};
    ghost use Rattle.words.specs.Words.{Loop, Either, Close, Fence, Access};
    ghost use Rattle.words.specs.Inner.Looking.{token_of};
    ghost use Rattle.text.specs.Inner.Pen.{tokens};
    ghost use Rattle.text.specs.Inner.Writer.{WordAt, WordWritten};

    // An access of this kind: the next word says its location.
    fn write_access(&mut self, kind: Kind, after: &Reader, out: &mut [u8])
        requires { WordAt after.now self.old }
        ensures { WordWritten out.old out.new self.old self.new (Access (number_of kind)) (tokens after.now.text after.now.end) }
    {
        let mut on = after.fork(0);
        let place = location(on.look());
        let next = self.number + 1;
        let leads = follow(&on, self.exits, next);
        self.put_single(kind, place, leads, out);
        self.number = next;
    }

    fn write_fence(&mut self, after: &Reader, out: &mut [u8])
        requires { WordAt after.now self.old }
        ensures { WordWritten out.old out.new self.old self.new Fence (tokens after.now.text after.now.end) }
    {
        let next = self.number + 1;
        let leads = follow(after, self.exits, next);
        self.put_single(Kind::Fence, 0, leads, out);
        self.number = next;
    }

    // A loop's plain node, whose body's end leads back to it.
    fn write_loop(&mut self, after: &Reader, out: &mut [u8])
        requires { WordAt after.now self.old }
        ensures { WordWritten out.old out.new self.old self.new Loop (tokens after.now.text after.now.end) }
    {
        let mut on = after.fork(self.number);
        past_block(&mut on);
        let leads = follow(&on, self.exits, on.passed());
        let body = self.number + 1;
        self.put_plain(body, leads, out);
        self.number = body;
        self.exits = within(self.exits, body);
    }

    // An either's plain node; both blocks' ends lead to the node after them, in which they meet.
    fn write_either(&mut self, after: &Reader, out: &mut [u8])
        requires { WordAt after.now self.old }
        ensures { WordWritten out.old out.new self.old self.new Either (tokens after.now.text after.now.end) }
    {
        let mut on = after.fork(self.number);
        past_block(&mut on);
        let other = on.passed();
        past_block(&mut on);
        let meet = on.passed();
        let body = self.number + 1;
        self.put_plain(body, other, out);
        self.number = body;
        self.exits = within(self.exits, meet);
    }

    // The end of a part, of an either's second block, whose ends meet here, of a loop's body, or of an either's first block.
    fn write_close(&mut self, after: &Reader, out: &mut [u8])
        requires { WordAt after.now self.old }
        ensures { WordWritten out.old out.new self.old self.new Close (tokens after.now.text after.now.end) }
    {
        let next = self.number + 1;
        if self.exits == 0 {
            self.parts += 1;
            return;
        }
        let top = self.exits % LEVEL;
        let outer = self.exits / LEVEL;
        // the next node is the one in which an either's blocks meet
        if top == next {
            let leads = follow(after, outer, next);
            self.put_single(Kind::Plain, 0, leads, out);
            self.number = next;
            self.exits = outer;
            return;
        }
        // a loop's body leads back
        if top < next {
            self.exits = outer;
        }
    }

    // The word after which the reader is.
    fn write(&mut self, word: Word, after: &Reader, out: &mut [u8])
        requires { WordAt after.now self.old }
        ensures { WordWritten out.old out.new self.old self.new (token_of word) (tokens after.now.text after.now.end) }
    {
        match word {
            Word::Access(kind) => self.write_access(kind, after, out),
            Word::Fence => self.write_fence(after, out),
            Word::Loop => self.write_loop(after, out),
            Word::Either => self.write_either(after, out),
            Word::Close => self.write_close(after, out),
            _ => {}
        }
    }
}

// All words: part p is routine p, and its end leads nowhere.
pub fn write_text(text: &[u8], out: &mut [u8])
    ensures { TextWritten text.now out.old out.new }
{
    let mut reader = Reader::new(text);
    let mut pen = Pen {
        parts: 0,
        number: 0,
        exits: 0,
    };
    loop {
        match reader.look() {
            Word::End => return,
            word => pen.write(word, &reader, out),
        }
    }
}
