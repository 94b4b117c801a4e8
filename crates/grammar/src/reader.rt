// A reader goes through a text word by word, and counts the nodes that it passes.
ghost use Rattle.grammar.specs.Inner.Reader.{Deeper};

use listing::Reason;
use std::marker::Model;
use words::{Word, next};

// The word looked at last can't stand where it is, or the text breaks off there. It has no place of its own: a level takes little of the
// stack, and the reader has the place.
#[derive(Clone, Copy)]
pub(super) struct Misplaced;

// The levels left one level deeper, if there is one.
fn deeper(depth: usize) -> Result<usize, Misplaced>
    ensures { Deeper depth result }
{
    depth.checked_sub(1).ok_or(Misplaced)
}

// Where the word looked at last starts and ends, and how many nodes were passed.
#[derive(Drop)]
pub struct Reader<'a> {
    text: &'a [u8],
    start: usize,
    end: usize,
    passed: usize,
}

impl<'a> Model for Reader<'a> {
    ghost use Rattle.std.specs.Prelude.{◌≤◌, length};
    ghost use Rattle.grammar.specs.Inner.Reader.{Cursor, cursor};

    ghost Value = { Cursor };

    ghost view = { λ r. cursor r.text.now r.start r.end r.passed };

    ghost invariant = { λ r. (r.end ≤ length r.text.now) × (r.passed ≤ r.end) };
}

impl<'a> Reader<'a> {
    ghost use Rattle.std.specs.Prelude.{◌≡◌, ◌+◌, ◌≤◌, length};
    ghost use Rattle.listing.specs.declared.reason.Reason.TheVariants.{Text};
    ghost use Rattle.grammar.specs.Inner.Reader.{cursor, Looked, Passed, Met, IsOpen, IsNumber, ItemAhead, ItemRead, BlockRead};

    // Nothing of the text was looked at yet.
    pub fn new(text: &'a [u8]) -> Self
        ensures { result ≡ cursor text.now 0 0 0 }
    {
        Reader {
            text,
            start: 0,
            end: 0,
            passed: 0,
        }
    }

    // A reader of its own from the same place on, which counts on from so many nodes.
    pub fn fork(&self, passed: usize) -> Self
        requires { passed ≤ self.now.end }
        ensures { result ≡ cursor self.now.text self.now.start self.now.end passed }
    {
        Reader {
            text: self.text,
            start: self.start,
            end: self.end,
            passed,
        }
    }

    // How many nodes were passed.
    pub fn passed(&self) -> usize
        ensures { result ≡ self.now.passed }
    {
        self.passed // so far
    }

    // The refusal of a text that is bad at the word looked at last.
    pub(super) fn bad(&self) -> Reason
        ensures { result ≡ Text self.now.start }
    {
        Reason::Text { at: self.start }
    }

    // The next word.
    pub fn look(&mut self) -> Word
        ensures { Looked self.old.text self.old self.new result }
    {
        let found = next(self.text, self.end);
        self.start = found.start;
        self.end = found.end;
        found.word
    }

    // So many nodes are passed; none without a byte.
    pub fn pass(&mut self, nodes: usize)
        requires { self.old.passed + nodes ≤ self.old.end }
        ensures { Passed self.old nodes self.new }
    {
        self.passed += nodes;
    }

    // The next word, which must be a location. Not inlined, here and below, so that what it says stays off the stack of the levels.
    #[inline(never)]
    fn location(&mut self) -> Result<(), Misplaced>
        ensures { Met IsNumber self.old.text self.old self.new result }
    {
        match self.look() {
            Word::Number(_) => Ok(()),
            _ => Err(Misplaced),
        }
    }

    // The next word, which must be a block's `{`.
    #[inline(never)]
    fn brace(&mut self) -> Result<(), Misplaced>
        ensures { Met IsOpen self.old.text self.old self.new result }
    {
        match self.look() {
            Word::Open => Ok(()),
            _ => Err(Misplaced),
        }
    }

    // The item whose first word, the one looked at last, is this.
    #[cycle(block_item)]
    #[tactic(auto, using(crate::proofs::Items::items))]
    fn item(&mut self, word: Word, depth: usize) -> Result<(), Misplaced>
        requires { ItemAhead self.old.text word self.old }
        ensures { ItemRead self.old.text word depth self.old self.new result }
    {
        match word {
            Word::Access(_) => {
                self.pass(1);
                self.location()
            }
            Word::Fence => {
                self.pass(1);
                Ok(())
            }
            // A loop is one block, an either two.
            Word::Loop => {
                let inside = deeper(depth)?;
                self.pass(1);
                self.block(inside)
            }
            Word::Either => {
                let inside = deeper(depth)?;
                self.pass(2);
                self.block(inside)?;
                self.block(inside)
            }
            _ => Err(Misplaced),
        }
    }

    // The block whose `{` is next.
    #[cycle(block_item)]
    pub(super) fn block(&mut self, depth: usize) -> Result<(), Misplaced>
        ensures { BlockRead self.old.text depth self.old self.new result }
    {
        self.brace()?;
        let mut word = self.look();
        if let Word::Close = word {
            return Err(Misplaced); // no block is empty
        }
        loop {
            self.item(word, depth)?;
            word = self.look();
            if let Word::Close = word {
                return Ok(());
            }
        }
    }
}
