// What lies ahead in a text is looked at before a node is written: where it leads is known once what lies between is counted.
ghost use Rattle.std.specs.Prelude.{◌≡◌};
ghost use Rattle.words.specs.Inner.Looking.{token_of};
ghost use Rattle.text.specs.Inner.Pen.{PastBlock, exit_of, makes, inside, follows, location_of, tokens};

use crate::pen::NOWHERE;
use grammar::Reader;
use words::Word;

// How many nodes a word counts for. A loop has one brace that opens, and an either two: each counts for one of its own nodes.
fn makes(word: Word) -> usize
    ensures { result ≡ makes (token_of word) }
{
    match word {
        Word::Access(_) | Word::Fence | Word::Open => 1,
        _ => 0,
    }
}

// Past the block whose `{` is next: its nodes and one more are passed.
pub fn past_block(on: &mut Reader)
    ensures { PastBlock on.old.text on.old on.new }
{
    let mut opened: usize = 0;
    loop {
        match on.look() {
            Word::End => return, // not in a good text
            Word::Close => {
                if opened <= 1 {
                    return;
                }
                opened -= 1;
            }
            Word::Open => {
                on.pass(1);
                opened += 1;
            }
            word => on.pass(makes(word)),
        }
    }
}

// The exits of the open blocks are one number, in which a level takes eight bits: a fixed array of levels would want its length beside it.
pub const LEVEL: usize = 256;

// From here on they have no room for one level more: 56 bits are seven.
const FULL: usize = 72057594037927936;

// Where the end of the innermost open block leads: its node's number and one more are the exits' last eight bits.
#[tactic(auto, unfolding(crate::specs::Inner::Pen::exit_of))]
pub fn exit(exits: usize) -> usize
    ensures { result ≡ exit_of exits }
{
    let next = exits % LEVEL;
    if next == 0 { NOWHERE } else { next - 1 }
}

// The exits with a block more, whose end leads to node `next` - 1.
#[tactic(auto, unfolding(crate::specs::Inner::Pen::inside))]
pub fn within(exits: usize, next: usize) -> usize
    ensures { result ≡ inside exits next }
{
    if exits < FULL {
        LEVEL * exits + next % LEVEL
    } else {
        exits // not in a good text
    }
}

// Where an item leads after which the reader is: to the next item, node `number`, or as its block's end does.
pub fn follow(after: &Reader, exits: usize, number: usize) -> usize
    ensures { result ≡ follows exits number (tokens after.now.text after.now.end) }
{
    match after.fork(0).look() {
        Word::Close => exit(exits),
        _ => number,
    }
}

// The location that a word says, if it says one.
pub fn location(word: Word) -> usize
    ensures { result ≡ location_of (token_of word) }
{
    match word {
        Word::Number(location) => usize::from(location),
        _ => 0,
    }
}
