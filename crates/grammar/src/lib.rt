// The block reader and the item reader call each other: a block loops over its items, so the stack grows with the nesting alone.
#![tactic(auto)]

mod reader;

ghost use Rattle.grammar.specs.Inner.Reader.{TextRead};

use listing::Reason;
use reader::Misplaced;
pub use reader::Reader;
use words::Word;

// `loop` and `either` count; a ninth can't stand.
pub const DEPTH: usize = 8;

// How many parts and nodes a text has.
#[derive(Drop)]
pub struct Size {
    pub parts: usize,
    pub nodes: usize,
}

// The text: how many parts and nodes it has, or where it is bad.
pub fn whole(text: &[u8]) -> Result<Size, Reason>
    ensures { TextRead text.now result }
{
    let mut reader = Reader::new(text);
    let mut parts: usize = 0;
    loop {
        match reader.look() {
            Word::End => {
                return Ok(Size {
                    parts,
                    nodes: reader.passed(),
                });
            }
            Word::Routine => match reader.block(DEPTH) {
                Ok(()) => parts += 1,
                Err(Misplaced) => return Err(reader.bad()),
            },
            _ => return Err(reader.bad()),
        }
    }
}
