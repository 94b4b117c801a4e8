// The pen puts nodes into a lent buffer as records.
ghost use Rattle.std.specs.Prelude.{◌≡◌, ◌<◌};

use listing::{Kind, Listing, NONE, put_record};

// No node, as a number that a node leads to: the tree's nodes (`nodes_of`) say it so, larger than any node, and an Option would not be.
pub const NOWHERE: usize = NONE as usize;

// A number as a byte, where it is one.
pub fn low(x: usize) -> u8
    ensures { x < 256 → result ≡ x }
{
    u8::try_from(x).unwrap_or(NONE)
}

// How many parts are written, the next node's number, and the exits of the open loops and eithers.
#[derive(Drop)]
pub struct Pen {
    pub parts: usize,
    pub number: usize,
    pub exits: usize,
}

impl Pen {
    ghost use Rattle.std.specs.Prelude.{[], ◌∷◌, ◌<◌};
    ghost use Rattle.listing.specs.Inner.Coded.{number_of};
    ghost use Rattle.grammar.specs.Tree.{made, plain};
    ghost use Rattle.text.specs.Inner.Records.{WroteNodes, alone};

    // The next node, if the buffer has room for it.
    fn put(&self, kind: Kind, location: usize, first: usize, second: usize, out: &mut [u8])
        requires { location < 65536 }
        ensures { WroteNodes out.old out.new self.now.number (made self.now.parts (number_of kind) location first second ∷ []) }
    {
        let n = self.number;
        if Listing::NODES <= n {
            return;
        }
        if out.len() < Listing::HEADING + Listing::RECORD * (n + 1) {
            return;
        }
        put_record(
            out,
            n,
            low(self.parts),
            kind,
            location,
            low(first),
            low(second),
        );
    }

    // The next node leads to `to` alone.
    pub fn put_single(&self, kind: Kind, location: usize, to: usize, out: &mut [u8])
        requires { location < 65536 }
        ensures { WroteNodes out.old out.new self.now.number (alone self.now.parts (number_of kind) location to) }
    {
        self.put(kind, location, to, NOWHERE, out);
    }

    // The next node is plain and leads to a and b: of two successors the smaller is written first.
    pub fn put_plain(&self, a: usize, b: usize, out: &mut [u8])
        ensures { WroteNodes out.old out.new self.now.number (plain self.now.parts a b ∷ []) }
    {
        if a < b {
            self.put(Kind::Plain, 0, a, b, out);
        } else {
            self.put(Kind::Plain, 0, b, a, out);
        }
    }
}
