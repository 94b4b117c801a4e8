// A listing of as many nodes as there may be.
ghost use Rattle.std.specs.Prelude.{◌≡◌, length};
ghost use Rattle.listing.specs.Limits.{NODES};
ghost use Rattle.listing.specs.Bytes.{record_at};

use listing::{Kind, Listing};

// As many, for a heading.
pub const FULL: u8 = Listing::NODES as u8;

// As many writes of unknown cells in a ring, under a heading of version 1 that says n.
// The format's cases have the like for plain nodes: no plainer as one function, which both programs would need a library and a promise for.
// Under questions 2 and 3 each is the first node of a failing pair.
pub fn put_full(out: &mut [u8; Listing::LONGEST], n: u8)
    ensures { record_at NODES ≡ length out.new }
{
    listing::put_heading(&mut *out, 1, 1, n);
    for i in 0..Listing::NODES {
        let next = (i + 1) % Listing::NODES;
        listing::put_record(&mut *out, i, 0, Kind::Write, 0, next as u8, listing::NONE);
    }
}
