// Listings people can type: a text of parts `routine { block }` becomes the listing of version 1.
#![tactic(auto)]

mod passing;
mod pen;
mod writer;

ghost use Rattle.std.specs.Prelude.{◌≡◌};
ghost use Rattle.listing.specs.Rules.{first_of};
ghost use Rattle.listing.specs.Inner.Found.{found};
ghost use Rattle.text.specs.Typing.{Typed, typed_says};
ghost use Rattle.text.specs.Inner.Counted.{count_rules};

use crate::pen::low;
use crate::writer::write_text;
use grammar::{Size, whole};
use listing::{Listing, Reason, put_heading};

// The version of the listing that is written.
const VERSION: usize = 1;

// The first of the refusals 5, 6 and 16 that applies to a text of so many parts and nodes and a buffer of so many bytes.
#[tactic(auto, unfolding(crate::specs::Inner::Counted::count_rules))]
fn admit(size: &Size, room: usize) -> Result<(), Reason>
    ensures { first_of (count_rules size.now room) ≡ found result }
{
    if size.parts == 0 || Listing::ROUTINES < size.parts {
        return Err(Reason::Routines);
    }
    if Listing::NODES < size.nodes {
        return Err(Reason::Nodes);
    }
    if room < Listing::HEADING + Listing::RECORD * size.nodes {
        return Err(Reason::Buffer);
    }
    Ok(())
}

// The listing of a text, at the start of a lent buffer, and its length, or the refusal. Nothing is written before all refusals are decided.
pub fn listing(text: &[u8], out: &mut [u8]) -> Result<usize, Reason>
    ensures { Typed text.now out.old (typed_says result) out.new }
{
    let size = whole(text)?;
    admit(&size, out.len())?;
    put_heading(out, VERSION, low(size.parts), low(size.nodes));
    write_text(text, out);
    Ok(Listing::HEADING + Listing::RECORD * size.nodes)
}
