// Reading a listing: the check of its form, and then the search for a node that nothing enters.
#![tactic(auto)]

mod search;

ghost use Rattle.std.specs.Prelude.{◌≡◌, IfOk};
ghost use Rattle.listing.specs.Form.{read_says, listing_says};
ghost use Rattle.reader.specs.Read.{read_of};

use listing::{Counts, Listing, Reason};

// The listing that the bytes are, or the first of the refusals 2 to 12 and 18 that applies.
pub fn listing(bytes: &[u8]) -> Result<Listing<'_>, Reason>
    ensures says { listing_says result ≡ read_of bytes.now }
    ensures same { IfOk result (λ l. l ≡ bytes.now) }
{
    listing::form(bytes)?;
    let listing = Listing::new(bytes);
    match search::first_dead(&listing) {
        Some(node) => Err(Reason::Unentered { node }),
        None => Ok(listing),
    }
}

// Its counts, or the same refusal: an answer that keeps nothing of the bytes.
pub fn read(bytes: &[u8]) -> Result<Counts, Reason>
    ensures { read_says result ≡ read_of bytes.now }
{
    Ok(listing(bytes)?.counts())
}
