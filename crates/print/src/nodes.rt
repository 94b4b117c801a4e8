// A listing for a person: a line a node.
ghost use Rattle.std.specs.Prelude.{◌<◌};
ghost use Rattle.listing.specs.Bytes.{count_n};

use crate::{explained_for, text};
use listing::{Kind, Listing};
use std::io;
use std::io::Write;

// The first number that names a block of cells.
const BLOCKS: usize = 32768;

// A node's kind, and what an access reaches.
fn kind<W: Write>(to: &mut W, kind: Kind, location: usize) -> io::Result<()> {
    write!(to, "{kind}")?;
    if kind.has_no_location() {
        return Ok(());
    }
    match location {
        0 => text(to, b" unknown"),
        1..BLOCKS => write!(to, " cell {location}"),
        _ => write!(to, " block {location}"),
    }
}

fn successors<W: Write>(to: &mut W, first: u8, second: u8) -> io::Result<()> {
    if first == listing::NONE {
        return text(to, b"end");
    }
    write!(to, "then {first}")?;
    if second == listing::NONE {
        return Ok(());
    }
    write!(to, " or {second}")
}

fn node<W: Write>(to: &mut W, listing: &Listing, i: usize) -> io::Result<()>
    requires { i < count_n listing.now }
{
    let routine = listing.routine(i);
    write!(to, "node {i}: routine {routine}, ")?;
    kind(to, listing.kind(i), listing.location(i))?;
    text(to, b", ")?;
    successors(to, listing.first(i), listing.second(i))?;
    text(to, b"\n")
}

fn nodes<W: Write>(to: &mut W, listing: &Listing) -> io::Result<()> {
    let n = listing.nodes();
    if n == 0 {
        return text(to, b"no node\n");
    }
    for i in 0..n {
        node(to, listing, i)?;
    }
    Ok(())
}

// A line a node, or why the listing is refused.
pub fn shown<W: Write>(to: &mut W, bytes: &[u8]) -> io::Result<()> {
    match reader::listing(bytes) {
        Ok(listing) => nodes(to, &listing),
        Err(reason) => explained_for(to, reason),
    }
}
