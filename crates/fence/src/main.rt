// Reads a question, one byte, and a listing from standard input, and writes the listing with the proposed fences put in.
// No plainer by say::answer: what it writes is no line, and is written in two ways.
#![tactic(auto)]

ghost use Rattle.std.specs.Prelude.{◌≤◌};
ghost use Rattle.listing.specs.Limits.{NODES};

use listing::{Listing, Reason};
use std::io;
use std::io::Write;

// How long a listing's map is.
fn map_length(bytes: &[u8]) -> usize
    ensures { result ≤ NODES }
{
    reader::listing(bytes).map_or(0, |listing| listing.nodes())
}

// The patched listing's bytes, or the refusal line.
fn write<W: Write>(to: &mut W, bytes: &[u8], map: &[u8]) -> io::Result<()> {
    let mut out = [0u8; Listing::LONGEST];
    match patch::write(bytes, map, &mut out) {
        Ok(length) => print::text(to, &out[..length]),
        Err(reason) => print::refused_for(to, reason),
    }
}

fn fence<W: Write>(to: &mut W, question: u64, bytes: &[u8]) -> io::Result<()> {
    let mut map = [0u8; Listing::NODES];
    match proposal::propose(question, bytes, &mut map) {
        Ok(_) => write(to, bytes, &map[..map_length(bytes)]),
        Err(reason) => print::refused_for(to, reason),
    }
}

fn main(rt: HostRuntime) -> io::Result<()> {
    let mut input = say::room();
    let n = streams::read_full(&mut rt.stdin(), &mut input)?;
    let mut out = rt.stdout();
    match input[..n].split_first() {
        Some((question, bytes)) => fence(&mut out, u64::from(*question), bytes),
        None => print::refused_for(&mut out, Reason::Question),
    }
}
