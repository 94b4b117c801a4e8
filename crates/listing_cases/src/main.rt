// The format's own cases: what the reader answers to each, one line a case.
#![tactic(auto)]

ghost use Rattle.std.specs.Prelude.{◌≡◌, ◌+◌, length};
ghost use Rattle.listing.specs.Limits.{NODES};
ghost use Rattle.listing.specs.Bytes.{record_at};

use listing::{Kind, Listing};
use std::io;
use std::io::Write;

// The bytes of a listing with a node too many.
const TOO_LONG: usize = Listing::LONGEST + Listing::RECORD;

// What the reader answers to a case.
fn case<W: Write>(to: &mut W, name: &str, bytes: &[u8]) -> io::Result<()> {
    match reader::read(bytes) {
        Ok(counts) => writeln!(to, "{name}: GOOD {} {}", counts.nodes, counts.routines),
        Err(reason) => writeln!(to, "{name}: REFUSED {} {}", reason.number(), reason.place()),
    }
}

// A case is its name and its bytes.
fn cases<W: Write>(to: &mut W, cases: &[(&str, &[u8])]) -> io::Result<()> {
    for (name, bytes) in cases {
        case(to, name, bytes)?;
    }
    Ok(())
}

// Heading: length, mark, version and counts.
const HEADINGS: [(&str, &[u8]); 15] = [
    ("empty input", b""),
    ("six bytes", b"ORD\x01\x00\x01"),
    ("no node", b"ORD\x01\x00\x01\x00"),
    ("mark ARD", b"ARD\x01\x00\x01\x00"),
    ("mark OAD", b"OAD\x01\x00\x01\x00"),
    ("mark ORA", b"ORA\x01\x00\x01\x00"),
    ("version 0", b"ORD\x00\x00\x01\x00"),
    ("version 2", b"ORD\x02\x00\x01\x00"),
    ("version 3", b"ORD\x03\x00\x01\x00"),
    ("version 257", b"ORD\x01\x01\x01\x00"),
    ("F = 0", b"ORD\x01\x00\x00\x00"),
    ("F = 16", b"ORD\x01\x00\x10\x00"),
    ("F = 17", b"ORD\x01\x00\x11\x00"),
    (
        "one byte too few",
        b"ORD\x01\x00\x01\x01\x00\x00\x00\x00\xFF",
    ),
    (
        "one byte too many",
        b"ORD\x01\x00\x01\x01\x00\x00\x00\x00\xFF\xFF\x00",
    ),
];

// One record of either version: the kinds that it admits, and which of them have a location.
const VERSIONS: [(&str, &[u8]); 5] = [
    (
        "kind 9 in version 2",
        b"ORD\x02\x00\x01\x01\x00\x09\x01\x00\xFF\xFF",
    ),
    (
        "kind 10 in version 2",
        b"ORD\x02\x00\x01\x01\x00\x0A\x00\x00\xFF\xFF",
    ),
    (
        "load fence with a location, version 1",
        b"ORD\x01\x00\x01\x01\x00\x07\x01\x00\xFF\xFF",
    ),
    (
        "load fence with a location, version 2",
        b"ORD\x02\x00\x01\x01\x00\x07\x01\x00\xFF\xFF",
    ),
    (
        "store fence with a location, version 2",
        b"ORD\x02\x00\x01\x01\x00\x08\x00\x80\xFF\xFF",
    ),
];

// One record: routine, kind and location.
const RECORDS: [(&str, &[u8]); 7] = [
    (
        "one plain node",
        b"ORD\x01\x00\x01\x01\x00\x00\x00\x00\xFF\xFF",
    ),
    (
        "routine = F",
        b"ORD\x01\x00\x01\x01\x01\x00\x00\x00\xFF\xFF",
    ),
    ("kind 5", b"ORD\x01\x00\x01\x01\x00\x05\x00\x00\xFF\xFF"),
    (
        "plain node with a location",
        b"ORD\x01\x00\x01\x01\x00\x00\x01\x00\xFF\xFF",
    ),
    (
        "fence with a block",
        b"ORD\x01\x00\x01\x01\x00\x04\x00\x80\xFF\xFF",
    ),
    (
        "write to a block",
        b"ORD\x01\x00\x01\x01\x00\x02\x00\x80\xFF\xFF",
    ),
    (
        "routine = F, kind 5",
        b"ORD\x01\x00\x01\x01\x01\x05\x00\x00\xFF\xFF",
    ),
];

// One record: its successors.
const SUCCESSORS: [(&str, &[u8]); 6] = [
    (
        "a node that succeeds itself",
        b"ORD\x01\x00\x01\x01\x00\x00\x00\x00\x00\xFF",
    ),
    ("first = N", b"ORD\x01\x00\x01\x01\x00\x00\x00\x00\x01\xFF"),
    ("second = N", b"ORD\x01\x00\x01\x01\x00\x00\x00\x00\x00\x01"),
    (
        "second = N without a first",
        b"ORD\x01\x00\x01\x01\x00\x00\x00\x00\xFF\x01",
    ),
    (
        "second without a first",
        b"ORD\x01\x00\x01\x01\x00\x00\x00\x00\xFF\x00",
    ),
    (
        "second = first",
        b"ORD\x01\x00\x01\x01\x00\x00\x00\x00\x00\x00",
    ),
];

// Two records: which node is named, and which rule.
const TWO_RECORDS: [(&str, &[u8]); 6] = [
    (
        "two successors",
        b"ORD\x01\x00\x01\x02\x00\x00\x00\x00\x00\x01\x00\x00\x00\x00\xFF\xFF",
    ),
    (
        "second < first",
        b"ORD\x01\x00\x01\x02\x00\x00\x00\x00\x01\x00\x00\x00\x00\x00\xFF\xFF",
    ),
    (
        "successor in another routine",
        b"ORD\x01\x00\x02\x02\x00\x00\x00\x00\x01\xFF\x01\x00\x00\x00\xFF\xFF",
    ),
    (
        "successor with a bad routine",
        b"ORD\x01\x00\x01\x02\x00\x00\x00\x00\x01\xFF\x07\x00\x00\x00\xFF\xFF",
    ),
    (
        "bad routine at node 1",
        b"ORD\x01\x00\x01\x02\x00\x00\x00\x00\xFF\xFF\x07\x00\x00\x00\xFF\xFF",
    ),
    (
        "second without a first at node 0, bad routine at node 1",
        b"ORD\x01\x00\x01\x02\x00\x00\x00\x00\xFF\x00\x07\x00\x00\x00\xFF\xFF",
    ),
];

// Nodes that walks from their routine's entry reach, and nodes that none does.
const ENTRIES: [(&str, &[u8]); 7] = [
    (
        "cut off",
        b"ORD\x01\x00\x01\x02\x00\x02\x01\x00\xFF\xFF\x00\x02\x02\x00\xFF\xFF",
    ),
    (
        "a loop that nothing enters",
        b"ORD\x01\x00\x01\x03\x00\x02\x01\x00\xFF\xFF\x00\x02\x02\x00\x02\xFF\x00\x01\x02\x00\x01\xFF",
    ),
    (
        "numbered backward",
        b"ORD\x01\x00\x01\x02\x00\x01\x01\x00\xFF\xFF\x00\x02\x02\x00\x00\xFF",
    ),
    (
        "entered from above",
        b"ORD\x01\x00\x01\x03\x00\x02\x01\x00\x02\xFF\x00\x01\x02\x00\xFF\xFF\x00\x02\x02\x00\x01\xFF",
    ),
    (
        "two routines",
        b"ORD\x01\x00\x02\x03\x00\x02\x01\x00\xFF\xFF\x01\x02\x02\x00\xFF\xFF\x00\x01\x02\x00\xFF\xFF",
    ),
    (
        "the lowest of two",
        b"ORD\x01\x00\x01\x04\x00\x00\x00\x00\x03\xFF\x00\x02\x01\x00\x02\xFF\x00\x02\x02\x00\xFF\xFF\x00\x01\x01\x00\xFF\xFF",
    ),
    (
        "cut off, and a second without a first after it",
        b"ORD\x01\x00\x01\x03\x00\x02\x01\x00\xFF\xFF\x00\x02\x02\x00\xFF\xFF\x00\x01\x01\x00\xFF\x00",
    ),
];

const CASE_A: &[u8] =
    b"ORD\x01\x00\x02\x04\x00\x02\x01\x00\x01\xFF\x00\x01\x02\x00\xFF\xFF\x01\x02\x02\x00\x03\xFF\x01\x01\x01\x00\xFF\xFF";

// Plain nodes of one routine in a ring, as many as a listing may have, under a heading of version 1 that says n.
// No plainer as one function with that of the rehearsed cases (crates/cases): both programs would need a library and a promise for it.
fn put_plain(out: &mut [u8; TOO_LONG], n: u8)
    ensures { record_at (NODES + 1) ≡ length out.new }
{
    listing::put_heading(&mut *out, 1, 1, n);
    for i in 0..Listing::NODES {
        let next = (i + 1) % Listing::NODES;
        listing::put_record(&mut *out, i, 0, Kind::Plain, 0, next as u8, listing::NONE);
    }
}

fn sizes<W: Write>(to: &mut W) -> io::Result<()> {
    let mut bytes = [0u8; TOO_LONG];
    put_plain(&mut bytes, 128);
    case(to, "128 nodes", &bytes[..Listing::LONGEST])?;
    put_plain(&mut bytes, 129);
    case(to, "129 nodes", &bytes)
}

fn main(rt: HostRuntime) -> io::Result<()> {
    let mut out = rt.stdout();
    cases(&mut out, &HEADINGS)?;
    cases(&mut out, &RECORDS)?;
    cases(&mut out, &VERSIONS)?;
    cases(&mut out, &SUCCESSORS)?;
    cases(&mut out, &TWO_RECORDS)?;
    cases(&mut out, &ENTRIES)?;
    case(&mut out, "case A", CASE_A)?;
    sizes(&mut out)
}
