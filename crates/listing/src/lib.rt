// A listing of thread routines: its limits, versions and kinds, the fields of its records, the check of its form, and the writer of its parts.
#![tactic(auto)]

mod kind;
mod reason;
mod records;
mod rules;

ghost use Rattle.std.specs.Prelude.{◌≡◌, ◌+◌, ◌*◌, ◌<◌, ◌≤◌, length};
ghost use Rattle.std.proofs.lemmas.List.Edits.{sets};
ghost use Rattle.listing.specs.Limits.{NODES, HEADING};
ghost use Rattle.listing.specs.Kinds.{is_version, kinds_of};
ghost use Rattle.listing.specs.Bytes.{version_of, record_at, heading_bytes, node_bytes};
ghost use Rattle.listing.specs.Answer.{filled};
ghost use Rattle.listing.specs.Inner.Coded.{number_of};

pub use kind::{Kind, Unlisted};
pub use reason::Reason;
pub use records::{Counts, Listing};
pub use rules::form;

// The successor of a node that has none: the format's byte, which no node has for a number.
pub const NONE: u8 = 255;

// Whether there is such a version.
pub fn is_version(version: usize) -> bool
    ensures { result ≡ is_version version }
{
    version == 1 || version == 2
}

// How many kinds, from 0 on, a version admits.
pub fn kinds_of(version: usize) -> usize
    ensures { result ≡ kinds_of version }
{
    if version == 1 { 5 } else { Kind::COUNT }
}

// The heading's version.
pub fn version(bytes: &[u8]) -> usize
    requires { HEADING ≤ length bytes.now }
    ensures { (result ≡ version_of bytes.now) × (result < 65536) }
{
    usize::from(bytes[3]) + 256 * usize::from(bytes[4])
}

// Copies `from` to the start of `to`.
pub fn copy(from: &[u8], to: &mut [u8])
    requires { length from.now ≤ length to.old }
    ensures { to.new ≡ filled from.now to.old }
{
    let n = from.len();
    to[..n].copy_from_slice(from);
}

// The heading of a listing of that version, of f routines and n nodes.
pub fn put_heading(out: &mut [u8], version: usize, f: u8, n: u8)
    requires { (version < 65536) × (HEADING ≤ length out.old) }
    ensures { out.new ≡ sets out.old 0 (heading_bytes version f n) }
{
    out[0] = b'O';
    out[1] = b'R';
    out[2] = b'D';
    out[3] = (version % 256) as u8;
    out[4] = (version / 256) as u8;
    out[5] = f;
    out[6] = n;
}

// The record of node i.
pub fn put_record(
    out: &mut [u8],
    i: usize,
    routine: u8,
    kind: Kind,
    location: usize,
    first: u8,
    second: u8,
)
    requires { (i < NODES) × (location < 65536) × (record_at (i + 1) ≤ length out.old) }
    ensures { out.new ≡ sets out.old (record_at i)
        (node_bytes (record { routine = routine; kind = number_of kind; location = location; first = first; second = second })) }
{
    let at = Listing::HEADING + Listing::RECORD * i;
    out[at] = routine;
    out[at + 1] = kind.number();
    out[at + 2] = (location % 256) as u8;
    out[at + 3] = (location / 256) as u8;
    out[at + 4] = first;
    out[at + 5] = second;
}
