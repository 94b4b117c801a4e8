// Patches: the rules of a map, judging with a map, and writing the patched listing.
#![tactic(auto)]

ghost use Rattle.std.specs.Prelude.{◌≡◌, ◌++◌, ◌≤◌, length, nat_lt, OnOk};
ghost use Rattle.std.specs.List.{position};
ghost use Rattle.listing.specs.Bytes.{nodes_of};
ghost use Rattle.listing.specs.Rules.{first_of};
ghost use Rattle.listing.specs.Inner.Found.{found};
ghost use Rattle.listing.specs.Inner.Whole.{Whole};
ghost use Rattle.order.specs.Inner.Asking.{asked};
ghost use Rattle.order.specs.Patched.{patched};
ghost use Rattle.verdict.specs.Judging.{buffer_rules, CHAIN, decided_says, judge_says, Told};
ghost use Rattle.fencing.specs.Marks.{marks_of};
ghost use Rattle.fencing.specs.Inner.MapFits.{MapFits};
ghost use Rattle.patch.specs.Patching.{map_rules, fit_rules, patch_rules, JudgePatchPromise, write_says, written_length, Writing, WritePromise};

use listing::{Listing, Reason};
use order::Question;
use verdict::Verdict;

// The index of the first byte over 1.
fn first_wrong(map: &[u8]) -> Option<usize>
    ensures { result ≡ position (λ byte. nat_lt 1 byte) map.now }
{
    map.iter().position(|byte| 1 < *byte)
}

// Rules 13 to 15.
fn check_map(listing: &Listing, map: &[u8]) -> Result<(), Reason>
    ensures { found result ≡ first_of (map_rules listing.now map.now ++ fit_rules listing.now (marks_of map.now)) }
{
    let nodes = listing.nodes();
    if map.len() != nodes {
        return Err(Reason::MapLength);
    }
    if let Some(index) = first_wrong(map) {
        return Err(Reason::MapByte { index });
    }
    if Listing::NODES < nodes + fencing::places(map) {
        return Err(Reason::Places);
    }
    Ok(())
}

// Rules 2 to 12 and 18, the listing's, and then 13 to 15, its map's. What passes has all its records.
pub fn check(bytes: &[u8], map: &[u8]) -> Result<(), Reason>
    ensures checked { found result ≡ first_of (patch_rules bytes.now map.now) }
    ensures whole { OnOk result (Whole bytes.now) }
{
    let listing = reader::listing(bytes)?;
    check_map(&listing, map)
}

// The verdict with a map that fits its listing: that of the patched listing.
fn judge_checked(question: Question, listing: &Listing, map: &[u8], chain: &mut [u8]) -> Verdict
    requires { MapFits listing.now map.now × (CHAIN ≤ length chain.old) }
    ensures { Told (asked question) (patched (nodes_of listing.now) (marks_of map.now))
        chain.old chain.new (decided_says result) }
{
    let mut written = [0u8; Listing::LONGEST];
    let length = fencing::put_patched(listing, map, &mut written);
    verdict::decide(question, &Listing::new(&written[..length]), chain)
}

// The verdict of the listing with the map's fences put in, in the old node numbers, or the first of the refusals 1 to 12, 18 and 13 to 16 that applies.
pub fn judge_patch(
    question: u64,
    bytes: &[u8],
    map: &[u8],
    chain: &mut [u8],
) -> Result<Verdict, Reason>
    ensures { JudgePatchPromise question bytes.now map.now chain.old chain.new (judge_says result) }
{
    let question = Question::try_from(question)?;
    check(bytes, map)?;
    if chain.len() < verdict::CHAIN_BYTES {
        return Err(Reason::Buffer);
    }
    Ok(judge_checked(question, &Listing::new(bytes), map, chain))
}

// Writing of a listing and a map that passed: rule 16, and then the bytes.
fn write_checked(listing: &Listing, map: &[u8], out: &mut [u8]) -> Result<usize, Reason>
    requires { MapFits listing.now map.now }
    ensures { Writing (first_of (buffer_rules (written_length listing.now map.now) out.old))
        listing.now map.now out.old out.new (write_says result) }
{
    let nodes = listing.nodes() + fencing::places(map);
    let length = Listing::HEADING + Listing::RECORD * nodes;
    if out.len() < length {
        return Err(Reason::Buffer);
    }
    fencing::put_patched(listing, map, out);
    Ok(length)
}

// The patched listing, at the start of `out`, and its length, or the first of the refusals 2 to 12, 18 and 13 to 16 that applies.
pub fn write(bytes: &[u8], map: &[u8], out: &mut [u8]) -> Result<usize, Reason>
    ensures { WritePromise bytes.now map.now out.old out.new (write_says result) }
{
    check(bytes, map)?;
    write_checked(&Listing::new(bytes), map, out)
}
