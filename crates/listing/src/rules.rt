// The refusals 2 to 12: a function for each condition, and the first that applies.
ghost use Rattle.std.specs.Prelude.{◌≡◌, ◌<◌, ◌≤◌, length, OnOk};
ghost use Rattle.listing.specs.Limits.{HEADING};
ghost use Rattle.listing.specs.Bytes.{count_n};
ghost use Rattle.listing.specs.Rules.{first_of};
ghost use Rattle.listing.specs.Inner.Found.{found};
ghost use Rattle.listing.specs.Inner.Whole.{Whole};
ghost use Rattle.listing.specs.Form.{
  wrong_mark,
  heading_rules,
  wrong_routine,
  wrong_kind,
  wrong_location,
  astray,
  wrong_successor,
  wrong_order,
  node_rules,
  read_says,
  form_of,
};

use crate::{Counts, Listing, NONE, Reason, is_version, kinds_of, version};

// Rule 3.
#[tactic(auto, unfolding(crate::specs::Form::wrong_mark))]
fn wrong_mark(bytes: &[u8]) -> bool
    requires { HEADING ≤ length bytes.now }
    ensures { result ≡ wrong_mark bytes.now }
{
    bytes[0] != b'O' || bytes[1] != b'R' || bytes[2] != b'D'
}

// The first rule of the heading that refuses.
#[tactic(auto, unfolding(crate::specs::Form::heading_rules, crate::specs::Form::wrong_f))]
fn heading(bytes: &[u8]) -> Result<(), Reason>
    ensures { first_of (heading_rules bytes.now) ≡ found result }
{
    if bytes.len() < Listing::HEADING {
        return Err(Reason::Short);
    }
    if wrong_mark(bytes) {
        return Err(Reason::Mark);
    }
    if !is_version(version(bytes)) {
        return Err(Reason::Version);
    }
    let f = usize::from(bytes[5]);
    if f == 0 || Listing::ROUTINES < f {
        return Err(Reason::Routines);
    }
    let n = usize::from(bytes[6]);
    if Listing::NODES < n {
        return Err(Reason::Nodes);
    }
    if bytes.len() != Listing::HEADING + Listing::RECORD * n {
        return Err(Reason::Length);
    }
    Ok(())
}

// Rule 8.
#[tactic(auto, using(crate::proofs::Nodes::nodes_at_lem), unfolding(crate::specs::Form::wrong_routine))]
fn wrong_routine(listing: &Listing, i: usize) -> bool
    requires { i < count_n listing.now }
    ensures { result ≡ wrong_routine listing.now i }
{
    listing.routine(i) >= listing.routines()
}

// Rule 9.
#[tactic(auto, using(crate::proofs::Nodes::nodes_at_lem), unfolding(crate::specs::Form::wrong_kind))]
fn wrong_kind(listing: &Listing, i: usize) -> bool
    requires { i < count_n listing.now }
    ensures { result ≡ wrong_kind listing.now i }
{
    kinds_of(listing.version()) <= usize::from(listing.kind(i).number())
}

// Rule 10.
#[tactic(auto, using(crate::proofs::Nodes::nodes_at_lem), unfolding(crate::specs::Form::wrong_location))]
fn wrong_location(listing: &Listing, i: usize) -> bool
    requires { i < count_n listing.now }
    ensures { result ≡ wrong_location listing.now i }
{
    listing.kind(i).has_no_location() && listing.location(i) != 0
}

// Rule 11 of node i's successor x.
#[tactic(auto, using(crate::proofs::Nodes::nodes_at_lem), unfolding(crate::specs::Form::astray))]
fn strays(listing: &Listing, i: usize, x: u8) -> bool
    requires { i < count_n listing.now }
    ensures { result ≡ astray listing.now i x }
{
    if x == NONE {
        return false;
    }
    let to = usize::from(x);
    to >= listing.nodes() || listing.routine(to) != listing.routine(i)
}

// Rule 11.
#[tactic(auto, using(crate::proofs::Nodes::nodes_at_lem), unfolding(crate::specs::Form::wrong_successor))]
fn wrong_successor(listing: &Listing, i: usize) -> bool
    requires { i < count_n listing.now }
    ensures { result ≡ wrong_successor listing.now i }
{
    strays(listing, i, listing.first(i)) || strays(listing, i, listing.second(i))
}

// Rule 12.
#[tactic(auto, using(crate::proofs::Nodes::nodes_at_lem), unfolding(crate::specs::Form::wrong_order))]
fn wrong_order(listing: &Listing, i: usize) -> bool
    requires { i < count_n listing.now }
    ensures { result ≡ wrong_order listing.now i }
{
    let first = listing.first(i);
    let second = listing.second(i);
    second != NONE && (first == NONE || second <= first)
}

// The first rule of node i that refuses.
#[tactic(auto, unfolding(crate::specs::Form::node_rules))]
fn record(listing: &Listing, i: usize) -> Result<(), Reason>
    requires { i < count_n listing.now }
    ensures { first_of (node_rules listing.now i) ≡ found result }
{
    if wrong_routine(listing, i) {
        return Err(Reason::Routine { node: i });
    }
    if wrong_kind(listing, i) {
        return Err(Reason::Kind { node: i });
    }
    if wrong_location(listing, i) {
        return Err(Reason::Location { node: i });
    }
    if wrong_successor(listing, i) {
        return Err(Reason::Successor { node: i });
    }
    if wrong_order(listing, i) {
        return Err(Reason::Order { node: i });
    }
    Ok(())
}

// The counts of a listing whose form is right, which has all its records, or the first of the refusals 2 to 12 that applies.
pub fn form(bytes: &[u8]) -> Result<Counts, Reason>
    ensures says { read_says result ≡ form_of bytes.now }
    ensures whole { OnOk result (Whole bytes.now) }
{
    heading(bytes)?;
    let listing = Listing::new(bytes);
    for i in 0..listing.nodes() {
        record(&listing, i)?;
    }
    Ok(listing.counts())
}
