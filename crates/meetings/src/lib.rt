// Who may meet whom: accesses whose locations overlap and live, that is, may be met by a write or an RMW.
#![tactic(auto)]

mod nodes;
mod overlaps;

ghost use Rattle.std.specs.Prelude.{◌≤◌};
ghost use Rattle.listing.specs.Bytes.{count_n, nodes_of};
ghost use Rattle.rows.specs.Inner.Rows.{Low, Holds, Members};
ghost use Rattle.meetings.specs.Inner.Meeting.{FromSome, LiveAmong, Meeting};

use listing::Listing;
pub use nodes::gather;
use rows::{Relation, Set};

// All that the rows of m have for some node of u.
#[tactic(auto, using(crate::proofs::Living::from_more, crate::proofs::Living::from_skip))]
fn pour_all(n: usize, u: &Set, m: &Relation) -> Set
    requires { (n ≤ 128) × Low n m.now }
    ensures { Members result n (FromSome u.now m.now n) }
{
    let mut s = Set::empty();
    for w in 0..n {
        if u.has(0, w) {
            s.pour(0, m, w);
        }
    }
    s
}

// Those of the accesses that overlap some writer, by the rows m.
#[tactic(auto, using(crate::proofs::Living::among_accesses))]
fn live_accesses(n: usize, accesses: &Set, writers: &Set, m: &Relation) -> Set
    requires { (n ≤ 128) × Low n m.now }
    ensures { Members result n (LiveAmong accesses.now writers.now m.now n) }
{
    let mut s = pour_all(n, writers, m);
    s.sift(0, accesses, 0);
    s
}

// Who may meet whom: of those that overlap, the accesses that live.
pub fn meet_rows(listing: &Listing, m: &mut Relation)
    ensures { Holds m.new (count_n listing.now) (Meeting (nodes_of listing.now)) }
{
    let n = listing.nodes();
    let accesses = gather(listing, order::is_access);
    let writers = gather(listing, order::is_writer);
    overlaps::overlap_rows(listing, m);
    let live = live_accesses(n, &accesses, &writers, m);
    reach::keep_rows(n, &live, m);
    reach::keep_columns(n, &live, m);
}
