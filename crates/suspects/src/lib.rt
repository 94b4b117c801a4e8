// The suspects among the pairs of a listing, as rows of bits: all of the failing-pair test that does not depend on one pair.
#![tactic(auto)]

mod back;

ghost use Rattle.listing.specs.Bytes.{count_n, nodes_of};
ghost use Rattle.listing.specs.Inner.Whole.{Whole};
ghost use Rattle.order.specs.Inner.Asking.{asked};
ghost use Rattle.order.specs.Walks.{Pair};
ghost use Rattle.rows.specs.Inner.Rows.{Holds};
ghost use Rattle.suspects.specs.Inner.Suspect.{Reaches, Exchanged, Ready};

use listing::{Kind, Listing};
use meetings::gather;
use order::Question;
use rows::Relation;

// Who reaches whom.
fn reach_rows(listing: &Listing, w: &mut Relation)
    ensures { Holds w.new (count_n listing.now) (Reaches (nodes_of listing.now)) }
{
    let every = gather(listing, |_| true);
    reach::walks(listing, &every, w);
}

// The pairs: who reaches whom, among accesses.
fn pair_rows(listing: &Listing, p: &mut Relation)
    ensures pairs { Holds p.new (count_n listing.now) (Pair (nodes_of listing.now)) }
    ensures whole { Whole listing.now }
{
    let accesses = gather(listing, order::is_access);
    reach_rows(listing, p);
    reach::restrict(listing.nodes(), &accesses, p);
}

// Between which accesses some walk has an RMW inside. v is for the work: the pairs whose second node is an RMW.
pub fn exchanged_rows(listing: &Listing, p: &Relation, v: &mut Relation, i: &mut Relation)
    requires { Holds p.now (count_n listing.now) (Pair (nodes_of listing.now)) }
    ensures { Holds i.new (count_n listing.now) (Exchanged (nodes_of listing.now)) }
{
    let n = listing.nodes();
    let rmws = gather(listing, |kind| matches!(kind, Kind::Rmw));
    reach::columns(n, &rmws, p, v);
    reach::compose(n, v, p, i);
}

// The pairs, who meets whom, and the suspects: the pairs on a chain with a walk that no barrier bars. i is for the work: it keeps who leads back
// to whom, and then the walks without barrier.
#[tactic(auto, using(crate::proofs::Suspected::suspects_hold))]
pub fn suspects(
    question: Question,
    listing: &Listing,
    p: &mut Relation,
    m: &mut Relation,
    c: &mut Relation,
    i: &mut Relation,
)
    ensures ready { Ready (asked question) listing.now p.new m.new c.new }
    ensures whole { Whole listing.now }
{
    pair_rows(listing, p);
    meetings::meet_rows(listing, m);
    back::chain_rows(listing, p, m, i, c);
    barriers::keep_clear(question, listing, i, c);
}
