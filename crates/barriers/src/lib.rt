// Which pairs have a walk without barrier, one fence after the other.
#![tactic(auto)]

ghost use Rattle.std.specs.Prelude.{◌<◌, ◌≤◌};
ghost use Rattle.listing.specs.Bytes.{count_n, nodes_of};
ghost use Rattle.listing.specs.Inner.Coded.{number_of};
ghost use Rattle.listing.specs.Inner.Whole.{Whole};
ghost use Rattle.order.specs.Inner.Asking.{asked};
ghost use Rattle.rows.specs.Inner.Rows.{Tells, Low, Holds};
ghost use Rattle.rows.specs.Inner.Thinned.{Thinned, RowThinned};
ghost use Rattle.barriers.specs.Inner.Clear.{ClearOf, Clear, Cleared, ClearIfLooked, KeptIn, KeptOf, Nobody};

use listing::{Kind, Listing};
use meetings::gather;
use order::Question;
use rows::{Relation, Set};

// Who walks to whom with no barrier inside, for the pairs that the fence looks at.
fn clear_rows(question: Question, fence: Kind, listing: &Listing, f: &mut Relation)
    ensures clear { Holds f.new (count_n listing.now) (ClearOf (asked question) (number_of fence) (nodes_of listing.now)) }
    ensures whole { Whole listing.now }
{
    let free = gather(listing, |kind| !order::bars(question, fence, kind));
    reach::walks(listing, &free, f);
}

// Keeps of row a what f has there, and what others has.
#[tactic(auto, using(crate::proofs::Kept::row_kept))]
fn keep_row(others: &Set, f: &Relation, c: &mut Relation, a: usize)
    requires { a < 128 }
    ensures { RowThinned (KeptIn others.now f.now a) c.old c.new a }
{
    let mut s = f.row(a);
    s.pour(0, others, 0);
    c.sift(a, &s, 0);
}

// The same of the rows of firsts.
fn keep_rows(n: usize, firsts: &Set, others: &Set, f: &Relation, c: &mut Relation)
    requires { n ≤ 128 }
    ensures { Thinned (KeptOf firsts.now others.now f.now) c.old c.new n }
{
    for a in 0..n {
        if firsts.has(0, a) {
            keep_row(others, f, c, a);
        }
    }
}

// Whether none of the first n nodes is in s.
fn is_empty(n: usize, s: &Set) -> bool
    requires { n ≤ 128 }
    ensures { Tells result (Nobody s.now n) }
{
    s.next(0, 0, n).is_none()
}

// Keeps of the pairs that the fence looks at those with a walk that it does not bar, where the listing has such a fence. v is for the work.
fn keep_past(question: Question, fence: Kind, listing: &Listing, v: &mut Relation, c: &mut Relation)
    requires { Cleared (asked question) listing.now c.old }
    ensures { Thinned (ClearIfLooked (asked question) (number_of fence) (nodes_of listing.now)) c.old c.new (count_n listing.now) }
{
    let n = listing.nodes();
    let fences = gather(listing, |kind| kind.number() == fence.number());
    if is_empty(n, &fences) {
        return;
    }
    let firsts = gather(listing, |kind| order::looks_first(fence, kind));
    let others = gather(listing, |kind| !order::looks_second(fence, kind));
    clear_rows(question, fence, listing, v);
    keep_rows(n, &firsts, &others, v, c);
}

// Keeps of the pairs those with a walk that no barrier bars: past full fences, and where barriers look at the ends past load fences and
// store fences too. v is for the work: who walks to whom with no barrier inside.
pub fn keep_clear(question: Question, listing: &Listing, v: &mut Relation, c: &mut Relation)
    requires { Low (count_n listing.now) c.old }
    ensures { Thinned (Clear (asked question) (nodes_of listing.now)) c.old c.new (count_n listing.now) }
{
    clear_rows(question, Kind::Fence, listing, v);
    c.narrow(v);
    if !order::by_ends(question) {
        return;
    }
    keep_past(question, Kind::LoadFence, listing, v, c);
    keep_past(question, Kind::StoreFence, listing, v, c);
}
