// Sets of nodes, by their kinds.
ghost use Rattle.std.specs.Prelude.{ℕ, Bool, T};
ghost use Rattle.listing.specs.Bytes.{count_n, nodes_of};
ghost use Rattle.listing.specs.Inner.Whole.{Whole};
ghost use Rattle.order.specs.Walks.{kind_at};
ghost use Rattle.rows.specs.Inner.Rows.{Members};
ghost use Rattle.meetings.specs.Inner.Tested.{TestOf};

use listing::{Kind, Listing};
use rows::Set;

// The nodes of whose kinds the test says that they belong.
pub fn gather<F: Fn(Kind) -> bool>(listing: &Listing, belongs: F) -> Set
    requires { F.IsAlwaysCallable belongs }
    ensures members { (P : ℕ → Bool) → TestOf P (F.post belongs)
        → Members result (count_n listing.now) (λ c. T (P (kind_at (nodes_of listing.now) c))) }
    ensures whole { Whole listing.now }
{
    let mut s = Set::empty();
    let n = listing.nodes();
    for i in 0..n {
        if belongs(listing.kind(i)) {
            s.put(0, i);
        }
    }
    s
}
