// Which pairs lie on a chain: those whose second access leads back to their first.
ghost use Rattle.std.specs.Prelude.{◌<◌, ◌≤◌};
ghost use Rattle.listing.specs.Bytes.{count_n, nodes_of};
ghost use Rattle.order.specs.Walks.{Pair};
ghost use Rattle.rows.specs.Inner.Rows.{Holds};
ghost use Rattle.rows.specs.Inner.Growing.{RowGrown};
ghost use Rattle.meetings.specs.Inner.Meeting.{Meeting};
ghost use Rattle.suspects.specs.Inner.Back.{RowBack};
ghost use Rattle.suspects.specs.Inner.Suspect.{OnChain};

use listing::Listing;
use meetings::gather;
use rows::Relation;

// The pairs from a whose end meets a node of row a of h, into row a of w.
fn back_row(n: usize, p: &Relation, m: &Relation, h: &Relation, w: &mut Relation, a: usize)
    requires { (n ≤ 128) × (a < n) }
    ensures { RowGrown (RowBack p.now m.now h.now) w.old w.new a n }
{
    for b in p.members(a, 0, n) {
        if m.meet(b, h, a) {
            w.put(a, b);
        }
    }
}

// The same from every node.
fn back_rows(n: usize, p: &Relation, m: &Relation, h: &Relation, w: &mut Relation)
    requires { n ≤ 128 }
    ensures { Holds w.new n (RowBack p.now m.now h.now) }
{
    w.clear();
    for a in 0..n {
        back_row(n, p, m, h, w, a);
    }
}

// The pairs on a chain. h is for the work: who leads back to whom. w keeps the pairs turned round before.
pub fn chain_rows(listing: &Listing, p: &Relation, m: &Relation, h: &mut Relation, w: &mut Relation)
    requires { Holds p.now (count_n listing.now) (Pair (nodes_of listing.now))
        × Holds m.now (count_n listing.now) (Meeting (nodes_of listing.now)) }
    ensures { Holds w.new (count_n listing.now) (OnChain (nodes_of listing.now)) }
{
    let n = listing.nodes();
    let every = gather(listing, |_| true);
    reach::turn(n, p, w);
    reach::compose(n, m, w, h);
    reach::close(n, &every, h);
    reach::stay(n, h);
    back_rows(n, p, m, h, w);
}
