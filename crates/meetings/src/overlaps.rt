// Whose locations overlap, row by row.
ghost use Rattle.std.specs.Prelude.{◌<◌, ◌≤◌};
ghost use Rattle.listing.specs.Bytes.{count_n, nodes_of};
ghost use Rattle.rows.specs.Inner.Rows.{Holds};
ghost use Rattle.rows.specs.Inner.Growing.{RowGrown, RowsDone};
ghost use Rattle.meetings.specs.Inner.Meeting.{Overlapping, TwinIfAny};

use listing::Listing;
use rows::Relation;

// The nodes whose locations overlap a's, into row a of m.
fn fill_row(listing: &Listing, m: &mut Relation, a: usize)
    requires { a < count_n listing.now }
    ensures { RowGrown (Overlapping (nodes_of listing.now)) m.old m.new a (count_n listing.now) }
{
    let n = listing.nodes();
    let x = listing.location(a);
    for b in 0..n {
        if order::overlap(x, listing.location(b)) {
            m.put(a, b);
        }
    }
}

// How far back a node at the same location is looked for.
const NEAR: usize = 32;

// An earlier node with a's location, where one is near.
fn twin(listing: &Listing, a: usize) -> Option<usize>
    requires { a < count_n listing.now }
    ensures { TwinIfAny (nodes_of listing.now) a result }
{
    let x = listing.location(a);
    (a.saturating_sub(NEAR)..a).find(|b| listing.location(*b) == x)
}

// The nodes whose locations overlap a's, into row a of m: copied from a node at the same location where one is near.
fn overlap_row(listing: &Listing, m: &mut Relation, a: usize)
    requires { (a < count_n listing.now) × (count_n listing.now ≤ 128) × RowsDone (Overlapping (nodes_of listing.now)) m.old a (count_n listing.now) }
    ensures { RowGrown (Overlapping (nodes_of listing.now)) m.old m.new a (count_n listing.now) }
{
    match twin(listing, a) {
        Some(b) => m.or_row(a, b),
        None => fill_row(listing, m, a),
    }
}

// Whose locations overlap.
pub fn overlap_rows(listing: &Listing, m: &mut Relation)
    ensures { Holds m.new (count_n listing.now) (Overlapping (nodes_of listing.now)) }
{
    m.clear();
    let n = listing.nodes();
    for a in 0..n {
        overlap_row(listing, m, a);
    }
}
