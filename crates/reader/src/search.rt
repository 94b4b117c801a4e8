// The search along the links for the nodes that no walk from their routine's entry reaches.
ghost use Rattle.std.specs.Prelude.{◌+◌, ◌<◌, ◌≤◌, Some, None, length};
ghost use Rattle.listing.specs.Bytes.{count_n, nodes_of};
ghost use Rattle.order.specs.Entered.{Entered};
ghost use Rattle.rows.specs.Inner.Least.{LeastIfAny};
ghost use Rattle.rows.specs.Inner.Rows.{Has, Members};
ghost use Rattle.reader.specs.Inner.Search.{
  Housed,
  IsEntry,
  Seen,
  Hunt,
  Left,
  Stepped,
  Since,
};

use listing::Listing;
use rows::Set;

// Finds node a, if it is the first of its routine.
fn enter(listing: &Listing, routines: &mut Set, found: &mut Set, a: usize)
    requires { Housed listing.now × (a < count_n listing.now) × (a < 128) × Seen (nodes_of listing.now) routines.old found.old a }
    ensures { Seen (nodes_of listing.now) routines.new found.new (a + 1) }
{
    let r = usize::from(listing.routine(a));
    if routines.has(0, r) {
        return;
    }
    routines.put(0, r);
    found.put(0, a);
}

// The entries of all routines.
fn entries(listing: &Listing) -> Set
    requires { Housed listing.now }
    ensures { Members result (count_n listing.now) (IsEntry (nodes_of listing.now)) }
{
    let n = listing.nodes();
    let mut routines = Set::empty();
    let mut found = Set::empty();
    for a in 0..n {
        enter(listing, &mut routines, &mut found, a);
    }
    found
}

// Finds b, if it is a node that was not found, and says so by its number.
// It takes the count and not the listing, since a caller that puts the node somewhere needs the bound on it too.
fn step(n: usize, found: &mut Set, b: u8) -> Option<usize>
    requires { n ≤ 128 }
    ensures { Stepped n found.old found.new b result }
{
    let y = usize::from(b);
    if n <= y || found.has(0, y) {
        return None;
    }
    found.put(0, y);
    Some(y)
}

// Finds b, if it is a node that was not found, and leaves it to be followed.
fn leave(n: usize, found: &mut Set, waiting: &mut Set, b: u8)
    requires { n ≤ 128 }
    ensures { Left n found.old waiting.old found.new waiting.new b }
{
    if let Some(y) = step(n, found, b) {
        waiting.put(0, y);
    }
}

// Follows first successors from a on, as long as they were not found; second ones are left.
fn trail(listing: &Listing, found: &mut Set, waiting: &mut Set, a: usize)
    requires { Housed listing.now × Hunt (nodes_of listing.now) (count_n listing.now) found.old waiting.old (Some a) }
    ensures { Hunt (nodes_of listing.now) (count_n listing.now) found.new waiting.new None
        × Since found.old waiting.old found.new waiting.new }
{
    let n = listing.nodes();
    let mut next = Some(a);
    while let Some(at) = next {
        leave(n, found, waiting, listing.second(at));
        next = step(n, found, listing.first(at));
    }
}

// All that walks from the entries reach, where found has the entries.
fn follow(listing: &Listing, found: &mut Set)
    requires { Housed listing.now × Members found.old (count_n listing.now) (IsEntry (nodes_of listing.now)) }
    ensures { Members found.new (count_n listing.now) (Entered (nodes_of listing.now)) }
{
    let n = listing.nodes();
    // What is found and not followed yet.
    let mut waiting = found.row(0);
    while let Some(a) = waiting.next(0, 0, n) {
        waiting.take_out(0, a);
        trail(listing, found, &mut waiting, a);
    }
}

// The least node that is not found, if any is not.
fn missing(n: usize, found: &Set) -> Option<usize>
    requires { n ≤ 128 }
    ensures { LeastIfAny (λ a. Has found.now 0 a → ⊥) 0 n result }
{
    (0..n).find(|a| !found.has(0, *a))
}

// The least node that is neither its routine's entry nor reached from it, if there is one.
pub fn first_dead(listing: &Listing) -> Option<usize>
    requires { Housed listing.now }
    ensures { LeastIfAny (λ a. Entered (nodes_of listing.now) a → ⊥) 0 (count_n listing.now) result }
{
    let mut found = entries(listing);
    follow(listing, &mut found);
    missing(listing.nodes(), &found)
}
