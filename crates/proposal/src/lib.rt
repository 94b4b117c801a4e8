// Proposing a map: a fence after the first node of every failing pair.
#![tactic(auto)]

ghost use Rattle.std.specs.Prelude.{◌<◌, ◌≤◌, length};
ghost use Rattle.listing.specs.Bytes.{count_n, nodes_of};
ghost use Rattle.listing.specs.Rules.{passed, first_of};
ghost use Rattle.fencing.specs.Marks.{marks_of};
ghost use Rattle.failing.specs.Inner.Failing.{Prepared};
ghost use Rattle.order.specs.Inner.Asking.{asked};
ghost use Rattle.patch.specs.Patching.{propose_says, offer_rules, Offered, Proposing, ProposePromise};
ghost use Rattle.proposal.specs.Inner.Marking.{MarkOf, Marked, Drawn};

use failing::Search;
use listing::{Listing, Reason};
use order::Question;
use rows::Relation;

// 1 where a is the first node of a failing pair, and 0 where it is none.
fn mark_of(search: &Search, a: usize) -> u8
    requires { a < count_n search.now.bytes }
    ensures { MarkOf search.now.question (nodes_of search.now.bytes) a result }
{
    u8::from(search.second(a, 0).is_some())
}

// The mark of each node, at the start of `marks`.
fn draw(search: &Search, marks: &mut [u8])
    requires { count_n search.now.bytes ≤ length marks.old }
    ensures { Marked search.now.question (nodes_of search.now.bytes) marks.new (count_n search.now.bytes) }
{
    for a in 0..search.nodes() {
        let mark = mark_of(search, a);
        marks[a] = mark;
    }
}

// The same over rows that were made ready for the search. Here they are lent no longer than it takes.
fn draw_over(question: Question, listing: &Listing, c: &Relation, i: &Relation, marks: &mut [u8])
    requires { Prepared (asked question) listing.now c.now i.now × (count_n listing.now ≤ length marks.old) }
    ensures { Marked (asked question) (nodes_of listing.now) marks.new (count_n listing.now) }
{
    draw(&Search::new(question, listing, c, i), marks);
}

// The map that was drawn up, into the map buffer: rules 15 and 16, and then its bytes.
fn offer(listing: &Listing, marks: &[u8], map: &mut [u8]) -> Result<usize, Reason>
    requires { Drawn listing.now marks.now }
    ensures { Offered (first_of (offer_rules listing.now (marks_of marks.now) map.old))
        (marks_of marks.now) map.old map.new (propose_says result) }
{
    let n = listing.nodes();
    let places = fencing::places(marks);
    let nodes = n + places;
    if Listing::NODES < nodes {
        return Err(Reason::Places);
    }
    if map.len() < n {
        return Err(Reason::Buffer);
    }
    listing::copy(marks, map);
    Ok(places)
}

// The proposal for a listing whose records are all there.
fn propose_for(question: Question, listing: &Listing, map: &mut [u8]) -> Result<usize, Reason>
    ensures { Proposing passed (asked question) listing.now map.old map.new (propose_says result) }
{
    let mut p = Relation::empty();
    let mut m = Relation::empty();
    let mut c = Relation::empty();
    let mut i = Relation::empty();
    let mut marks = [0u8; Listing::NODES];
    failing::prepare(question, listing, &mut p, &mut m, &mut c, &mut i);
    draw_over(question, listing, &c, &i, &mut marks);
    offer(listing, &marks[..listing.nodes()], map)
}

// A map, and how many fences it asks for, or the first of the refusals 1 to 12, 18, 15 and 16 that applies.
pub fn propose(question: u64, bytes: &[u8], map: &mut [u8]) -> Result<usize, Reason>
    ensures { ProposePromise question bytes.now map.old map.new (propose_says result) }
{
    let question = Question::try_from(question)?;
    let listing = reader::listing(bytes)?;
    propose_for(question, &listing, map)
}
