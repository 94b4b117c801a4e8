// Failing pairs: the rows that tell them, one test a pair, and the search for the next one that fails.
#![tactic(auto)]

mod search;

ghost use Rattle.listing.specs.Bytes.{nodes_of};
ghost use Rattle.order.specs.Inner.Asking.{asked};
ghost use Rattle.order.specs.Verdict.{Robust};
ghost use Rattle.rows.specs.Inner.Rows.{Tells};
ghost use Rattle.failing.specs.Inner.Failing.{Laid};

use listing::Listing;
use order::Question;
use rows::Relation;
pub use search::{Found, Search};

// The rows of a listing under a question: its pairs, who meets whom, the suspects, and where an RMW is inside. They are lent one by one, since
// each may serve other work as soon as its last reader is done.
pub fn prepare(
    question: Question,
    listing: &Listing,
    p: &mut Relation,
    m: &mut Relation,
    c: &mut Relation,
    i: &mut Relation,
)
    ensures { Laid (asked question) listing.now p.new m.new c.new i.new }
{
    suspects::suspects(question, listing, p, m, c, i);
    let mut v = Relation::empty();
    suspects::exchanged_rows(listing, p, &mut v, i);
}

// Whether no pair fails.
pub fn robust(question: Question, listing: &Listing) -> bool
    ensures { Tells result (Robust (asked question) (nodes_of listing.now)) }
{
    let mut p = Relation::empty();
    let mut m = Relation::empty();
    let mut c = Relation::empty();
    let mut i = Relation::empty();
    prepare(question, listing, &mut p, &mut m, &mut c, &mut i);
    Search::new(question, listing, &c, &i).next(0, 0).is_none()
}
