// The judge: the verdict of a listing under a question, with the first failing pair and its chain.
#![tactic(auto)]

mod shown;

ghost use Rattle.std.specs.Prelude.{◌≤◌, Ok, length};
ghost use Rattle.listing.specs.Bytes.{count_n, nodes_of};
ghost use Rattle.order.specs.Inner.Asking.{asked};
ghost use Rattle.failing.specs.Inner.Failing.{Prepared, NextIfAny};
ghost use Rattle.verdict.specs.Judging.{CHAIN, decided_says, judge_says, Told, JudgePromise};

use failing::{Found, Search};
use listing::{Listing, Reason};
use order::Question;
use rows::Relation;
use shown::ShownChain;

// What judging answers where nothing is refused. No `Option`: ROBUST is an answer with a name of its own.
#[derive(Drop)]
pub enum Verdict {
    Robust,
    Open {
        first: usize,
        second: usize,
        count: usize,
    },
}

// What a chain buffer must have: two bytes a pair, of one pair more than a listing has nodes.
pub const CHAIN_BYTES: usize = 2 * (Listing::NODES + 1);

// The first pair that fails, over rows that were made ready for the search. Here they are lent no longer than it takes.
fn first_failing(question: Question, listing: &Listing, c: &Relation, i: &Relation) -> Option<Found>
    requires { Prepared (asked question) listing.now c.now i.now }
    ensures { NextIfAny (asked question) (nodes_of listing.now) (count_n listing.now) 0 0 result }
{
    Search::new(question, listing, c, i).next(0, 0)
}

// The verdict of a listing whose records are all there.
pub fn decide(question: Question, listing: &Listing, chain: &mut [u8]) -> Verdict
    requires { CHAIN ≤ length chain.old }
    ensures { Told (asked question) (nodes_of listing.now) chain.old chain.new (decided_says result) }
{
    let mut p = Relation::empty();
    let mut m = Relation::empty();
    let mut c = Relation::empty();
    let mut i = Relation::empty();
    failing::prepare(question, listing, &mut p, &mut m, &mut c, &mut i);
    let Some(pair) = first_failing(question, listing, &c, &i) else {
        return Verdict::Robust;
    };
    // nobody asks for the suspects any more, so their rows serve the work
    let count = ShownChain::new(listing, &p, &m, pair).show(&mut c, chain);
    Verdict::Open {
        first: pair.first,
        second: pair.second,
        count,
    }
}

// ROBUST, or OPEN with the first failing pair and its chain, or the first of the refusals 1 to 12, 18 and 16 that applies.
pub fn judge(question: u64, bytes: &[u8], chain: &mut [u8]) -> Result<Verdict, Reason>
    ensures { JudgePromise question bytes.now chain.old chain.new (judge_says result) }
{
    let question = Question::try_from(question)?;
    let listing = reader::listing(bytes)?;
    if chain.len() < CHAIN_BYTES {
        return Err(Reason::Buffer);
    }
    Ok(decide(question, &listing, chain))
}
