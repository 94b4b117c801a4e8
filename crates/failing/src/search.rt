// The search among a listing's suspects for pairs that fail.
use listing::Listing;
use order::{Needed, Question};
use rows::Relation;
use std::marker::Model;

// A pair that fails.
#[derive(Clone, Copy, Drop)]
pub struct Found {
    pub first: usize,
    pub second: usize,
}

// A listing under a question, with the rows of its suspects and those of an RMW inside. A contract sees what is asked of which bytes.
#[derive(Drop)]
pub struct Search<'a> {
    question: Question,
    listing: &'a Listing<'a>,
    suspects: &'a Relation,
    inside: &'a Relation,
}

impl<'a> Model for Search<'a> {
    ghost use Rattle.order.specs.Inner.Asking.{asked};
    ghost use Rattle.failing.specs.Inner.Failing.{AskedOf, Prepared};

    ghost Value = { AskedOf };

    ghost view = { λ s. record { question = asked s.question; bytes = s.listing.now } };

    ghost invariant = { λ s. Prepared (asked s.question) s.listing.now s.suspects.now s.inside.now };
}

impl<'a> Search<'a> {
    ghost use Rattle.std.specs.Prelude.{◌≡◌, ◌<◌, ◌≤◌};
    ghost use Rattle.listing.specs.Limits.{NODES};
    ghost use Rattle.listing.specs.Bytes.{count_n, nodes_of};
    ghost use Rattle.order.specs.Verdict.{Fails};
    ghost use Rattle.order.specs.Inner.Asking.{asked};
    ghost use Rattle.rows.specs.Inner.Least.{LeastIfAny};
    ghost use Rattle.rows.specs.Inner.Rows.{Tells};
    ghost use Rattle.failing.specs.Inner.Failing.{Prepared, NextIfAny};

    // A search over rows that were made ready for it.
    pub fn new(
        question: Question,
        listing: &'a Listing<'a>,
        suspects: &'a Relation,
        inside: &'a Relation,
    ) -> Self
        requires { Prepared (asked question) listing.now suspects.now inside.now }
        ensures { result ≡ record { question = asked question; bytes = listing.now } }
    {
        Search {
            question,
            listing,
            suspects,
            inside,
        }
    }

    // How many nodes there are.
    pub fn nodes(&self) -> usize
        ensures { (result ≡ count_n self.now.bytes) × (result ≤ NODES) }
    {
        let listing = self.listing;
        listing.nodes()
    }

    // Whether the pair (a, b) fails.
    pub fn fails(&self, a: usize, b: usize) -> bool
        requires { (a < count_n self.now.bytes) × (b < count_n self.now.bytes) }
        ensures { Tells result (Fails self.now.question (nodes_of self.now.bytes) a b) }
    {
        let suspects = self.suspects;
        if !suspects.has(a, b) {
            return false;
        }
        let listing = self.listing;
        if order::surely(listing.location(a), listing.location(b)) {
            return false;
        }
        let inside = self.inside;
        match order::need(self.question, listing.kind(a), listing.kind(b)) {
            Needed::Never => false,
            Needed::Always => true,
            Needed::IfRmwInside => inside.has(a, b),
        }
    }

    // The least second node, from b on, of a failing pair from a.
    pub fn second(&self, a: usize, b: usize) -> Option<usize>
        requires { (a < count_n self.now.bytes) × (b ≤ count_n self.now.bytes) }
        ensures { LeastIfAny (Fails self.now.question (nodes_of self.now.bytes) a) b (count_n self.now.bytes) result }
    {
        let n = self.nodes();
        let suspects = self.suspects;
        for y in suspects.members(a, b, n) {
            if self.fails(a, y) {
                return Some(y);
            }
        }
        None
    }

    // The first failing pair from (a, b) on.
    pub fn next(&self, a: usize, b: usize) -> Option<Found>
        requires { (a ≤ count_n self.now.bytes) × (b ≤ count_n self.now.bytes) }
        ensures { NextIfAny self.now.question (nodes_of self.now.bytes) (count_n self.now.bytes) a b result }
    {
        let mut from = b;
        for first in a..self.nodes() {
            if let Some(second) = self.second(first, from) {
                return Some(Found { first, second });
            }
            from = 0;
        }
        None
    }
}
