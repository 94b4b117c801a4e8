// The walks of a listing, as rows of bits, and the relations that are put together from rows: closures, compositions, restrictions.
#![tactic(auto)]

ghost use Rattle.std.specs.Prelude.{◌<◌, ◌≤◌};
ghost use Rattle.rows.specs.Inner.Rows.{Vouches, Holds, Low};
ghost use Rattle.rows.specs.Inner.Growing.{RowGrown};
ghost use Rattle.reach.specs.Inner.Whole.{Through, Then, Converse, StartsIn, EndsIn, Among, Stays, Passed, Turning};
ghost use Rattle.reach.specs.Inner.Links.{Linked, Walked, Calm, Pulled, Settled, Begun};
ghost use Rattle.listing.specs.Bytes.{count_n, nodes_of};
ghost use Rattle.order.specs.Walks.{Succ};

use listing::Listing;
use rows::{Relation, Set};

// Lets k lie inside: whoever reaches k reaches all that k reaches.
#[tactic(auto, using(crate::proofs::Rounds::passed_skip, crate::proofs::Rounds::passed_or))]
fn pass(n: usize, w: &mut Relation, k: usize)
    requires { (n ≤ 128) × (k < n) }
    ensures { Passed w.old w.new n k }
{
    for a in 0..n {
        if w.has(a, k) {
            w.or_row(a, k);
        }
    }
}

// Turns links into walks that only nodes of m lie inside of.
#[tactic(auto, using(crate::proofs::Trails::trails_skip, crate::proofs::Trails::trails_pass, crate::proofs::Trails::trails_all))]
pub fn close(n: usize, m: &Set, w: &mut Relation)
    requires { (n ≤ 128) × Low n w.old }
    ensures { Holds w.new n (Through n w.old m.now) }
{
    for k in 0..n {
        if m.has(0, k) {
            pass(n, w, k);
        }
    }
}

// Puts b into row a, if b is a node.
fn link(n: usize, w: &mut Relation, a: usize, b: u8)
    requires { (n ≤ 128) × (a < n) }
    ensures { Linked w.old w.new n a b }
{
    let y = usize::from(b);
    if y < n {
        w.put(a, y);
    }
}

// The links of a listing.
fn links(listing: &Listing, w: &mut Relation)
    ensures { Holds w.new (count_n listing.now) (Succ (nodes_of listing.now)) }
{
    let n = listing.nodes();
    w.clear();
    for a in 0..n {
        link(n, w, a, listing.first(a));
        link(n, w, a, listing.second(a));
    }
}

// Puts what b reaches into row a, if b is a node of m.
#[tactic(auto, using(crate::proofs::Sweeps::pulled_or))]
fn pull(n: usize, m: &Set, w: &mut Relation, a: usize, b: u8)
    requires { (n ≤ 128) × (a < n) }
    ensures { Pulled m.now w.old w.new n a b }
{
    let y = usize::from(b);
    if n <= y {
        return;
    }
    if !m.has(0, y) {
        return;
    }
    w.or_row(a, y);
}

// Puts into each row, from the last to the first, what its node's successors in m reach.
fn sweep(listing: &Listing, m: &Set, w: &mut Relation)
    requires { Begun (nodes_of listing.now) m.now w.old (count_n listing.now) }
    ensures { Begun (nodes_of listing.now) m.now w.new (count_n listing.now) }
{
    let n = listing.nodes();
    for a in (0..n).rev() {
        pull(n, m, w, a, listing.first(a));
        pull(n, m, w, a, listing.second(a));
    }
}

// Whether row a has all that b reaches, if b is a node of m.
fn calm(n: usize, m: &Set, w: &Relation, a: usize, b: u8) -> bool
    requires { (n ≤ 128) × (a < n) }
    ensures { Vouches result (Calm m.now w.now n a b) }
{
    let y = usize::from(b);
    if n <= y {
        return true;
    }
    if !m.has(0, y) {
        return true;
    }
    w.within(y, a)
}

// Whether every row has all that its node's successors in m reach, so that no sweep would add anything.
fn settled(listing: &Listing, m: &Set, w: &Relation) -> bool
    ensures { Vouches result (Settled (nodes_of listing.now) m.now w.now (count_n listing.now)) }
{
    let n = listing.nodes();
    for a in 0..n {
        if !calm(n, m, w, a, listing.first(a)) {
            return false;
        }
        if !calm(n, m, w, a, listing.second(a)) {
            return false;
        }
    }
    true
}

// How often walks are swept for before the rows are closed: a walk needs one sweep more for each link that leads back.
const SWEEPS: usize = 8;

// The walks of a listing that only nodes of m lie inside of.
#[tactic(auto, using(listing::proofs::Nodes::nodes_length, crate::proofs::Sweeps::settled_walks, crate::proofs::Sweeps::closed_walks))]
pub fn walks(listing: &Listing, m: &Set, w: &mut Relation)
    ensures { Holds w.new (count_n listing.now) (Walked (nodes_of listing.now) m.now) }
{
    let n = listing.nodes();
    links(listing, w);
    for _ in 0..SWEEPS {
        sweep(listing, m, w);
        if settled(listing, m, w) {
            return;
        }
    }
    close(n, m, w);
}

// Puts into row x of v what is two steps away, by r and then by w.
fn compose_row(n: usize, r: &Relation, w: &Relation, v: &mut Relation, x: usize)
    requires { (n ≤ 128) × (x < n) × Low n w.now }
    ensures { RowGrown (Then n r.now w.now) v.old v.new x n }
{
    for c in r.members(x, 0, n) {
        v.pour(x, w, c);
    }
}

// All that is two steps away, by r and then by w. Equal rows of r give equal rows.
pub fn compose(n: usize, r: &Relation, w: &Relation, v: &mut Relation)
    requires { (n ≤ 128) × Low n r.now × Low n w.now }
    ensures { Holds v.new n (Then n r.now w.now) }
{
    v.clear();
    for x in 0..n {
        let y = r.earlier(x);
        if y < x {
            v.or_row(x, y);
        } else {
            compose_row(n, r, w, v, x);
        }
    }
}

// Puts a into each row of v that row a of w names.
fn turn_row(n: usize, w: &Relation, v: &mut Relation, a: usize)
    requires { (n ≤ 128) × (a < n) }
    ensures { Turning w.now v.old v.new a n }
{
    for b in w.members(a, 0, n) {
        v.put(b, a);
    }
}

// The relation turned round.
pub fn turn(n: usize, w: &Relation, v: &mut Relation)
    requires { (n ≤ 128) × Low n w.now }
    ensures { Holds v.new n (Converse w.now) }
{
    v.clear();
    for a in 0..n {
        turn_row(n, w, v, a);
    }
}

// Keeps what ends in s.
pub fn keep_columns(n: usize, s: &Set, w: &mut Relation)
    requires { (n ≤ 128) × Low n w.old }
    ensures { Holds w.new n (EndsIn s.now w.old) }
{
    for a in 0..n {
        w.sift(a, s, 0);
    }
}

// Keeps what starts in s.
pub fn keep_rows(n: usize, s: &Set, w: &mut Relation)
    requires { (n ≤ 128) × Low n w.old }
    ensures { Holds w.new n (StartsIn s.now w.old) }
{
    for a in 0..n {
        if !s.has(0, a) {
            w.empty_row(a);
        }
    }
}

// Keeps what starts and ends in s.
pub fn restrict(n: usize, s: &Set, w: &mut Relation)
    requires { (n ≤ 128) × Low n w.old }
    ensures { Holds w.new n (Among s.now w.old) }
{
    keep_columns(n, s, w);
    keep_rows(n, s, w);
}

// What ends in s, into v.
pub fn columns(n: usize, s: &Set, w: &Relation, v: &mut Relation)
    requires { (n ≤ 128) × Low n w.now }
    ensures { Holds v.new n (EndsIn s.now w.now) }
{
    v.clear();
    for a in 0..n {
        v.pour(a, w, a);
        v.sift(a, s, 0);
    }
}

// Puts each node into its own row: no step at all leads there.
pub fn stay(n: usize, w: &mut Relation)
    requires { (n ≤ 128) × Low n w.old }
    ensures { Holds w.new n (Stays w.old) }
{
    for a in 0..n {
        w.put(a, a);
    }
}
