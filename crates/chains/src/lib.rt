// Shortest courses of hops and pairs over rows of bits, and the least of them: what follows a pair on the chain to show.
#![tactic(auto)]

ghost use Rattle.std.specs.Prelude.{◌≡◌, ◌+◌, ◌*◌, ◌<◌, ◌≤◌, length};
ghost use Rattle.rows.specs.Inner.Rows.{Tells, Members, Link};
ghost use Rattle.rows.specs.Inner.Least.{LeastIfAny};
ghost use Rattle.chains.specs.Inner.Far.{unreached, Far, Goal};
ghost use Rattle.chains.specs.Inner.Courses.{Sought, ShownCourse};
ghost use Rattle.chains.specs.Inner.Levels.{Starts, Started, AtDistance, Into, Hits, Swept};
ghost use Rattle.chains.specs.Inner.Descent.{Mid, End, Downhill, Wrote, Descent};

use listing::Listing;
use rows::{Relation, Set};

// What stands for the distance of a node that has no path. A byte a node, and no `Option<u8>`: memory is fixed, and a row of those takes twice as much.
const UNREACHED: u8 = 255;

// The nodes at distance r.
fn level(n: usize, d: &[u8; Listing::NODES], r: u8) -> Set
    requires { n ≤ 128 }
    ensures { Members result n (AtDistance d.now r) }
{
    let mut s = Set::empty();
    for y in 0..n {
        if d[y] == r {
            s.put(0, y);
        }
    }
    s
}

// Gives x the distance r + 1, if it has none and steps to a node of s: whether it did.
fn visit(w: &Relation, s: &Set, d: &mut [u8], x: usize, r: u8) -> bool
    requires { (x < 128) × (x < length d.old) × (r + 1 < unreached) }
    ensures { Swept (Into w.now s.now) x (x + 1) d.old d.new r result }
{
    if d[x] != UNREACHED || !w.meet(x, s, 0) {
        return false;
    }
    d[x] = r + 1;
    true
}

// The same at every node: whether any was given its distance. No `any`, which stops at the first, and of what a closure writes a proof knows nothing.
fn sweep(n: usize, w: &Relation, s: &Set, d: &mut [u8; Listing::NODES], r: u8) -> bool
    requires { (n ≤ 128) × (r + 1 < unreached) }
    ensures { Swept (Into w.now s.now) 0 n d.old d.new r result }
{
    let mut found = false;
    for x in 0..n {
        found |= visit(w, s, d, x, r);
    }
    found
}

// Gives the distance r + 1 to all that have none and step to one at distance r: whether there were any.
fn round(n: usize, w: &Relation, d: &mut [u8; Listing::NODES], r: u8) -> bool
    requires { (n ≤ 128) × (r + 1 < unreached) }
    ensures { Swept (Hits n w.now d.old r) 0 n d.old d.new r result }
{
    let s = level(n, d, r);
    sweep(n, w, &s, d, r)
}

// 0 for a goal, and no distance for others.
fn start(n: usize, t: &Set, x: usize) -> u8
    requires { x < 128 }
    ensures { Starts n t.now x result }
{
    if x < n && t.has(0, x) { 0 } else { UNREACHED }
}

// The same at every node.
fn mark(n: usize, t: &Set, d: &mut [u8; Listing::NODES])
    ensures { Started n t.now d.new }
{
    for (x, far) in d.iter_mut().enumerate() {
        *far = start(n, t, x);
    }
}

// The least number of steps from each node to a node of t; UNREACHED where there is no path.
pub fn distances(n: usize, w: &Relation, t: &Set, d: &mut [u8; Listing::NODES])
    requires { n ≤ 128 }
    ensures { Far n (Link n w.now) (Goal n t.now) d.new }
{
    mark(n, t, d);
    // No `for`: what ends the rounds is one that finds nothing, and no number that is known before.
    let mut r = 0;
    while round(n, w, d, r) {
        r += 1;
    }
}

// The steps of courses among the first n nodes: hops by m, and pairs by w.
#[derive(Clone, Copy, Drop)]
struct Steps<'a> {
    n: usize,
    m: &'a Relation,
    w: &'a Relation,
    ghost few: { n ≤ 128 },
}

impl Steps<'_> {
    // The least node that x hops to and that has a pair into s.
    fn first_mid(&self, s: &Set, x: usize) -> Option<usize>
        requires { x < self.now.n }
        ensures { LeastIfAny (Mid self.now.m.now self.now.w.now s.now x) 0 self.now.n result }
    {
        let Steps { n, m, w } = *self;
        m.members(x, 0, n).find(|c| w.meet(*c, s, 0))
    }

    // The least node of s that c has a pair to.
    fn first_end(&self, s: &Set, c: usize) -> Option<usize>
        requires { c < self.now.n }
        ensures { LeastIfAny (End self.now.w.now s.now c) 0 self.now.n result }
    {
        let Steps { n, w, .. } = *self;
        w.members(c, 0, n).find(|y| s.has(0, *y))
    }

    // Goes down from x by the least pairs, as many as asked for, into the front of out.
    fn descend(&self, d: &[u8; Listing::NODES], x: usize, pairs: u8, out: &mut [u8])
        requires { Downhill self.now.n self.now.m.now self.now.w.now d.now out.old x pairs }
        ensures { Descent self.now.n self.now.m.now self.now.w.now d.now out.old out.new x pairs }
    {
        let mut at = x;
        for i in 0..pairs {
            let s = level(self.n, d, pairs - 1 - i);
            let c = self.first_mid(&s, at).unwrap();
            let y = self.first_end(&s, c).unwrap();
            write_pair(out, 2 * usize::from(i), c as u8, y as u8);
            at = y;
        }
    }
}

// Writes a pair at i. No plainer by chunks of two: how many pairs there are is counted already.
fn write_pair(out: &mut [u8], i: usize, c: u8, y: u8)
    requires { i + 1 < length out.old }
    ensures { Wrote out.old out.new i c y }
{
    out[i] = c;
    out[i + 1] = y;
}

// The least of the shortest courses from x to a node of t, hops by m, pairs by w, into the front of out: how many pairs it has. v and d are for the work.
// Eight parameters: what is lent for the work has no other fact in common with what is asked.
pub fn chain(
    n: usize,
    m: &Relation,
    w: &Relation,
    t: &Set,
    x: usize,
    v: &mut Relation,
    d: &mut [u8; Listing::NODES],
    out: &mut [u8],
) -> usize
    requires { Sought n m.now w.now t.now out.old x }
    ensures { ShownCourse n m.now w.now t.now out.old out.new x result }
{
    reach::compose(n, m, w, v);
    distances(n, v, t, d);
    let r = d[x];
    Steps { n, m, w }.descend(d, x, r, out);
    usize::from(r)
}
