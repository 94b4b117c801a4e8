// Relations on at most 128 nodes as rows of bits, two 64-bit words a row; a set of nodes is one row.
#![tactic(auto)]

ghost use Rattle.std.specs.Prelude.{◌≡◌, ◌+◌, ◌-◌, ◌*◌, ◌<◌, ◌≤◌, length, bit_and, bit_or};
ghost use Rattle.std.specs.Iterator.{at_most};
ghost use Rattle.rows.specs.Inner.Least.{Least, LeastIfAny};
ghost use Rattle.rows.specs.Inner.Nodes.{Coming, coming, Gives};
ghost use Rattle.rows.specs.Inner.Rows.{Tells, Vouches, IsSet, low_word, high_word, with_words, Has, Blank, Meet};
ghost use Rattle.rows.specs.Inner.Touched.{
  Added,
  Removed,
  Poured,
  Sifted,
  Emptied,
  Copied,
  Covers,
  Alike,
  Earlier,
  Common,
};

use listing::Listing;
use std::marker::Model;
use std::ops::{BitAnd, BitOr};

// The words of a relation: two a node, of as many nodes as a listing has at the most.
pub const WORDS: usize = 2 * Listing::NODES;

// Rows of bits in N words. A contract sees the words alone.
#[derive(Clone, Copy, PartialEq, Eq, Drop)]
pub struct Rows<const N: usize> {
    words: [u64; N],
}

impl<const N: usize> Model for Rows<N> {
    ghost use Rattle.std.specs.Prelude.{◌≡◌, List, ℕ, length};

    ghost Value = { List ℕ };

    ghost view = { λ r. r.words };

    ghost invariant = { λ r. length r.words ≡ N };

    ghost inverse = { λ w. record { words = w } };
}

// The rows that these words are.
impl<const N: usize> From<[u64; N]> for Rows<N> {
    ghost from_gives = { λ words rows. rows ≡ words };

    fn from(words: [u64; N]) -> Self {
        Rows { words }
    }
}

// A set of nodes: one row. How many nodes there are goes beside it as a number: five relations would keep it five times.
pub type Set = Rows<2>;

// A relation: a row a node.
pub type Relation = Rows<WORDS>;

// The two words of a row: of the nodes below 64, and of those from 64 on.
#[derive(Clone, Copy, PartialEq, Eq, Drop)]
struct Row {
    low: u64,
    high: u64,
}

impl Row {
    // The row of no nodes.
    const EMPTY: Row = Row { low: 0, high: 0 };
}

impl BitOr for Row {
    type Output = Row;

    ghost bitor_gives = { λ x y r. (r.low ≡ bit_or x.low y.low) × (r.high ≡ bit_or x.high y.high) };

    fn bitor(self, other: Row) -> Row {
        Row {
            low: self.low | other.low,
            high: self.high | other.high,
        }
    }
}

impl BitAnd for Row {
    type Output = Row;

    ghost bitand_gives = { λ x y r. (r.low ≡ bit_and x.low y.low) × (r.high ≡ bit_and x.high y.high) };

    fn bitand(self, other: Row) -> Row {
        Row {
            low: self.low & other.low,
            high: self.high & other.high,
        }
    }
}

// The least bit of x from b on, or 64 where there is none. No `Option` here and in `next`: `min` takes a number, and so judging is quicker.
fn lowest(x: u64, b: usize) -> usize
    requires { b < 64 }
    ensures { Least (IsSet x) b 64 result }
{
    let y = x >> b;
    if y == 0 {
        return 64;
    }
    b + y.trailing_zeros() as usize
}

// Whether b stands in row a of the words w. This and `next` take any words that are lent, so `Nodes` needs no N.
pub fn has(w: &[u64], a: usize, b: usize) -> bool
    requires { (2 * a + 1 < length w.now) × (b < 128) }
    ensures { Tells result (Has w.now a b) }
{
    let i = 2 * a + b / 64;
    w[i] & (1u64 << (b % 64)) != 0
}

// The least node of row a of the words w from b on and below n, or n where it has none.
pub fn next(w: &[u64], a: usize, b: usize, n: usize) -> usize
    requires { (2 * a + 1 < length w.now) × (b ≤ n) × (n ≤ 128) }
    ensures { Least (Has w.now a) b n result }
{
    if n <= b {
        return n;
    }
    if has(w, a, b) {
        return b;
    }
    if 64 <= b {
        return (lowest(w[2 * a + 1], b - 64) + 64).min(n);
    }
    let r = lowest(w[2 * a], b);
    if r < 64 {
        return r.min(n);
    }
    (lowest(w[2 * a + 1], 0) + 64).min(n)
}

// Takes b out of row a of the words w.
pub fn take_out(w: &mut [u64], a: usize, b: usize)
    requires { (2 * a + 1 < length w.old) × (b < 128) }
    ensures { Removed w.old w.new a b }
{
    let i = 2 * a + b / 64;
    w[i] &= !(1u64 << (b % 64));
}

// How far back a row that is the same is looked for.
const NEAR: usize = 12;

impl<const N: usize> Rows<N> {
    // Rows that have nothing.
    pub fn empty() -> Self
        ensures blank { Blank result }
        ensures long { length result ≡ N }
    {
        Rows { words: [0; N] }
    }

    // All words: an array, whose type tells a caller how many there are, as a contract on rows does not.
    pub fn words(&self) -> [u64; N]
        ensures { result ≡ self.now }
    {
        let Rows { words } = *self;
        words
    }

    // The words of row a.
    fn of(&self, a: usize) -> Row
        requires { 2 * a + 1 < N }
        ensures low { result.low ≡ low_word self.now a }
        ensures high { result.high ≡ high_word self.now a }
    {
        Row {
            low: self.words[2 * a],
            high: self.words[2 * a + 1],
        }
    }

    // Makes these the words of row a.
    fn store(&mut self, a: usize, row: Row)
        requires { 2 * a + 1 < N }
        ensures stored { self.new ≡ with_words self.old a row.low row.high }
        ensures long { length self.old ≡ N }
    {
        self.words[2 * a] = row.low;
        self.words[2 * a + 1] = row.high;
    }

    // Whether b stands in row a.
    pub fn has(&self, a: usize, b: usize) -> bool
        requires { (2 * a + 1 < N) × (b < 128) }
        ensures { Tells result (Has self.now a b) }
    {
        has(&self.words, a, b)
    }

    // Puts b into row a.
    pub fn put(&mut self, a: usize, b: usize)
        requires { (2 * a + 1 < N) × (b < 128) }
        ensures { Added self.old self.new a b }
    {
        let i = 2 * a + b / 64;
        self.words[i] |= 1u64 << (b % 64);
    }

    // Takes b out of row a.
    pub fn take_out(&mut self, a: usize, b: usize)
        requires { (2 * a + 1 < N) × (b < 128) }
        ensures { Removed self.old self.new a b }
    {
        take_out(&mut self.words, a, b);
    }

    // Puts row k into row a.
    pub fn or_row(&mut self, a: usize, k: usize)
        requires { (2 * a + 1 < N) × (2 * k + 1 < N) }
        ensures { Poured self.old self.old self.new a k }
    {
        let both = self.of(a) | self.of(k);
        self.store(a, both);
    }

    // Puts row k of u into row a. This isn't `or_row` too: rows that are lent for writing can't be lent as u beside.
    pub fn pour<const M: usize>(&mut self, a: usize, u: &Rows<M>, k: usize)
        requires { (2 * a + 1 < N) × (2 * k + 1 < M) }
        ensures { Poured u.now self.old self.new a k }
    {
        let both = self.of(a) | u.of(k);
        self.store(a, both);
    }

    // Keeps of row a what row k of u has too. One function over the operator, for this and `pour`, would be no plainer.
    pub fn sift<const M: usize>(&mut self, a: usize, u: &Rows<M>, k: usize)
        requires { (2 * a + 1 < N) × (2 * k + 1 < M) }
        ensures { Sifted u.now self.old self.new a k }
    {
        let both = self.of(a) & u.of(k);
        self.store(a, both);
    }

    // Empties row a.
    pub fn empty_row(&mut self, a: usize)
        requires { 2 * a + 1 < N }
        ensures { Emptied self.old self.new a }
    {
        self.store(a, Row::EMPTY);
    }

    // Empties every row.
    pub fn clear(&mut self)
        ensures { Blank self.new }
    {
        self.words.fill(0);
    }

    // Whether row a and row z of s have a node in common.
    pub fn meet<const M: usize>(&self, a: usize, s: &Rows<M>, z: usize) -> bool
        requires { (2 * a + 1 < N) × (2 * z + 1 < M) }
        ensures { Tells result (Meet self.now a s.now z) }
    {
        self.of(a) & s.of(z) != Row::EMPTY
    }

    // The least node of row a from b on and below n, if there is one.
    pub fn next(&self, a: usize, b: usize, n: usize) -> Option<usize>
        requires { (2 * a + 1 < N) × (b ≤ n) × (n ≤ 128) }
        ensures { LeastIfAny (Has self.now a) b n result }
    {
        self.members(a, b, n).next()
    }

    // The nodes of row a from b on and below n, in order.
    pub fn members(&self, a: usize, b: usize, n: usize) -> Nodes<'_>
        requires { (2 * a + 1 < N) × (b ≤ n) × (n ≤ 128) }
        ensures { result ≡ coming self.now a b n }
    {
        Nodes {
            words: &self.words,
            a,
            place: b,
            n,
        }
    }

    // Keeps what f has too. No `zip` with f: of what is written through one a proof knows the length alone.
    pub fn narrow(&mut self, f: &Self)
        ensures { Common f.now self.old self.new }
    {
        for (i, x) in self.words.iter_mut().enumerate() {
            *x &= f.words[i];
        }
    }

    // Whether row a has all that row k has.
    pub fn within(&self, k: usize, a: usize) -> bool
        requires { (2 * a + 1 < N) × (2 * k + 1 < N) }
        ensures { Vouches result (Covers self.now a k) }
    {
        let whole = self.of(k);
        whole & self.of(a) == whole
    }

    // One of the rows before row x that is the same, or x where none that is near is. No `Option`: one test, `y < x`, is as plain as a `match`.
    pub fn earlier(&self, x: usize) -> usize
        requires { 2 * x + 1 < N }
        ensures { Earlier self.now x result }
    {
        let row = self.of(x);
        (x.saturating_sub(NEAR)..x)
            .find(
                |y|
                    requires { 2 * y.now + 1 < N }
                    ensures { Vouches result ((row.low ≡ low_word self.entry.now y.now) × (row.high ≡ high_word self.entry.now y.now)) }
                { self.of(*y) == row },
            )
            .unwrap_or(x)
    }

    // Row a, as a set.
    pub fn row(&self, a: usize) -> Set
        requires { 2 * a + 1 < N }
        ensures { Copied self.now a result }
    {
        let row = self.of(a);
        Rows {
            words: [row.low, row.high],
        }
    }
}

// The nodes of a row that are still to be given: those from a place on and below n.
#[derive(Drop)]
pub struct Nodes<'a> {
    words: &'a [u64],
    a: usize,
    place: usize,
    n: usize,
}

impl<'a> Model for Nodes<'a> {
    ghost Value = { Coming };

    ghost view = { λ s. coming s.words.now s.a s.place s.n };

    ghost invariant = { λ s. (2 * s.a + 1 < length s.words.now) × (s.place ≤ s.n) × (s.n ≤ 128) };
}

impl<'a> Iterator for Nodes<'a> {
    type Item = usize;

    ghost next_gives = { Gives };

    ghost remaining = { λ s. at_most (s.n - s.place) };

    fn next(&mut self) -> Option<usize> {
        let r = next(self.words, self.a, self.place, self.n);
        if r < self.n {
            self.place = r + 1;
            return Some(r);
        }
        self.place = r;
        None
    }
}
