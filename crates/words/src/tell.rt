// What a word says: a thing by itself, an access, a location, or nothing that a text has.
ghost use Rattle.std.specs.Prelude.{◌≡◌};
ghost use Rattle.words.specs.Words.{same};
ghost use Rattle.words.specs.Inner.Telling.{SaysWord, location_of};

use crate::Word;
use listing::Kind;

// How many digits a location has at most, and the largest one.
const DIGITS: usize = 5;

const FARTHEST: usize = 65535;

// The location that a word says, if it says one.
#[tactic(auto, using(crate::proofs::Digits::digits))]
fn location(w: &[u8]) -> Option<u16>
    ensures { result ≡ location_of w.now }
{
    if w.is_empty() {
        return None;
    }
    if DIGITS < w.len() {
        return None;
    }
    let mut n: usize = 0;
    for b in w {
        if !b.is_ascii_digit() {
            return None;
        }
        n = 10 * n + usize::from(b - b'0');
        if FARTHEST < n {
            return None;
        }
    }
    Some(n as u16)
}

// The word w is the word t. `==` says it too, but stays a call, and saves registers at each word.
fn same(w: &[u8], t: &[u8]) -> bool
    ensures { result ≡ same w.now t.now }
{
    w.len() == t.len() && w.iter().zip(t).all(|(a, b)| a == b)
}

// What a word says. A `match` on the spellings proves its arms too, but not the last: it has as many ways in as there are bytes to differ.
#[tactic(auto, using(crate::proofs::Telling::telling), unfolding(crate::specs::Words::meaning))]
pub fn meaning(w: &[u8]) -> Word
    ensures { SaysWord w.now result }
{
    if same(w, b"routine") {
        return Word::Routine;
    }
    if same(w, b"loop") {
        return Word::Loop;
    }
    if same(w, b"either") {
        return Word::Either;
    }
    if same(w, b"{") {
        return Word::Open;
    }
    if same(w, b"}") {
        return Word::Close;
    }
    if same(w, b"f") {
        return Word::Fence;
    }
    if same(w, b"r") {
        return Word::Access(Kind::Read);
    }
    if same(w, b"w") {
        return Word::Access(Kind::Write);
    }
    if same(w, b"u") {
        return Word::Access(Kind::Rmw);
    }
    match location(w) {
        Some(n) => Word::Number(n),
        None => Word::Other,
    }
}
