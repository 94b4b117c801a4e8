// The words of a text, one after the other.
#![tactic(auto)]

mod tell;

ghost use Rattle.std.specs.Prelude.{◌≡◌, ◌≤◌, length};
ghost use Rattle.words.specs.Words.{is_blank};
ghost use Rattle.words.specs.Inner.Looking.{Ahead, Until};

use listing::Kind;

// What a word says, or that no word is left.
#[derive(Clone, Copy)]
pub enum Word {
    End,
    Routine,
    Loop,
    Either,
    Open,
    Close,
    Fence,
    Access(Kind),
    Number(u16),
    Other,
}

// A word that was found: what it says, and where it starts and ends.
#[derive(Drop)]
pub struct Found {
    pub word: Word,
    pub start: usize,
    pub end: usize,
}

#[tactic(auto, unfolding(crate::specs::Words::is_blank))]
fn is_blank(b: u8) -> bool
    ensures { result ≡ is_blank b }
{
    matches!(b, b' ' | b'\r' | b'\n')
}

// Where the first byte from `at` on stands that is a blank, or that is none; or the text's end.
fn first(s: &[u8], at: usize, blank: bool) -> usize
    requires { at ≤ length s.now }
    ensures { Until s.now at blank result }
{
    let mut places = at..s.len();
    // where none is, `start` has come to the end; said as `s.len()`, the machine code would load the blanks' mask anew for each byte
    places
        .find(|i| is_blank(s[*i]) == blank)
        .unwrap_or(places.start)
}

// The first word of the text from `at` on.
pub fn next(s: &[u8], at: usize) -> Found
    requires { at ≤ length s.now }
    ensures { Ahead s.now at result }
{
    let start = first(s, at, false);
    if s.len() <= start {
        return Found {
            word: Word::End,
            start,
            end: start,
        };
    }
    let end = first(s, start + 1, true); // the byte at `start` is no blank
    Found {
        word: tell::meaning(&s[start..end]),
        start,
        end,
    }
}
