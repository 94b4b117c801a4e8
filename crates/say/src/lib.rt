// Answers as lines of text, the same for every program.
#![tactic(auto)]

mod line;
mod program;
mod refuses;

ghost use Rattle.std.specs.Prelude.{◌≡◌, length};
ghost use Rattle.io.specs.Counts.{IsPrefixLen};
ghost use Rattle.say.specs.Lines.{JudgeLinePromise, ProposeLinePromise};
ghost use Rattle.say.specs.Lines.{INPUT as Lines-as-INPUT};

pub use line::{judged, proposed, refusal, refused, refused_for, told, unasked};
use listing::Listing;
pub use program::answer;
pub use refuses::{Refused, Refuses};
use verdict::CHAIN_BYTES;

// A question, the longest listing, and one byte more: an input that is cut there has the same line (proofs/Cut.antt).
pub const INPUT: usize = 1 + Listing::LONGEST + 1;

// OPEN with three numbers of 64 bits, as many pairs as a chain buffer has, and the line's end.
pub const LINE: usize = 4 + 3 * 21 + CHAIN_BYTES / 2 * 8 + 1;

// Zeros for a program's input. No plainer for any size: acceptance and typing have rooms of their own, since each clause holds the
// size to the one that the program's promise names.
pub fn room() -> [u8; INPUT]
    ensures { Lines-as-INPUT ≡ length result }
{
    [0; INPUT]
}

// The judge program's line of its whole input, and how long it is.
// No plainer as one function with the next: the service, its buffer, the line and the promise all differ.
pub fn judge(input: &[u8], line: &mut [u8; LINE]) -> usize
    ensures judge_line_promise { JudgeLinePromise input.now line.old line.new result }
    ensures prefix_len { IsPrefixLen result line.new }
{
    let Some((question, bytes)) = input.split_first() else {
        return line::unasked(line);
    };
    let mut chain = [0u8; CHAIN_BYTES];
    let answer = verdict::judge(u64::from(*question), bytes, &mut chain);
    line::judged(line, answer, &chain)
}

// The proposer's line of its whole input, and how long it is.
pub fn propose(input: &[u8], line: &mut [u8; LINE]) -> usize
    ensures propose_line_promise { ProposeLinePromise input.now line.old line.new result }
    ensures prefix_len { IsPrefixLen result line.new }
{
    let Some((question, bytes)) = input.split_first() else {
        return line::unasked(line);
    };
    // Beyond the listing's nodes the map keeps its zeros, and so has no place.
    let mut map = [0u8; Listing::NODES];
    let answer = proposal::propose(u64::from(*question), bytes, &mut map);
    line::proposed(line, answer, &map)
}
