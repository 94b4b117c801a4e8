// Text for people and for the rehearsed cases, written to any writer.
#![tactic(auto)]

mod nodes;
mod words;

ghost use Rattle.std.specs.Prelude.{◌≤◌, ℕ, length, OnOk};
ghost use Rattle.std.specs.Io.KnownBytes.{Appends};
ghost use Rattle.say.specs.Lines.{refusal_words, refusal_line};
ghost use Rattle.say.specs.Inner.Answers.{reason_line, judged_by, proposed_by};
ghost use Rattle.print.specs.Inner.Writing.{Written};

use listing::{Listing, Reason};
pub use nodes::shown;
use say::LINE;
pub use say::{Refused, Refuses};
use std::io;
use std::io::Write;
use verdict::{CHAIN_BYTES, Verdict};
pub use words::{explained, explained_for};

pub fn text<W: Write>(to: &mut W, words: &[u8]) -> io::Result<()>
    ensures { OnOk result (Appends (W.contents to.old) (W.contents to.new) words.now) }
{
    to.write_all(words)
}

// A number after a space.
pub fn next<W: Write>(to: &mut W, n: usize) -> io::Result<()> {
    write!(to, " {n}")
}

// What is put at the start of a line's buffer.
fn line<W: Write, F: FnOnce(&mut [u8; LINE]) -> usize>(to: &mut W, put: F) -> io::Result<()>
    requires callable { F.IsAlwaysCallable put }
    requires within { (line : _) (n : ℕ) (after : _) → F.post put line n after → n ≤ length after.now }
    ensures { OnOk result (Written (F.post put) (W.contents to.old) (W.contents to.new)) }
{
    let mut line = [0u8; LINE];
    let n = put(&mut line);
    text(to, &line[..n])
}

// The refusal, without the line's end.
pub fn refusal<W: Write>(to: &mut W, number: u8, place: usize) -> io::Result<()>
    ensures { OnOk result (Appends (W.contents to.old) (W.contents to.new) (refusal_words number place)) }
{
    line(to, |line| say::refusal(line, number, place))
}

pub fn refused<W: Write>(to: &mut W, number: u8, place: usize) -> io::Result<()>
    ensures { OnOk result (Appends (W.contents to.old) (W.contents to.new) (refusal_line number place)) }
{
    line(to, |line| say::refused(line, number, place))
}

pub fn refused_for<W: Write>(to: &mut W, reason: Reason) -> io::Result<()>
    ensures { OnOk result (Appends (W.contents to.old) (W.contents to.new) (reason_line reason)) }
{
    line(to, |line| say::refused_for(line, reason))
}

// A refusal is a reason, or a number and a place.
pub fn judged<W: Write, R: Refuses>(
    to: &mut W,
    answer: Result<Verdict, R>,
    chain: &[u8; CHAIN_BYTES],
) -> io::Result<()>
    ensures { OnOk result (Appends (W.contents to.old) (W.contents to.new) (judged_by R.told answer chain.now)) }
{
    line(to, |line| say::judged(line, answer, chain))
}

pub fn proposed<W: Write, R: Refuses>(
    to: &mut W,
    answer: Result<usize, R>,
    map: &[u8; Listing::NODES],
) -> io::Result<()>
    ensures { OnOk result (Appends (W.contents to.old) (W.contents to.new) (proposed_by R.told answer map.now)) }
{
    line(to, |line| say::proposed(line, answer, map))
}
