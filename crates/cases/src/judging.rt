// Judging: what the judge answers to each rehearsed listing, one line a question.
ghost use Rattle.std.specs.Prelude.{◌≤◌};
ghost use Rattle.verdict.specs.Judging.{CHAIN};

use crate::{armv8, full, meeting};
use listing::Listing;
use order::Question;
use std::io;
use std::io::Write;
use verdict::CHAIN_BYTES;

// The least number past those of the questions.
pub const NO_QUESTION: u64 = Question::COUNT as u64 + 1;

// What stands before an answer: the case's name and the question.
pub fn heading<W: Write>(to: &mut W, name: &str, question: u64) -> io::Result<()> {
    write!(to, "{name} {question}: ")
}

// With a chain buffer that lacks so many bytes.
fn ask_lacking<W: Write>(
    to: &mut W,
    name: &str,
    question: u64,
    bytes: &[u8],
    lacking: usize,
) -> io::Result<()>
    requires { lacking ≤ CHAIN }
{
    heading(to, name, question)?;
    let mut chain = [0u8; CHAIN_BYTES];
    let answer = verdict::judge(question, bytes, &mut chain[lacking..]);
    print::judged(to, answer, &chain)
}

fn ask<W: Write>(to: &mut W, name: &str, question: u64, bytes: &[u8]) -> io::Result<()> {
    ask_lacking(to, name, question, bytes, 0)
}

// A listing under each question.
fn case<W: Write>(to: &mut W, name: &str, bytes: &[u8]) -> io::Result<()> {
    for question in 1..NO_QUESTION {
        ask(to, name, question, bytes)?;
    }
    Ok(())
}

// Cases, each with its name and its bytes.
fn cases<W: Write>(to: &mut W, cases: &[(&str, &[u8])]) -> io::Result<()> {
    for (name, bytes) in cases {
        case(to, name, bytes)?;
    }
    Ok(())
}

// Two routines over the cells x and y.
const TWO_CELLS: [(&str, &[u8]); 2] = [
    (
        "B",
        b"ORD\x01\x00\x02\x04\
          \x00\x01\x01\x00\x01\xFF\
          \x00\x02\x02\x00\xFF\xFF\
          \x01\x01\x02\x00\x03\xFF\
          \x01\x02\x01\x00\xFF\xFF",
    ),
    (
        "C",
        b"ORD\x01\x00\x02\x04\
          \x00\x02\x01\x00\x01\xFF\
          \x00\x02\x02\x00\xFF\xFF\
          \x01\x01\x02\x00\x03\xFF\
          \x01\x01\x01\x00\xFF\xFF",
    ),
];

// Two routines with a read-modify-write each.
const EXCHANGES: [(&str, &[u8]); 2] = [
    (
        "G",
        b"ORD\x01\x00\x02\x06\
          \x00\x02\x01\x00\x01\xFF\
          \x00\x03\x03\x00\x02\xFF\
          \x00\x01\x02\x00\xFF\xFF\
          \x01\x02\x02\x00\x04\xFF\
          \x01\x03\x03\x00\x05\xFF\
          \x01\x01\x01\x00\xFF\xFF",
    ),
    (
        "F",
        b"ORD\x01\x00\x02\x06\
          \x00\x02\x01\x00\x01\xFF\
          \x00\x03\x01\x00\x02\xFF\
          \x00\x01\x02\x00\xFF\xFF\
          \x01\x02\x02\x00\x04\xFF\
          \x01\x03\x02\x00\x05\xFF\
          \x01\x01\x01\x00\xFF\xFF",
    ),
];

// A fence on one branch of two.
const BRANCHES: [(&str, &[u8]); 1] = [(
    "H",
    b"ORD\x01\x00\x02\x06\
          \x00\x02\x01\x00\x01\x02\
          \x00\x04\x00\x00\x02\xFF\
          \x00\x01\x02\x00\xFF\xFF\
          \x01\x02\x02\x00\x04\xFF\
          \x01\x04\x00\x00\x05\xFF\
          \x01\x01\x01\x00\xFF\xFF",
)];

// A block of cells, and one cell in its place; a write to a block that follows itself.
const BLOCKS: [(&str, &[u8]); 3] = [
    (
        "J",
        b"ORD\x01\x00\x02\x04\
          \x00\x02\x01\x80\x01\xFF\
          \x00\x01\x01\x80\xFF\xFF\
          \x01\x02\x01\x80\x03\xFF\
          \x01\x01\x01\x80\xFF\xFF",
    ),
    (
        "J with x",
        b"ORD\x01\x00\x02\x04\
          \x00\x02\x01\x00\x01\xFF\
          \x00\x01\x01\x00\xFF\xFF\
          \x01\x02\x01\x00\x03\xFF\
          \x01\x01\x01\x00\xFF\xFF",
    ),
    (
        "a block in a loop",
        b"ORD\x01\x00\x01\x01\
          \x00\x02\x01\x80\x00\xFF",
    ),
];

// One routine: a crossfade, which is two writes of unknown cells; and no node at all.
const ONE_ROUTINE: [(&str, &[u8]); 2] = [
    (
        "L",
        b"ORD\x01\x00\x01\x02\
          \x00\x02\x00\x00\x01\xFF\
          \x00\x02\x00\x00\xFF\xFF",
    ),
    ("M", b"ORD\x01\x00\x01\x00"),
];

// Pairs with a neighbour before and one after that close no chain.
const NEIGHBOURS: [(&str, &[u8]); 1] = [(
    "neighbours",
    b"ORD\x01\x00\x03\x06\
          \x00\x02\x01\x00\x01\xFF\
          \x00\x01\x02\x00\xFF\xFF\
          \x01\x02\x02\x00\x03\xFF\
          \x01\x01\x03\x00\xFF\xFF\
          \x02\x01\x04\x00\x05\xFF\
          \x02\x02\x01\x00\xFF\xFF",
)];

// As many nodes as a listing may have, and one more.
fn sizes<W: Write>(to: &mut W) -> io::Result<()> {
    let mut bytes = [0u8; Listing::LONGEST];
    full::put_full(&mut bytes, full::FULL);
    case(to, "128 nodes", &bytes)?;
    full::put_full(&mut bytes, full::FULL + 1);
    case(to, "129 nodes", &bytes)
}

// What the judge itself refuses: questions that are none, and a chain buffer of 257 bytes, also where nothing would be written.
fn refusals<W: Write>(to: &mut W, a: &[u8]) -> io::Result<()> {
    ask(to, "A", 0, a)?;
    ask(to, "A", NO_QUESTION, a)?;
    ask(to, "A", u64::MAX, a)?;
    ask_lacking(to, "A with 257 bytes", 1, a, 1)?;
    ask_lacking(to, "A with 257 bytes", 4, a, 1)?;
    ask_lacking(to, "A with 257 bytes", NO_QUESTION, a, 1)?;
    ask_lacking(to, "no listing with 257 bytes", 1, b"ORD", 1)
}

// A node that its routine's entry does not reach, after the question and before the buffer.
fn cut_off<W: Write>(to: &mut W, bytes: &[u8]) -> io::Result<()> {
    ask(to, "cut off", 2, bytes)?;
    ask(to, "cut off", NO_QUESTION, bytes)?;
    ask_lacking(to, "cut off with 257 bytes", 2, bytes, 1)
}

pub fn judging<W: Write>(to: &mut W, a: &[u8], dead: &[u8]) -> io::Result<()> {
    case(to, "A", a)?;
    cases(to, &TWO_CELLS)?;
    cases(to, &EXCHANGES)?;
    cases(to, &BRANCHES)?;
    cases(to, &BLOCKS)?;
    cases(to, &ONE_ROUTINE)?;
    cases(to, &meeting::LOOPS)?;
    cases(to, &meeting::READERS)?;
    cases(to, &meeting::UNKNOWN_READ)?;
    cases(to, &meeting::UNKNOWN_READS)?;
    cases(to, &armv8::MESSAGES)?;
    cases(to, &armv8::BUFFERS)?;
    cases(to, &NEIGHBOURS)?;
    sizes(to)?;
    refusals(to, a)?;
    cut_off(to, dead)
}
