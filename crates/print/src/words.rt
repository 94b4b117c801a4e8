// Why a listing is refused, for a person.
ghost use Rattle.std.specs.Prelude.{◌≡◌, ℕ, List, OnOk};
ghost use Rattle.std.specs.Io.KnownBytes.{Appends};
ghost use Rattle.listing.specs.Reason as rules;
ghost use Rattle.print.specs.Inner.Writing.{row_of, place_words, Explained};

use crate::{refusal, text};
use listing::Reason;
use say::LINE;
use std::io;
use std::io::Write;

// The reason that a number has; of a number that has none, the table's last.
fn reason_of(number: u8, place: usize) -> Reason
    ensures number { rules.number result ≡ row_of number }
    ensures place { place_words number (rules.place result) ≡ place_words number place }
{
    match number {
        1 => Reason::Question,
        2 => Reason::Short,
        3 => Reason::Mark,
        4 => Reason::Version,
        5 => Reason::Routines,
        6 => Reason::Nodes,
        7 => Reason::Length,
        8 => Reason::Routine { node: place },
        9 => Reason::Kind { node: place },
        10 => Reason::Location { node: place },
        11 => Reason::Successor { node: place },
        12 => Reason::Order { node: place },
        13 => Reason::MapLength,
        14 => Reason::MapByte { index: place },
        15 => Reason::Places,
        16 => Reason::Buffer,
        17 => Reason::Text { at: place },
        _ => Reason::Unentered { node: place },
    }
}

// What a reason means, by a buffer, since no contract says what its Display does to a writer: which words it has, tests/words holds.
fn meaning<W: Write>(to: &mut W, reason: Reason) -> io::Result<()>
    ensures { OnOk result ((words : List ℕ) × Appends (W.contents to.old) (W.contents to.new) words) }
{
    let mut words = [0u8; LINE];
    let mut rest = &mut words[..];
    write!(rest, "{reason}")?;
    let length = LINE.saturating_sub(rest.len());
    text(to, &words[..length])
}

// What a reason's place is of, where it has one.
fn place_of<W: Write>(to: &mut W, reason: Reason) -> io::Result<()>
    ensures { OnOk result (Appends (W.contents to.old) (W.contents to.new) (place_words (rules.number reason) (rules.place reason))) }
{
    match reason {
        Reason::MapByte { index } => write!(to, " (index {index})"),
        Reason::Routine { node }
        | Reason::Kind { node }
        | Reason::Location { node }
        | Reason::Successor { node }
        | Reason::Order { node }
        | Reason::Unentered { node } => write!(to, " (node {node})"),
        _ => Ok(()),
    }
}

// The refusal line for a person: what the number means, too. By its numbers, of which a line may have any.
pub fn explained<W: Write>(to: &mut W, number: u8, place: usize) -> io::Result<()>
    ensures { OnOk result (Explained number place (W.contents to.old) (W.contents to.new)) }
{
    let reason = reason_of(number, place);
    refusal(to, number, place)?;
    text(to, b": ")?;
    meaning(to, reason)?;
    if reason.number() == number {
        place_of(to, reason)?;
    }
    text(to, b"\n")
}

// The same for a reason.
pub fn explained_for<W: Write>(to: &mut W, reason: Reason) -> io::Result<()>
    ensures { OnOk result (Explained (rules.number reason) (rules.place reason) (W.contents to.old) (W.contents to.new)) }
{
    explained(to, reason.number(), reason.place())
}
