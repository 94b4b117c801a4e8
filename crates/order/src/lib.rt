// The rules of order on kinds and locations: what the judge asks of two nodes at a time.
#![tactic(auto)]

mod question;
mod table;

ghost use Rattle.std.specs.Prelude.{◌≡◌};
ghost use Rattle.listing.specs.Inner.Coded.{number_of};
ghost use Rattle.order.specs.Walks.{counts_read, counts_write, is_writer, is_access};
ghost use Rattle.order.specs.Chains as chains;
ghost use Rattle.order.specs.Need as rules;
ghost use Rattle.order.specs.Inner.Asking.{asked};
ghost use Rattle.order.specs.Inner.Ends.{by_ends, looks_first, looks_second, bars_with};

use listing::Kind;
pub use question::Question;
pub use table::{Needed, need};

// Counts as a read.
pub fn is_read(kind: Kind) -> bool
    ensures { result ≡ counts_read (number_of kind) }
{
    matches!(kind, Kind::Read | Kind::Acquire | Kind::AcquirePc)
}

// Counts as a write.
pub fn is_write(kind: Kind) -> bool
    ensures { result ≡ counts_write (number_of kind) }
{
    matches!(kind, Kind::Write | Kind::Release)
}

// A write or an RMW.
pub fn is_writer(kind: Kind) -> bool
    ensures { result ≡ is_writer (number_of kind) }
{
    is_write(kind) || matches!(kind, Kind::Rmw)
}

// A read, a write or an RMW.
pub fn is_access(kind: Kind) -> bool
    ensures { result ≡ is_access (number_of kind) }
{
    is_read(kind) || is_writer(kind)
}

// Two locations overlap: either is unknown, or they are equal.
pub fn overlap(x: usize, y: usize) -> bool
    ensures { result ≡ chains.overlap x y }
{
    x == y || y == 0 || x == 0
}

// Two locations surely meet: they are equal and name one cell.
pub fn surely(x: usize, y: usize) -> bool
    ensures { result ≡ chains.surely x y }
{
    x == y && x != 0 && x <= 32767
}

// Whether barriers look at the ends of a pair under this question: on ARMv8 they do.
pub fn by_ends(question: Question) -> bool
    ensures { result ≡ by_ends (rules.question (asked question)) }
{
    matches!(question, Question::ScOnArmv8 | Question::X86OnArmv8)
}

// Whether a fence of this kind looks at pairs that start with a node of that kind: a load fence at those that start with a read of
// kind 1, a store fence at those that start with a write, a full fence at all.
pub fn looks_first(fence: Kind, kind: Kind) -> bool
    ensures { result ≡ looks_first (number_of fence) (number_of kind) }
{
    match fence {
        Kind::LoadFence => matches!(kind, Kind::Read),
        Kind::StoreFence => is_write(kind),
        _ => true,
    }
}

// Whether it looks at pairs that end with a node of that kind: a store fence at those that end with a write.
pub fn looks_second(fence: Kind, kind: Kind) -> bool
    ensures { result ≡ looks_second (number_of fence) (number_of kind) }
{
    match fence {
        Kind::StoreFence => is_write(kind),
        _ => true,
    }
}

// A node of this kind inside is a barrier for the pairs that the fence looks at.
pub fn bars(question: Question, fence: Kind, kind: Kind) -> bool
    ensures { result ≡ bars_with (rules.question (asked question)) (number_of fence) (number_of kind) }
{
    matches!(kind, Kind::Fence)
        || match question {
            Question::ScOnX86 => matches!(kind, Kind::Rmw),
            Question::ScOnArmv8 | Question::X86OnArmv8 => kind.number() == fence.number(),
            _ => false,
        }
}
