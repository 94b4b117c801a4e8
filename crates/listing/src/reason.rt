// Why a judge refuses.
use std::fmt;

// The refusals, in the table's order; a reason that speaks of a place has it.
#[derive(Clone, Copy)]
pub enum Reason {
    Question,
    Short,
    Mark,
    Version,
    Routines,
    Nodes,
    Length,
    Routine { node: usize },
    Kind { node: usize },
    Location { node: usize },
    Successor { node: usize },
    Order { node: usize },
    MapLength,
    MapByte { index: usize },
    Places,
    Buffer,
    Text { at: usize },
    Unentered { node: usize },
}

impl Reason {
    ghost use Rattle.std.specs.Prelude.{◌≡◌};
    ghost use Rattle.listing.specs.Reason as rules;

    // Its number in the table.
    pub fn number(self) -> u8
        ensures { result ≡ rules.number self }
    {
        match self {
            Reason::Question => 1,
            Reason::Short => 2,
            Reason::Mark => 3,
            Reason::Version => 4,
            Reason::Routines => 5,
            Reason::Nodes => 6,
            Reason::Length => 7,
            Reason::Routine { node: _ } => 8,
            Reason::Kind { node: _ } => 9,
            Reason::Location { node: _ } => 10,
            Reason::Successor { node: _ } => 11,
            Reason::Order { node: _ } => 12,
            Reason::MapLength => 13,
            Reason::MapByte { index: _ } => 14,
            Reason::Places => 15,
            Reason::Buffer => 16,
            Reason::Text { at: _ } => 17,
            Reason::Unentered { node: _ } => 18,
        }
    }

    // The place that it names, 0 where it names none.
    pub fn place(self) -> usize
        ensures { result ≡ rules.place self }
    {
        match self {
            Reason::Routine { node }
            | Reason::Kind { node }
            | Reason::Location { node }
            | Reason::Successor { node }
            | Reason::Order { node }
            | Reason::Unentered { node } => node,
            Reason::MapByte { index } => index,
            Reason::Text { at } => at,
            _ => 0,
        }
    }
}

// The refusal table's words.
impl fmt::Display for Reason {
    fn fmt<W: fmt::Write>(&self, f: &mut fmt::Formatter<W>) -> fmt::Result {
        f.write_str(match self {
            Reason::Question => "question not 1 to 6",
            Reason::Short => "fewer than 7 bytes",
            Reason::Mark => "mark wrong",
            Reason::Version => "version not 1 or 2",
            Reason::Routines => "F is 0 or over 16",
            Reason::Nodes => "N over 128",
            Reason::Length => "length not 7 + 6N",
            Reason::Routine { node: _ } => "node's routine not below F",
            Reason::Kind { node: _ } => "kind over 4 in version 1, over 9 in version 2",
            Reason::Location { node: _ } => "kind 0, 4, 7 or 8 with a location other than 0",
            Reason::Successor { node: _ } => {
                "successor neither 255 nor below N, or in another routine"
            }
            Reason::Order { node: _ } => "second successor without a first, or not larger than it",
            Reason::MapLength => "map length not N",
            Reason::MapByte { index: _ } => "map byte not 0 or 1",
            Reason::Places => "N + places over 128",
            Reason::Buffer => "lent output buffer too short",
            Reason::Text { at: _ } => "bad text",
            Reason::Unentered { node: _ } => "node neither its routine's entry nor reached from it",
        })
    }
}
