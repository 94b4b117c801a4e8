// The kinds of a node.
ghost use Rattle.std.specs.Prelude.{◌≡◌, ◌≤◌};
ghost use Rattle.listing.specs.Kinds.{KINDS};

use std::fmt;

// A byte that names no kind.
#[derive(Clone, Copy)]
pub struct Unlisted {
    pub byte: u8,
    pub ghost unlisted: { KINDS ≤ byte },
}

// What a node is. A byte that names no kind is kept as it stands, until reading refuses it.
#[derive(Clone, Copy)]
pub enum Kind {
    Plain,
    Read,
    Write,
    Rmw,
    Fence,
    Acquire,
    Release,
    LoadFence,
    StoreFence,
    AcquirePc,
    Other(Unlisted),
}

impl Kind {
    ghost use Rattle.std.specs.Prelude.{◌≡◌};
    ghost use Rattle.listing.specs.Kinds.{has_no_location};
    ghost use Rattle.listing.specs.Inner.Coded.{number_of};

    // How many kinds there are.
    pub const COUNT: usize = 10;

    // The byte that a record has for it.
    pub fn number(self) -> u8
        ensures { result ≡ number_of self }
    {
        match self {
            Kind::Plain => 0,
            Kind::Read => 1,
            Kind::Write => 2,
            Kind::Rmw => 3,
            Kind::Fence => 4,
            Kind::Acquire => 5,
            Kind::Release => 6,
            Kind::LoadFence => 7,
            Kind::StoreFence => 8,
            Kind::AcquirePc => 9,
            Kind::Other(other) => other.byte,
        }
    }

    // Whether a node of this kind has location 0, which means nothing.
    pub fn has_no_location(self) -> bool
        ensures { result ≡ has_no_location (number_of self) }
    {
        matches!(
            self,
            Kind::Plain | Kind::Fence | Kind::LoadFence | Kind::StoreFence
        )
    }
}

impl From<u8> for Kind {
    ghost use Rattle.std.specs.Prelude.{◌≡◌};
    ghost use Rattle.listing.specs.Inner.Coded.{number_of};

    ghost from_gives = { λ byte kind. number_of kind ≡ byte };

    fn from(byte: u8) -> Kind {
        match byte {
            0 => Kind::Plain,
            1 => Kind::Read,
            2 => Kind::Write,
            3 => Kind::Rmw,
            4 => Kind::Fence,
            5 => Kind::Acquire,
            6 => Kind::Release,
            7 => Kind::LoadFence,
            8 => Kind::StoreFence,
            9 => Kind::AcquirePc,
            _ => Kind::Other(Unlisted { byte }),
        }
    }
}

// The kinds' words.
impl fmt::Display for Kind {
    fn fmt<W: fmt::Write>(&self, f: &mut fmt::Formatter<W>) -> fmt::Result {
        match self {
            Kind::Plain => f.write_str("plain"),
            Kind::Read => f.write_str("read"),
            Kind::Write => f.write_str("write"),
            Kind::Rmw => f.write_str("read-modify-write"),
            Kind::Fence => f.write_str("fence"),
            Kind::Acquire => f.write_str("acquire read"),
            Kind::Release => f.write_str("release write"),
            Kind::LoadFence => f.write_str("load fence"),
            Kind::StoreFence => f.write_str("store fence"),
            Kind::AcquirePc => f.write_str("acquirePC read"),
            Kind::Other(other) => write!(f, "kind {}", other.byte),
        }
    }
}
