// A listing's bytes, with the records of all its nodes: its limits, and the fields of its records.
use crate::{Kind, version};
use std::marker::Model;

// Bytes that hold the records of all their nodes, whatever these say. A contract sees the bytes.
#[derive(Drop)]
pub struct Listing<'a> {
    bytes: &'a [u8],
}

// How many nodes and routines a listing has: what reading answers of it, once the bytes are gone too.
#[derive(Clone, Copy)]
pub struct Counts {
    pub nodes: usize,
    pub routines: usize,
}

impl<'a> Model for Listing<'a> {
    ghost use Rattle.std.specs.Prelude.{List, ℕ};
    ghost use Rattle.listing.specs.Inner.Whole.{Whole};

    ghost Value = { List ℕ };

    ghost view = { λ l. l.bytes.now };

    ghost invariant = { λ l. Whole l.bytes.now };
}

impl<'a> Listing<'a> {
    ghost use Rattle.std.specs.Prelude.{◌≡◌, ◌+◌, ◌<◌, ◌≤◌};
    ghost use Rattle.listing.specs.Limits.{NODES, RECORD};
    ghost use Rattle.listing.specs.Node.{node};
    ghost use Rattle.listing.specs.Bytes.{byte, version_of, count_f, count_n, record_at, nodes_of};
    ghost use Rattle.listing.specs.Inner.Whole.{Whole};
    ghost use Rattle.listing.specs.Inner.Coded.{number_of};

    pub const ROUTINES: usize = 16;

    pub const NODES: usize = 128;

    pub const HEADING: usize = 7;

    pub const RECORD: usize = 6;

    // The bytes of the longest: its heading, and a record for every node.
    pub const LONGEST: usize = Listing::HEADING + Listing::RECORD * Listing::NODES;

    // The listing that has these bytes.
    pub fn new(bytes: &'a [u8]) -> Self
        requires { Whole bytes.now }
        ensures { result ≡ bytes.now }
    {
        Listing { bytes }
    }

    // The heading's version.
    pub fn version(&self) -> usize
        ensures { (result ≡ version_of self.now) × (result < 65536) }
    {
        version(self.bytes)
    }

    // How many nodes there are.
    pub fn nodes(&self) -> usize
        ensures count { (result ≡ count_n self.now) × (result ≤ NODES) }
        ensures whole { Whole self.now }
    {
        usize::from(self.bytes[6])
    }

    // How many routines there are.
    pub fn routines(&self) -> u8
        ensures { result ≡ count_f self.now }
    {
        self.bytes[5]
    }

    // Both counts, for who lets the bytes go.
    pub fn counts(&self) -> Counts
        ensures { (result.nodes ≡ count_n self.now) × (result.routines ≡ count_f self.now) }
    {
        Counts {
            nodes: self.nodes(),
            routines: usize::from(self.routines()),
        }
    }

    // Byte k of node i's record.
    fn field(&self, i: usize, k: usize) -> u8
        requires { (i < count_n self.now) × (k < RECORD) }
        ensures { (result ≡ byte self.now (record_at i + k)) × (result < 256) }
    {
        let bytes = self.bytes;
        bytes[Listing::HEADING + Listing::RECORD * i + k]
    }

    // The fields of node i.
    #[tactic(auto, using(crate::proofs::Nodes::nodes_at_lem))]
    pub fn routine(&self, i: usize) -> u8
        requires { i < count_n self.now }
        ensures { result ≡ (node (nodes_of self.now) i).routine }
    {
        self.field(i, 0)
    }

    #[tactic(auto, using(crate::proofs::Nodes::nodes_at_lem))]
    pub fn kind(&self, i: usize) -> Kind
        requires { i < count_n self.now }
        ensures { number_of result ≡ (node (nodes_of self.now) i).kind }
    {
        Kind::from(self.field(i, 1))
    }

    #[tactic(auto, using(crate::proofs::Nodes::nodes_at_lem))]
    pub fn location(&self, i: usize) -> usize
        requires { i < count_n self.now }
        ensures { (result ≡ (node (nodes_of self.now) i).location) × (result < 65536) }
    {
        usize::from(self.field(i, 2)) + 256 * usize::from(self.field(i, 3))
    }

    #[tactic(auto, using(crate::proofs::Nodes::nodes_at_lem))]
    // A successor is given as the byte that it is, and no `Option`: its reader compares it with the count first, which `NONE` fails too.
    pub fn first(&self, i: usize) -> u8
        requires { i < count_n self.now }
        ensures { result ≡ (node (nodes_of self.now) i).first }
    {
        self.field(i, 4)
    }

    #[tactic(auto, using(crate::proofs::Nodes::nodes_at_lem))]
    pub fn second(&self, i: usize) -> u8
        requires { i < count_n self.now }
        ensures { result ≡ (node (nodes_of self.now) i).second }
    {
        self.field(i, 5)
    }
}
