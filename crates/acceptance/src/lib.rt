// The acceptor's line: a patch drawn up by anyone, given as the nodes that get a fence after them, is judged.
#![tactic(auto)]

ghost use Rattle.std.specs.Prelude.{◌≡◌, [], ◌≤◌, ◌<◌, length};
ghost use Rattle.io.specs.Counts.{IsPrefixLen};
ghost use Rattle.listing.specs.Bytes.{byte};
ghost use Rattle.acceptance.specs.Accept.{map_length, AcceptLinePromise};
ghost use Rattle.acceptance.specs.Accept.{INPUT as Accept-as-INPUT};
ghost use Rattle.acceptance.specs.Inner.Naming.{Drawn, NamedLined};

use listing::Listing;
use say::LINE;
use verdict::CHAIN_BYTES;

// A question, a count, as many nodes as it can count, the longest listing, and one byte more:
// an input that is cut there has the same line (proofs/Cut.antt).
pub const INPUT: usize = 1 + 1 + 255 + Listing::LONGEST + 1;

// As many nodes as a byte can name.
const NAMES: usize = 256;

// Zeros for a program's input, of a size of its own (say::room).
pub fn room() -> [u8; INPUT]
    ensures { Accept-as-INPUT ≡ length result }
{
    [0; INPUT]
}

// Byte i, or 0 where there is none.
fn byte_at(bytes: &[u8], i: usize) -> usize
    ensures { (result ≡ byte bytes.now i) × (result < 256) }
{
    bytes.get(i).map_or(0, |byte| usize::from(*byte))
}

// The length of a map of n nodes, made to reach all that are named.
fn map_length(n: usize, nodes: &[u8]) -> usize
    requires { n < 256 }
    ensures { (result ≡ map_length n nodes.now) × (result ≤ 256) }
{
    let mut length = n;
    for node in nodes {
        length = length.max(usize::from(*node) + 1);
    }
    length
}

// A 1 for every node that is named.
fn draw(nodes: &[u8], map: &mut [u8])
    requires { (256 ≤ length map.old) × Drawn [] map.old }
    ensures { Drawn nodes.now map.new }
{
    for node in nodes {
        map[usize::from(*node)] = 1;
    }
}

// The line of a question, the nodes named, and the listing.
fn judge_named(question: u64, nodes: &[u8], bytes: &[u8], line: &mut [u8; LINE]) -> usize
    ensures { NamedLined question bytes.now nodes.now line.old line.new result }
{
    let mut map = [0u8; NAMES];
    draw(nodes, &mut map);
    // byte 6 is N; a listing too short to have it is refused all the same
    let length = map_length(byte_at(bytes, 6), nodes);
    let mut chain = [0u8; CHAIN_BYTES];
    let answer = patch::judge_patch(question, bytes, &map[..length], &mut chain);
    say::told(line, b"ACCEPTED\n", answer, &chain)
}

// The acceptor's line of its whole input, and how long it is.
pub fn accept(input: &[u8], line: &mut [u8; LINE]) -> usize
    ensures accept_line_promise { AcceptLinePromise input.now line.old line.new result }
    ensures prefix_len { IsPrefixLen result line.new }
{
    let Some(question) = input.first() else {
        return say::unasked(line);
    };
    let from = input.len().min(2);
    let to = input.len().min(from + byte_at(input, 1));
    judge_named(u64::from(*question), &input[from..to], &input[to..], line)
}
