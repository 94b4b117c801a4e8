// Reads a listing from standard input, and writes it for a person: a line a node, or why it is refused.
// No plainer by say::answer: what it writes is no line that a buffer has room for.
#![tactic(auto)]

use std::io;

fn main(rt: HostRuntime) -> io::Result<()> {
    let mut input = say::room();
    let n = streams::read_full(&mut rt.stdin(), &mut input)?;
    print::shown(&mut rt.stdout(), &input[..n])
}
