// Reads a question, a count of nodes and as many nodes, a byte each, and a listing from standard input. Judges the listing with a fence
// after each of these nodes, and writes one line: ACCEPTED, or the judge's answer.
#![tactic(auto)]

use std::io;

fn main(rt: HostRuntime) -> io::Result<()> {
    let mut input = acceptance::room();
    say::answer(
        &mut rt.stdin(),
        &mut rt.stdout(),
        &mut input,
        acceptance::accept,
    )
}
