// Reads a question, one byte, and a listing from standard input, and writes the judge's answer as one line.
#![tactic(auto)]

use std::io;

fn main(rt: HostRuntime) -> io::Result<()> {
    let mut input = say::room();
    say::answer(&mut rt.stdin(), &mut rt.stdout(), &mut input, say::judge)
}
