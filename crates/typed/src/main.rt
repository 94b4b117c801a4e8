// Reads a text from standard input and writes the listing's bytes, or the line `REFUSED number place`.
// No plainer by say::answer: between reading and writing it looks whether the text was read whole.
#![tactic(auto)]

use std::io;
use std::io::Write;

fn main(rt: HostRuntime) -> io::Result<()> {
    let mut text = typing::room();
    let n = streams::read_full(&mut rt.stdin(), &mut text)?;
    if typing::TEXT < n {
        return rt
            .stderr()
            .write_all(b"typed: the text is longer than 1 MiB\n");
    }
    let mut out = [0u8; say::LINE];
    let length = typing::typed(&text[..n], &mut out);
    rt.stdout().write_all(&out[..length])
}
