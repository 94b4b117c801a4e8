// A program that reads its whole input and writes a line.
ghost use Rattle.std.specs.Prelude.{◌≤◌, ℕ, length, OnOk};
ghost use Rattle.say.specs.Inner.Answering.{Answered};

use crate::LINE;
use std::io;
use std::io::{Read, Write};
use streams::read_full;

// Reads the input into `input`, as far as that goes, and writes the line that `line_of` puts of it at the start of a buffer.
pub fn answer<R: Read, W: Write, F: FnOnce(&[u8], &mut [u8; LINE]) -> usize>(
    from: &mut R,
    to: &mut W,
    input: &mut [u8],
    line_of: F,
) -> io::Result<()>
    requires callable { F.IsAlwaysCallable line_of }
    requires within { (text : _) (line : _) (n : ℕ) (after : _) → F.post line_of text line n after → n ≤ length after.now }
    ensures { OnOk result (Answered (F.post line_of) (R.remaining from.old) (R.remaining from.new) input.new (W.contents to.old) (W.contents to.new)) }
{
    let n = read_full(from, input)?;
    let mut line = [0u8; LINE];
    let length = line_of(&input[..n], &mut line);
    to.write_all(&line[..length])
}
