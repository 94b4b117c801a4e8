// Input read whole into a lent buffer.
#![tactic(auto)]

ghost use Rattle.std.specs.Prelude.{◌≡◌, ◌<◌, length, take, IfOk, IfSome, OnErr};
ghost use Rattle.std.specs.Io.{ReadsAtMost};
ghost use Rattle.std.specs.Io.KnownBytes.{Consumes, IsAtEnd};
ghost use Rattle.streams.specs.Inner.Consumed.{ConsumesSome};

use std::io;
use std::io::Read;

// Reads until buf is full or the input ends, and answers how many bytes it put at the start of buf.
// A read that fails ends it: what was read until then stands at the start of buf, and nothing else of the input is gone.
pub fn read_full<R: Read>(from: &mut R, buf: &mut [u8]) -> io::Result<usize>
    ensures in_bounds { ReadsAtMost result buf.new }
    ensures in_order { IfOk result (λ n. Consumes (R.remaining from.old) (R.remaining from.new) (take n buf.new)) }
    ensures start { IfOk result (λ n. IfSome (R.remaining from.old) (λ xs. take n buf.new ≡ take (length buf.new) xs)) }
    ensures to_the_end { IfOk result (λ n. n < length buf.new → IsAtEnd (R.remaining from.new)) }
    ensures partly { OnErr result (ConsumesSome (R.remaining from.old) (R.remaining from.new) buf.new) }
{
    let mut done: usize = 0;
    // No `for`: a turn goes on by as many bytes as came, which `read_exact` doesn't tell of an input that is too short.
    while done < buf.len() {
        let n = from.read(&mut buf[done..])?;
        if n == 0 {
            break;
        }
        done += n;
    }
    Ok(done)
}
