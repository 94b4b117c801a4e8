// What the program `typed` writes: a text's listing, or the refusal's line.
#![tactic(auto)]

ghost use Rattle.std.specs.Prelude.{◌≡◌, suc, length};
ghost use Rattle.io.specs.Counts.{IsPrefixLen};
ghost use Rattle.typing.specs.Output.{TypedPromise};
ghost use Rattle.typing.specs.Output.{TEXT as Output-as-TEXT};

use lines::Line;
use listing::Listing;
use say::LINE;

// The longest text that the program reads, 1 MiB.
pub const TEXT: usize = 1048576;

// Zeros for a program's text, of a size of its own (say::room): the longest that it reads, and one byte more that tells a longer one.
pub fn room() -> [u8; TEXT + 1]
    ensures { suc Output-as-TEXT ≡ length result }
{
    [0; TEXT + 1]
}

// The listing of the whole text or the refusal's line, and how long it is.
pub fn typed(text: &[u8], out: &mut [u8; LINE]) -> usize
    ensures typed_promise { TypedPromise text.now out.old out.new result }
    ensures prefix_len { IsPrefixLen result out.new }
{
    let mut bytes = [0u8; Listing::LONGEST];
    match text::listing(text, &mut bytes) {
        Ok(length) => {
            let mut line = Line::new(out);
            line.words(&bytes[..length]);
            line.end
        }
        Err(reason) => say::refused_for(out, reason),
    }
}
