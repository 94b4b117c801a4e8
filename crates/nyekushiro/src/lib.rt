// The exported services, on numbers and byte slices: each hands over to the proved service and gives its answer as four numbers.
#![tactic(auto)]

ghost use Rattle.std.specs.Prelude.{◌≡◌};
ghost use Rattle.listing.specs.Form.{read_says};
ghost use Rattle.listing.specs.Answer as paper;
ghost use Rattle.listing.specs.Reason.{refused_for};
ghost use Rattle.reader.specs.Read.{read_of};
ghost use Rattle.verdict.specs.Judging.{judge_says, JudgePromise};
ghost use Rattle.patch.specs.Patching.{JudgePatchPromise, number_says, ProposePromise, WritePromise};
ghost use Rattle.text.specs.Typing.{Typed};
ghost use Rattle.nyekushiro.specs.Exported.{said};

use listing::{Counts, Reason};
use verdict::Verdict;

// kind 0: done, or ROBUST; 1: OPEN; 2: REFUSED, with first the number and second the place.
// The C interface: four numbers in this order, and no enum (include/nyekushiro.h).
#[repr(C)]
#[derive(Drop)]
pub struct Answer {
    pub kind: u64,
    pub first: u64,
    pub second: u64,
    pub count: u64,
}

fn done(first: usize, second: usize, count: usize) -> Answer
    ensures { said result ≡ paper.done first second count }
{
    Answer {
        kind: 0,
        first: first as u64,
        second: second as u64,
        count: count as u64,
    }
}

fn open(first: usize, second: usize, count: usize) -> Answer
    ensures { said result ≡ paper.open_at first second count }
{
    Answer {
        kind: 1,
        first: first as u64,
        second: second as u64,
        count: count as u64,
    }
}

impl From<Reason> for Answer {
    ghost from_gives = { λ reason answer. said answer ≡ refused_for reason };

    fn from(reason: Reason) -> Answer {
        Answer {
            kind: 2,
            first: u64::from(reason.number()),
            second: reason.place() as u64,
            count: 0,
        }
    }
}

// What reading answers.
impl From<Result<Counts, Reason>> for Answer {
    ghost from_gives = { λ read answer. said answer ≡ read_says read };

    fn from(read: Result<Counts, Reason>) -> Answer {
        match read {
            Ok(counts) => done(counts.nodes, counts.routines, 0),
            Err(reason) => Answer::from(reason),
        }
    }
}

// What judging answers.
impl From<Result<Verdict, Reason>> for Answer {
    ghost from_gives = { λ judged answer. said answer ≡ judge_says judged };

    fn from(judged: Result<Verdict, Reason>) -> Answer {
        match judged {
            Ok(Verdict::Robust) => done(0, 0, 0),
            Ok(
                Verdict::Open {
                    first,
                    second,
                    count,
                },
            ) => open(first, second, count),
            Err(reason) => Answer::from(reason),
        }
    }
}

// What counts or measures what it wrote.
impl From<Result<usize, Reason>> for Answer {
    ghost from_gives = { λ written answer. said answer ≡ number_says written };

    fn from(written: Result<usize, Reason>) -> Answer {
        match written {
            Ok(count) => done(0, 0, count),
            Err(reason) => Answer::from(reason),
        }
    }
}

#[unsafe(no_mangle)]
pub extern "C" fn nyekushiro_read(bytes: &[u8]) -> Answer
    ensures { said result ≡ read_of bytes.now }
{
    Answer::from(reader::read(bytes))
}

#[unsafe(no_mangle)]
pub extern "C" fn nyekushiro_judge(question: u64, bytes: &[u8], chain: &mut [u8]) -> Answer
    ensures { JudgePromise question bytes.now chain.old chain.new (said result) }
{
    Answer::from(verdict::judge(question, bytes, chain))
}

#[unsafe(no_mangle)]
pub extern "C" fn nyekushiro_judge_patch(
    question: u64,
    bytes: &[u8],
    map: &[u8],
    chain: &mut [u8],
) -> Answer
    ensures { JudgePatchPromise question bytes.now map.now chain.old chain.new (said result) }
{
    Answer::from(patch::judge_patch(question, bytes, map, chain))
}

#[unsafe(no_mangle)]
pub extern "C" fn nyekushiro_propose(question: u64, bytes: &[u8], map: &mut [u8]) -> Answer
    ensures { ProposePromise question bytes.now map.old map.new (said result) }
{
    Answer::from(proposal::propose(question, bytes, map))
}

#[unsafe(no_mangle)]
pub extern "C" fn nyekushiro_write(bytes: &[u8], map: &[u8], out: &mut [u8]) -> Answer
    ensures { WritePromise bytes.now map.now out.old out.new (said result) }
{
    Answer::from(patch::write(bytes, map, out))
}

#[unsafe(no_mangle)]
pub extern "C" fn nyekushiro_text(text: &[u8], out: &mut [u8]) -> Answer
    ensures { Typed text.now out.old (said result) out.new }
{
    Answer::from(text::listing(text, out))
}
