// A program's line, put into a lent buffer. What may not change: each answers the line's length beside the buffer, as the promises
// (Lined, JudgeLinePromise, ProposeLinePromise) say it.
ghost use Rattle.std.specs.Prelude.{◌+◌, ◌*◌, ◌≤◌, length};
ghost use Rattle.io.specs.Counts.{IsPrefixLen};
ghost use Rattle.lines.specs.Inner.Put.{Put};
ghost use Rattle.lines.specs.Inner.Growing.{Grows};
ghost use Rattle.say.specs.Lines.{refusal_words, refusal_line, open_line, proposal_line, Lined};
ghost use Rattle.say.specs.Inner.Answers.{pairs_of, places_of, refused_line, told_by, judged_by, proposed_by};

use crate::{LINE, Refused, Refuses};
use lines::Line;
use listing::{Listing, Reason};
use verdict::{CHAIN_BYTES, Verdict};

// A refusal, without the line's end.
#[tactic(auto, using(lines::proofs::Decimal::next_room))]
fn put_refusal(line: &mut Line, number: u8, place: usize)
    requires { line.old.end + 49 ≤ length line.old.buffer.now }
    ensures put { Grows line.old (refusal_words number place) line.new }
    ensures upper_bound { line.new.end ≤ line.old.end + 49 }
{
    line.words(b"REFUSED");
    line.next(usize::from(number));
    line.next(place);
}

// The pairs of a chain, as far as its buffer goes.
fn pairs(line: &mut Line, chain: &[u8], count: usize)
    requires { line.old.end + 4 * length chain.now ≤ length line.old.buffer.now }
    ensures put { Grows line.old (pairs_of count chain.now) line.new }
    ensures upper_bound { line.new.end ≤ line.old.end + 4 * length chain.now }
{
    let (pairs, _) = chain.as_chunks::<2>();
    for [a, b] in pairs.iter().take(count) {
        line.pair(usize::from(*a), usize::from(*b));
    }
}

// The places of a map.
fn places(line: &mut Line, map: &[u8])
    requires { (length map.now ≤ 1000) × (line.old.end + 4 * length map.now ≤ length line.old.buffer.now) }
    ensures put { Grows line.old (places_of 0 map.now) line.new }
    ensures upper_bound { line.new.end ≤ line.old.end + 4 * length map.now }
{
    for (i, byte) in map.iter().enumerate() {
        if *byte == 1 {
            line.next(i);
        }
    }
}

// The refusal, without the line's end. By its numbers, of which a line may have any: its promise is of every number.
pub fn refusal(line: &mut [u8; LINE], number: u8, place: usize) -> usize
    ensures put { Put line.old 0 (refusal_words number place) line.new result × (result ≤ 49) }
    ensures prefix_len { IsPrefixLen result line.new }
{
    let mut line = Line::new(line);
    put_refusal(&mut line, number, place);
    line.end
}

pub fn refused(line: &mut [u8; LINE], number: u8, place: usize) -> usize
    ensures lined { Lined (refusal_line number place) line.old line.new result }
    ensures prefix_len { IsPrefixLen result line.new }
{
    let mut line = Line::new(line);
    put_refusal(&mut line, number, place);
    line.words(b"\n");
    line.end
}

// The refusal for a reason, or for what else has a number and a place.
pub fn refused_for<R: Refuses>(line: &mut [u8; LINE], refusal: R) -> usize
    ensures lined { Lined (refused_line (R.told refusal)) line.old line.new result }
    ensures prefix_len { IsPrefixLen result line.new }
{
    let Refused { number, place } = refusal.refused();
    refused(line, number, place)
}

// Empty input asks no question.
pub fn unasked(line: &mut [u8; LINE]) -> usize
    ensures lined { Lined (refusal_line 1 0) line.old line.new result }
    ensures prefix_len { IsPrefixLen result line.new }
{
    refused_for(line, Reason::Question)
}

#[tactic(auto, using(lines::proofs::Decimal::next_room))]
fn open(
    line: &mut [u8; LINE],
    first: usize,
    second: usize,
    count: usize,
    chain: &[u8; CHAIN_BYTES],
) -> usize
    ensures { Lined (open_line first second count (pairs_of count chain.now)) line.old line.new result }
{
    let mut line = Line::new(line);
    line.words(b"OPEN");
    line.next(first);
    line.next(second);
    line.next(count);
    pairs(&mut line, chain, count);
    line.words(b"\n");
    line.end
}

// The line of what judging answers, with the words for ROBUST.
pub fn told<R: Refuses>(
    line: &mut [u8; LINE],
    robust: &[u8],
    answer: Result<Verdict, R>,
    chain: &[u8; CHAIN_BYTES],
) -> usize
    requires { length robust.now ≤ 1000 }
    ensures lined { Lined (told_by R.told robust.now answer chain.now) line.old line.new result }
    ensures prefix_len { IsPrefixLen result line.new }
{
    match answer {
        Ok(Verdict::Robust) => {
            let mut line = Line::new(line);
            line.words(robust);
            line.end
        }
        Ok(
            Verdict::Open {
                first,
                second,
                count,
            },
        ) => open(line, first, second, count, chain),
        Err(refusal) => refused_for(line, refusal),
    }
}

// The judge's line.
pub fn judged<R: Refuses>(
    line: &mut [u8; LINE],
    answer: Result<Verdict, R>,
    chain: &[u8; CHAIN_BYTES],
) -> usize
    ensures lined { Lined (judged_by R.told answer chain.now) line.old line.new result }
    ensures prefix_len { IsPrefixLen result line.new }
{
    told(line, b"ROBUST\n", answer, chain)
}

#[tactic(auto, using(lines::proofs::Decimal::next_room))]
fn offered(line: &mut [u8; LINE], count: usize, map: &[u8; Listing::NODES]) -> usize
    ensures { Lined (proposal_line count (places_of 0 map.now)) line.old line.new result }
{
    let mut line = Line::new(line);
    line.words(b"PROPOSED");
    line.next(count);
    places(&mut line, map);
    line.words(b"\n");
    line.end
}

// The proposer's line: how many places its map has, and each.
pub fn proposed<R: Refuses>(
    line: &mut [u8; LINE],
    answer: Result<usize, R>,
    map: &[u8; Listing::NODES],
) -> usize
    ensures lined { Lined (proposed_by R.told answer map.now) line.old line.new result }
    ensures prefix_len { IsPrefixLen result line.new }
{
    match answer {
        Ok(places) => offered(line, places, map),
        Err(refusal) => refused_for(line, refusal),
    }
}
