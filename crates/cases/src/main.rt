// The rehearsed listings and the sentences under their table: what each service answers, one line a case.
#![tactic(auto)]

mod armv8;
mod full;
mod judging;
mod meeting;
mod patching;

use std::io;

fn main(rt: HostRuntime) -> io::Result<()> {
    let a = b"ORD\x01\x00\x02\x04\
      \x00\x02\x01\x00\x01\xFF\
      \x00\x01\x02\x00\xFF\xFF\
      \x01\x02\x02\x00\x03\xFF\
      \x01\x01\x01\x00\xFF\xFF";
    let dead = b"ORD\x01\x00\x01\x02\
      \x00\x02\x01\x00\xFF\xFF\
      \x00\x02\x02\x00\xFF\xFF";
    let mut out = rt.stdout();
    judging::judging(&mut out, a, dead)?;
    patching::patching(&mut out, a, dead)
}
