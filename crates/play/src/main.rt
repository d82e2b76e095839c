//! Plays the trace on standard input and prints its listing.
#![tactic(auto)]

use playing::playing::play;
use std::io;
use std::io::BufWriter;

fn main(rt: HostRuntime) -> io::Result<()> {
    let mut output = BufWriter::new(rt.alloc(), rt.stdout())?;
    play(&mut rt.stdin(), &mut output)
}
