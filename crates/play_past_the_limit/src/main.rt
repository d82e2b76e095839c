//! Plays the trace on standard input and prints its listing. It is the program `play` once more, to be run on a trace that is longer
//! than what a play reads: the listing is that of its first 32,768 bytes.
#![tactic(auto)]

use playing::playing::play;
use std::io;
use std::io::BufWriter;

fn main(rt: HostRuntime) -> io::Result<()> {
    let mut output = BufWriter::new(rt.alloc(), rt.stdout())?;
    play(&mut rt.stdin(), &mut output)
}
