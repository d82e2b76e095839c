//! What a memory means, put to use at one memory: nothing is left to be supposed of it.
ghost use Rattle.std.specs.Prelude.{◌≡◌};
ghost use Rattle.line.specs.Image.{line_in};

use crate::waiting::read_in_steps;
use bottom::ordered::Ordered;
use memory::limits::LONGEST_LATENCY;

/// The bytes of a line of an image, or nothing where the image has no such line. They are what a new memory on the image
/// answers, whatever its latency; that they are the image's follows from what the memory means.
pub fn fetch(image: [u8; 64], line: u32, latency: u8) -> Option<[u8; 16]>
    ensures { result ≡ line_in image line }
{
    let mut image = image;
    let mut memory = Ordered::new(&mut image, 0, &[], latency);
    let mut buffer = [0; 16];
    // no memory has a longer latency
    match read_in_steps(&mut memory, line, u32::from(LONGEST_LATENCY), &mut buffer) {
        Ok(Some(_)) => Some(buffer),
        _ => None,
    }
}
