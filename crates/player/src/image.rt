//! The bytes that the memory of a player begins with.
ghost use Rattle.std.specs.Prelude.{length};
ghost use Rattle.player.specs.Image.{FirstBytes};

/// The byte at an address begins as the address modulo this.
const FIRST_MODULUS: usize = 251;

/// Sets each byte as it is at the start.
pub(crate) fn set_first_bytes(bytes: &mut [u8])
    ensures { FirstBytes (length bytes.old) bytes.new }
{
    for address in 0..bytes.len() {
        bytes[address] = (address % FIRST_MODULUS) as u8;
    }
}
