//! Laying new bytes on a line, or on a line of an image, by a mask that says which. Line l of an image is the 16 bytes
//! from 16 × l on.
ghost use Rattle.std.specs.Prelude.{◌≡◌, length};
ghost use Rattle.line.specs.Image.{holds, line_in, image_laid};
ghost use Rattle.line.specs.Laid.{bit, laid};

/// Whether bit i of a mask is 1.
pub fn bit(mask: u16, i: usize) -> bool
    ensures { result ≡ bit mask i }
{
    i < 16 && (mask >> i) % 2 == 1
}

/// The line with byte i replaced by that of `new` exactly where bit i of the mask is 1.
pub fn lay(line: [u8; 16], mask: u16, new: [u8; 16]) -> [u8; 16]
    ensures { result ≡ laid line mask new }
{
    let mut out = line;
    lay_on(&mut out, mask, new);
    out
}

// Lays on a part that is one line long, in place.
fn lay_on(part: &mut [u8], mask: u16, new: [u8; 16])
    requires { length part.old ≡ 16 }
    ensures { part.new ≡ laid part.old mask new }
{
    for (i, byte) in part.iter_mut().enumerate() {
        if bit(mask, i) {
            *byte = new[i];
        }
    }
}

/// Lays new bytes on a line of an image, and leaves all other bytes of the image alone. Answers whether the image
/// holds the line whole; where it does not, nothing changes.
pub fn lay_at(image: &mut [u8], line: u32, mask: u16, new: [u8; 16]) -> bool
    ensures value { result ≡ holds image.old line }
    ensures after { image.new ≡ image_laid image.old line mask new }
{
    let at = 16 * line as usize;
    // tests the length: of bytes written through what get_mut lends, a proof learns nothing
    if image.len() < at + 16 {
        return false;
    }
    lay_on(&mut image[at..at + 16], mask, new);
    true
}

/// The bytes of a line of an image, or nothing where the image does not hold the line whole.
pub fn line_at(image: &[u8], line: u32) -> Option<[u8; 16]>
    ensures { result ≡ line_in image.now line }
{
    let at = 16 * line as usize;
    image.get(at..at + 16)?.try_into().ok()
}
