//! How two texts are compared, line for line.
ghost use Rattle.std.specs.Prelude.{◌≡◌, ◌≤◌, length};
ghost use Rattle.listings.specs.Comparing.{AlikeUpTo, Compared, line_at};

// How many bytes two texts have alike at their fronts.
fn shared_length(text: &[u8], wanted: &[u8]) -> usize
    ensures { AlikeUpTo text.now wanted.now result }
{
    let shorter = text.len().min(wanted.len());
    for at in 0..shorter {
        if text[at] != wanted[at] {
            return at;
        }
    }
    shorter
}

// The number of the line in which the byte at this index stands, counted from 1.
fn line_of(text: &[u8], at: usize) -> usize
    requires { at ≤ length text.now }
    ensures { result ≡ line_at at text.now }
{
    text[..at].iter().filter(|byte| **byte == b'\n').count() + 1
}

/// The number of the first line in which two texts differ, counted from 1; nothing where they are the same.
pub fn first_difference(text: &[u8], wanted: &[u8]) -> Option<usize>
    ensures { Compared text.now wanted.now result }
{
    let shared = shared_length(text, wanted);
    if shared == text.len() && shared == wanted.len() {
        return None;
    }
    Some(line_of(text, shared))
}
