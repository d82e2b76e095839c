//! Entries that have a key, and the one removal by key.
ghost use Rattle.std.specs.Prelude.{◌≡◌, ℕ, ◌<◌, length, IfSome};
ghost use Rattle.list.specs.Keyed.{entry_of, index_of, moved, taken, without};
ghost use Rattle.std.specs.Option.{option_copied};

use arrayvec::ArrayVec;

/// An entry that has a number as its key.
pub trait Keyed {
    ghost key: { Self → ℕ };

    /// The key of this entry.
    fn key_of(&self) -> u32
        ensures { result ≡ key self.now };
}

/// A byte is its own key.
impl Keyed for u8 {
    ghost key = { λ n. n };

    fn key_of(&self) -> u32 {
        u32::from(*self)
    }
}

/// A number is its own key.
impl Keyed for u32 {
    ghost key = { λ n. n };

    fn key_of(&self) -> u32 {
        *self
    }
}

/// The index of the first entry that has the key, or nothing where none has it.
pub fn find<T: Keyed>(entries: &[T], sought: u32) -> Option<usize>
    ensures index { result ≡ index_of T.key sought entries.now }
    ensures within { IfSome result (λ i. i < length entries.now) }
{
    entries.iter().position(|entry| entry.key_of() == sought)
}

/// The first entry that has the key, or nothing where none has it.
pub fn entry_of<T: Keyed>(entries: &[T], sought: u32) -> Option<&T>
    ensures { option_copied result ≡ entry_of T.key sought entries.now }
{
    entries.iter().find(|entry| entry.key_of() == sought)
}

/// Moves the first entry that has the key behind all others, which keep their order, and answers the index where it
/// stood. Where none has the key, nothing is answered and nothing moves.
pub fn take_out<T: Keyed>(entries: &mut [T], sought: u32) -> Option<usize>
    ensures index { result ≡ index_of T.key sought entries.old }
    ensures within { IfSome result (λ i. i < length entries.old) }
    ensures after { entries.new ≡ moved T.key sought entries.old }
{
    let i = find(entries, sought)?;
    entries[i..].rotate_left(1);
    Some(i)
}

/// Takes the first entry that has the key out of a list, with the index where it stood; the others keep their order.
/// Where none has the key, nothing is answered and nothing changes.
pub fn take<T: Keyed + Default + Drop, const N: usize>(
    list: &mut ArrayVec<T, N>,
    sought: u32,
) -> Option<(usize, T)>
    ensures value { result ≡ taken T.key sought list.old.items }
    ensures after { list.new.items ≡ without T.key sought list.old.items }
{
    let index = take_out(list.as_mut_slice(), sought)?;
    let entry = list.pop()?;
    Some((index, entry))
}
