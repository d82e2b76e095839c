//! What is replaced next, proved for every rule from what a rule means alone.
ghost use Rattle.std.specs.Prelude.{◌≡◌, is_some, if◌then◌else◌, None, nat_lt, slice_get};

use replacement::rule::Replacement;

/// The way of a set that is replaced first: the first in its order. There is one exactly where there is such a set.
pub fn next_victim<R: Replacement>(rule: &R, set: usize) -> Option<usize>
    ensures value { result ≡ (if nat_lt set (R.geometry rule.now).sets then slice_get (R.order rule.now set) 0 else None) }
    ensures test { is_some result ≡ nat_lt set (R.geometry rule.now).sets }
{
    rule.pick(set, u8::MAX)
}
