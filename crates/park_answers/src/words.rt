// The words by which `park` is asked.
ghost use Rattle.std.specs.Prelude.{◌≡◌};
ghost use Rattle.park_answers.specs.Words.{asked_by};

use crate::Asked;

// What a word asks, if it is one of the four.
pub fn asked_by(word: &[u8]) -> Option<Asked>
    ensures { result ≡ asked_by word.now }
{
    if word == b"check".as_slice() {
        return Some(Asked::Check);
    }
    if word == b"full".as_slice() {
        return Some(Asked::Full);
    }
    if word == b"events".as_slice() {
        return Some(Asked::Events);
    }
    if word == b"after".as_slice() {
        return Some(Asked::After);
    }
    None
}
