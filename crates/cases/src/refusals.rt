// What is refused, and leaves each word as it was.

ghost use Rattle.std.specs.Prelude.{◌≡◌, ◌≤◌, length, get_or, eqb};
ghost use Rattle.rules.specs.Tests.{all};

use super::{set_up, step};
use rules::Settings;

// Whether each word is 7.
fn untouched(words: &[u32]) -> bool
    ensures { result ≡ all (length words.now) (λ i. eqb (get_or words.now i 0) 7) }
{
    words.iter().all(|word| *word == 7)
}

// Whether a set-up of so many words gives the number, which is document 01's, and leaves each word as it was.
fn is_refused<const WORDS: usize>(settings: [u32; 6], number: u32) -> bool
    requires { WORDS ≤ 8209 }
{
    let mut words = [7; WORDS];
    set_up(&mut words, settings) == number && untouched(&words)
}

pub(crate) fn seventeen_threads() -> bool {
    is_refused::<56>([17, 1, 1, 2, 1, 0], 12)
}

// The settings of the printed example need 56 words.
pub(crate) fn one_too_few() -> bool {
    image::words_needed(Settings::from([2, 1, 1, 2, 1, 4294967295])) == 56
        && is_refused::<55>([2, 1, 1, 2, 1, 4294967295], 13)
}

pub(crate) fn empty_image() -> bool {
    step(&mut [], [0; 5]) == (1, 0) && machine::retired_number(&[], 0) == 1
}
