// Steps one after another from a set-up: a row has the step's five words, and the number and the value that it must give: numbers, as document 01 has them.
ghost use Rattle.std.specs.Prelude.{◌≤◌};

use super::{set_up, step};

// The steps of "F=2": an advance is refused after the first retire, and taken after the second.
const SECOND_RETIRE: &[[u32; 7]] = &[
    [0, 0, 0, 0, 0, 0, 1],
    [0, 0, 0, 0, 0, 0, 2],
    [0, 7, 1, 0, 0, 0, 1],
    [0, 8, 0, 0, 0, 6, 0],
    [0, 7, 2, 0, 0, 0, 2],
    [0, 8, 0, 0, 0, 0, 1],
];

// The steps of the printed example.
const PRINTED: &[[u32; 7]] = &[
    [0, 0, 0, 0, 0, 0, 1],
    [0, 1, 0, 0, 1, 0, 1],
    [1, 2, 0, 0, 0, 0, 1],
    [1, 3, 0, 0, 0, 0, 1],
    [1, 4, 0, 0, 0, 0, 1],
    [0, 1, 0, 1, 0, 0, 1],
    [0, 7, 1, 0, 0, 0, 1],
    [0, 8, 0, 0, 0, 0, 1],
    [0, 8, 0, 0, 0, 0, 1],
    [0, 8, 0, 0, 0, 0, 1],
    [0, 8, 0, 0, 0, 0, 1],
    [0, 8, 0, 0, 0, 0, 1],
    [0, 8, 0, 0, 0, 0, 0],
    [1, 9, 0, 0, 0, 0, 1],
    [1, 10, 0, 0, 0, 0, 1],
    [1, 10, 0, 0, 0, 0, 2],
    [0, 8, 0, 0, 0, 0, 1],
    [0, 8, 0, 0, 0, 0, 1],
    [0, 8, 0, 0, 0, 0, 1],
    [0, 8, 0, 0, 0, 0, 2],
    [1, 5, 0, 0, 0, 0, 1],
    [1, 6, 0, 0, 0, 0, 0],
    [1, 5, 0, 0, 0, 11, 0],
];

// Whether a row's step gives the number and the value that stand at its end.
fn is_given(image: &mut [u32], row: &[u32; 7]) -> bool {
    let [thread, op, a, b, c, number, value] = *row;
    step(image, [thread, op, a, b, c]) == (number, value)
}

// Whether each row's step, one after another, gives what the row says.
fn are_given(image: &mut [u32], rows: &[[u32; 7]]) -> bool {
    rows.iter().all(|row| is_given(image, row))
}

// Whether an image of so many words is set up, and the rows' steps on it give what the rows say.
fn pass<const WORDS: usize>(settings: [u32; 6], rows: &[[u32; 7]]) -> bool
    requires { WORDS ≤ 8209 }
{
    let mut image = [0; WORDS];
    set_up(&mut image, settings) == 0 && are_given(&mut image, rows)
}

pub(crate) fn second_retire() -> bool {
    pass::<35>([1, 1, 1, 2, 2, 0], SECOND_RETIRE)
}

pub(crate) fn printed() -> bool {
    pass::<56>([2, 1, 1, 2, 1, 4294967295], PRINTED)
}
