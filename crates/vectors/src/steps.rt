// Single steps: how many words the image has, the image, the step, the number, the value, the image afterwards.
use super::Case;
use super::read::{ROOM, Source, Stop, within};
use super::tell::Line;
use rules::Step;
use std::io;
use std::io::Read;

// A step on an image, what it must give, and the image as it must be afterwards; numbers, as the file has them.
#[derive(Drop)]
pub(crate) struct SingleStep {
    image: Vec<u32>,
    step: Step,
    number: u32,
    value: u32,
    after: Vec<u32>,
}

// Takes a step: number and value of its reply, as the file has them. `cases` does the same: a function for both would be one of `rules` that no library calls.
fn reply(image: &mut [u32], step: Step) -> (u32, u32) {
    let reply = machine::step(image, step);
    (rules::number(reply), rules::value(reply))
}

impl Case for SingleStep {
    const FILE: &'static str = "steps.words";

    fn read<F: Read>(source: &mut Source<F>) -> Result<Self, Stop> {
        let n = within(source.word()?, ROOM)?;
        let image = source.words(n)?;
        let [thread, op, a, b, c, number, value] = source.array::<7>()?;
        Ok(SingleStep {
            image,
            step: Step::from([thread, op, a, b, c]),
            number,
            value,
            after: source.words(n)?,
        })
    }

    // The number, the value and every word after the step.
    fn compare<R: Print>(mut self, line: &mut Line<'_, R>) -> io::Result<()> {
        let (number, value) = reply(&mut self.image, self.step);
        line.number("number", number, self.number)?;
        line.number("value", value, self.value)?;
        line.items("word", &self.image, &self.after)
    }
}
