// List questions: how many words the image has, the image, the thread, the number, how many entries are handed back, the entries.
use super::Case;
use super::read::{ROOM, Source, Stop, within};
use super::tell::Line;
use std::io;
use std::io::Read;

// A thread's list asked for, and the number and the entries that must be given; numbers, as the file has them.
#[derive(Drop)]
pub(crate) struct Question {
    image: Vec<u32>,
    thread: u32,
    number: u32,
    entries: Vec<u32>,
}

impl Case for Question {
    const FILE: &'static str = "lists.words";

    fn read<F: Read>(source: &mut Source<F>) -> Result<Self, Stop> {
        let n = within(source.word()?, ROOM)?;
        let image = source.words(n)?;
        let [thread, number, n] = source.array::<3>()?;
        let n = within(n, ROOM)?;
        let entries = source.words(n)?;
        Ok(Question {
            image,
            thread,
            number,
            entries,
        })
    }

    // The number, how many entries are handed back, and each of them.
    fn compare<R: Print>(self, line: &mut Line<'_, R>) -> io::Result<()> {
        let part = machine::retired(&self.image, self.thread);
        line.number(
            "number",
            machine::retired_number(&self.image, self.thread),
            self.number,
        )?;
        line.number("length", part.len(), self.entries.len())?;
        line.items("word", part, &self.entries)
    }
}
