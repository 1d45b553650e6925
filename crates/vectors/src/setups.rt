// Set-ups: how many words the buffer has, the six settings, the number, and where that is 0 the image.
use super::Case;
use super::read::{ROOM, Source, Stop, within};
use super::tell::Line;
use rules::Settings;
use std::io;
use std::io::Read;

// A set-up: its settings, its number as the file has it, and the words. Given and expected are as long. Both hold a pattern, which a refused set-up leaves as it is.
#[derive(Drop)]
pub(crate) struct SetUp {
    settings: Settings,
    number: u32,
    given: Vec<u32>,
    expected: Vec<u32>,
}

impl Case for SetUp {
    const FILE: &'static str = "setups.words";

    fn read<F: Read>(source: &mut Source<F>) -> Result<Self, Stop> {
        let [n, threads, slots, cells, records, threshold, start, number] = source.array::<8>()?;
        let n = within(n, ROOM)?;
        let given = source.filled(7, n)?;
        let expected = if number == 0 {
            source.words(n)?
        } else {
            source.filled(7, n)?
        };
        Ok(SetUp {
            settings: Settings::from([threads, slots, cells, records, threshold, start]),
            number,
            given,
            expected,
        })
    }

    // The number, how many words are needed where the settings and the buffer are right, and every word of the buffer.
    fn compare<R: Print>(mut self, line: &mut Line<'_, R>) -> io::Result<()> {
        line.number(
            "number",
            image::set_up_number(image::set_up(&mut self.given, self.settings)),
            self.number,
        )?;
        if self.number == 0 {
            line.number(
                "words needed",
                image::words_needed(self.settings),
                self.given.len(),
            )?;
        }
        line.items("word", &self.given, &self.expected)
    }
}
