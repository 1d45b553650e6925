// Schedules: how many bytes go in and come out, the input, the output.
use super::Case;
use super::read::{Source, Stop, within};
use super::tell::Line;
use std::io;
use std::io::Read;

// The most bytes that an input or an output may have, one less than there is room for.
const MOST: u32 = 65535;

// The bytes of the lent buffer.
const LENT: usize = 65536;

// An input, the output that it must give, and the buffer that is lent for one.
#[derive(Drop)]
pub(crate) struct Schedule {
    input: Vec<u8>,
    expected: Vec<u8>,
    given: Vec<u8>,
}

impl Case for Schedule {
    const FILE: &'static str = "schedules.bundle";

    fn read<F: Read>(source: &mut Source<F>) -> Result<Self, Stop> {
        let [n, m] = source.array::<2>()?;
        let n = within(n, MOST)?;
        let m = within(m, MOST)?;
        Ok(Schedule {
            input: source.bytes(n)?,
            expected: source.bytes(m)?,
            given: source.filled(0, LENT)?,
        })
    }

    // How many bytes are written, and each of them. Where they have no room, all that there is counts as written.
    fn compare<R: Print>(mut self, line: &mut Line<'_, R>) -> io::Result<()> {
        let n = replay::replay(&self.input, &mut self.given).unwrap_or(LENT);
        line.number("length", n, self.expected.len())?;
        line.items("byte", &self.given, &self.expected)
    }
}
