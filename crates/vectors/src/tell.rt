// Comparing: what was given is held to what was expected.
ghost use Rattle.vectors.specs.Compared.{First};

use std::fmt::Display;
use std::io;

// The line on a case. It tells all that differs, and is begun at the first difference.
#[derive(Drop)]
pub(crate) struct Line<'a, R> {
    rt: &'a R,
    name: &'a str,
    case: usize,
    begun: bool,
}

// The first place at which two runs differ, or where the shorter ends.
fn first_difference<T: PartialEq>(a: &[T], b: &[T]) -> usize
    ensures { First T.eq a.now b.now result }
{
    a.iter()
        .zip(b)
        .position(|(x, y)| x != y)
        .unwrap_or(a.len().min(b.len()))
}

impl<'a, R: Print> Line<'a, R> {
    // The line on a case of the file of that name.
    pub(crate) fn new(rt: &'a R, name: &'a str, case: usize) -> Self {
        Line {
            rt,
            name,
            case,
            begun: false,
        }
    }

    // The line's beginning, or what stands between two differences.
    fn begin(&mut self) -> io::Result<()> {
        if self.begun {
            return print!(self.rt; "; ");
        }
        self.begun = true;
        print!(self.rt; "{} case {}: ", self.name, self.case)
    }

    // Tells a difference.
    fn tell(
        &mut self,
        what: impl Display + Drop,
        given: impl Display + Drop,
        expected: impl Display + Drop,
    ) -> io::Result<()> {
        self.begin()?;
        print!(self.rt; "{what} {given}, expected {expected}")
    }

    // Compares a number.
    pub(crate) fn number<T: PartialEq + Display + Drop>(
        &mut self,
        what: &str,
        given: T,
        expected: T,
    ) -> io::Result<()> {
        if given != expected {
            self.tell(what, given, expected)?;
        }
        Ok(())
    }

    // Compares words or bytes: tells the first that differs.
    pub(crate) fn items<T: PartialEq + Display>(
        &mut self,
        what: &str,
        given: &[T],
        expected: &[T],
    ) -> io::Result<()> {
        let k = first_difference(given, expected);
        if let (Some(x), Some(y)) = (given.get(k), expected.get(k)) {
            self.tell(format_args!("{what} {k}:"), x, y)?;
        }
        Ok(())
    }

    // The end of a case: whether anything differs.
    pub(crate) fn end(self) -> io::Result<bool> {
        if self.begun {
            println!(self.rt)?;
        }
        Ok(self.begun)
    }
}
