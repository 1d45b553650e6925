// Runs outside test vectors through the public functions and compares: four files, from this folder or named by the arguments.
#![tactic(auto)]

mod lists;
mod read;
mod schedules;
mod setups;
mod steps;
mod tell;

use lists::Question;
use read::{Source, Stop};
use schedules::Schedule;
use setups::SetUp;
use std::io::Read;
use std::rt::Files;
use std::{env, fs, io};
use steps::SingleStep;
use tell::Line;

// A case of a file: how it is read, and how it is run and compared.
trait Case: Sized + Drop {
    // The file where no argument names one.
    const FILE: &'static str;

    fn read<F: Read>(source: &mut Source<F>) -> Result<Self, Stop>;

    // Runs the case, and tells on its line what differs.
    fn compare<R: Print>(self, line: &mut Line<'_, R>) -> io::Result<()>;
}

// A file whose cases are run, and what its lines are printed to.
#[derive(Drop)]
struct Run<'a, R, F> {
    rt: &'a R,
    name: &'a str,
    source: Source<F>,
}

impl<R: Print, F: Read> Run<'_, R, F> {
    // Case i: whether it differs.
    fn is_different<C: Case>(&mut self, i: usize) -> Result<bool, Stop> {
        let case = C::read(&mut self.source)?;
        let mut line = Line::new(self.rt, self.name, i);
        case.compare(&mut line)?;
        Ok(line.end()?)
    }

    // The first n cases: how many differ, or the case at which they stop, and why.
    fn differing<C: Case>(&mut self, n: usize) -> Result<usize, (usize, Stop)> {
        let mut differ = 0;
        for i in 0..n {
            if self.is_different::<C>(i).map_err(|stop| (i, stop))? {
                differ += 1;
            }
        }
        Ok(differ)
    }

    // The first n cases, and the file's last line.
    fn cases<C: Case>(&mut self, n: usize) -> io::Result<()> {
        let rt = self.rt;
        let name = self.name;
        match self.differing::<C>(n) {
            Ok(differ) => {
                if self.source.is_end()? {
                    println!(rt; "{name}: {n} cases, {differ} differ")
                } else {
                    println!(rt; "{name}: longer than its counts say")
                }
            }
            Err((i, Stop::Cut)) => println!(rt; "{name}: cut short in case {i}"),
            Err((i, Stop::TooLarge)) => println!(rt; "{name} case {i}: too large"),
            Err((_, Stop::Io(e))) => Err(e),
        }
    }

    // The whole file: how many cases it has, and the cases.
    fn whole<C: Case>(&mut self) -> io::Result<()> {
        match self.source.word() {
            Ok(n) => self.cases::<C>(n as usize),
            Err(Stop::Io(e)) => Err(e),
            Err(_) => println!(self.rt; "{}: cut short in its count", self.name),
        }
    }
}

// The file of that name.
fn file<C: Case>(rt: &(impl Files + Print + AllocGlobal), name: &str) -> io::Result<()> {
    match fs::open(rt, name) {
        Ok(file) => {
            let source = Source::new(rt.alloc(), file);
            Run { rt, name, source }.whole::<C>()
        }
        Err(_) => println!(rt; "{name}: missing"),
    }
}

// The file that an argument names, or the usual one where there are fewer arguments.
fn named<C: Case>(rt: &(impl Files + Print + AllocGlobal), name: Option<String>) -> io::Result<()> {
    match name {
        Some(name) => file::<C>(rt, name.as_str()),
        None => file::<C>(rt, C::FILE),
    }
}

fn main(rt: HostRuntime) -> io::Result<()> {
    let mut names = env::args(&rt)?.skip(1);
    named::<SingleStep>(&rt, names.next())?;
    named::<SetUp>(&rt, names.next())?;
    named::<Question>(&rt, names.next())?;
    named::<Schedule>(&rt, names.next())
}
