// What is read of a file, as much at a time as a case needs.
ghost use Rattle.std.specs.Prelude.{◌≡◌, ◌*◌, ◌<◌, ◌≤◌, [], ◌∷◌, length, IfOk, OnErr};
ghost use Rattle.std.specs.Io.KnownBytes.{Consumes};
ghost use Rattle.vectors.specs.Compared.{Words, Takes};

use replay::schedule::word;
use std::alloc::{AllocError, Global};
use std::io;
use std::io::{ErrorKind, Read};

// Why no further case is run: the file can't be read, or it ends, or this case has no room.
#[derive(Debug, Drop)]
pub(crate) enum Stop {
    Io(io::Error),
    Cut,
    TooLarge,
}

impl From<io::Error> for Stop {
    fn from(e: io::Error) -> Stop {
        match e.kind() {
            ErrorKind::UnexpectedEof => Stop::Cut,
            _ => Stop::Io(e),
        }
    }
}

impl From<AllocError> for Stop {
    fn from(e: AllocError) -> Stop {
        Stop::Io(io::Error::from(e))
    }
}

// The most words that a case's image has room for.
pub(crate) const ROOM: u32 = 8300;

// How many words or bytes a file says come next, if that is no more than there is room for.
pub(crate) fn within(n: u32, most: u32) -> Result<usize, Stop>
    ensures ok { IfOk result (λ k. (k ≡ n) × (k ≤ most)) }
    ensures err { OnErr result (most < n) }
{
    if most < n {
        return Err(Stop::TooLarge);
    }
    Ok(n as usize)
}

// A file that is read, and the memory for what is read of it.
#[derive(Drop)]
pub(crate) struct Source<F> {
    alloc: Global,
    file: F,
}

// Words from bytes, the lowest byte first.
#[tactic(auto, unfolding(crate::specs::Compared::Words))]
fn from_bytes(bytes: &[u8], out: &mut [u32])
    requires { length out.old * 4 ≤ length bytes.now }
    ensures { (length out.new ≡ length out.old) × Words bytes.now out.new (length out.new) }
{
    for (i, x) in out.iter_mut().enumerate() {
        *x = word(bytes, i);
    }
}

impl<F: Read> Source<F> {
    pub(crate) fn new(alloc: Global, file: F) -> Self {
        Source { alloc, file }
    }

    // Memory for n words or bytes, each of them x at first.
    pub(crate) fn filled<T: Copy>(&self, x: T, n: usize) -> Result<Vec<T>, Stop>
        ensures { IfOk result (λ xs. length xs.items ≡ n) }
    {
        Ok(vec![in self.alloc; x; n]?)
    }

    // The next n bytes.
    pub(crate) fn bytes(&mut self, n: usize) -> Result<Vec<u8>, Stop>
        ensures { IfOk result (λ xs. (length xs.items ≡ n) × Consumes (F.remaining self.old.file) (F.remaining self.new.file) xs.items) }
    {
        let mut bytes = self.filled(0, n)?;
        self.file.read_exact(&mut bytes)?;
        Ok(bytes)
    }

    // The next n words.
    pub(crate) fn words(&mut self, n: usize) -> Result<Vec<u32>, Stop>
        ensures { IfOk result (λ xs. (length xs.items ≡ n) × Takes (F.remaining self.old.file) (F.remaining self.new.file) xs.items) }
    {
        let bytes = self.bytes(n.checked_mul(4).ok_or(Stop::TooLarge)?)?;
        let mut words = self.filled(0, n)?;
        from_bytes(&bytes, &mut words);
        Ok(words)
    }

    // The next N words. The head of a set-up has the most, 8.
    pub(crate) fn array<const N: usize>(&mut self) -> Result<[u32; N], Stop>
        requires { N ≤ 8 }
        ensures { IfOk result (λ xs. Takes (F.remaining self.old.file) (F.remaining self.new.file) xs) }
    {
        let mut space = [0; 32];
        let bytes = &mut space[..N * 4];
        self.file.read_exact(bytes)?;
        let mut words = [0; N];
        from_bytes(bytes, &mut words);
        Ok(words)
    }

    // The next word.
    pub(crate) fn word(&mut self) -> Result<u32, Stop>
        ensures { IfOk result (λ x. Takes (F.remaining self.old.file) (F.remaining self.new.file) (x ∷ [])) }
    {
        let [word] = self.array::<1>()?;
        Ok(word)
    }

    // Whether nothing is left.
    pub(crate) fn is_end(&mut self) -> io::Result<bool> {
        Ok(self.file.by_ref().bytes().next().transpose()?.is_none())
    }
}
