// The schedule program: a schedule on standard input, its replies on standard output. Of the C library it rests on read and write, and on what names an error where one of them fails; it has no heap.
#![tactic(auto)]

ghost use Rattle.std.specs.Prelude.{◌≤◌, length, IfOk};

use std::io;
use std::io::{Read, Write};

// Reads until the buffer is full or the input ends; how many bytes it put at the buffer's start. A loop with a count beside the buffer, as nothing new is assumed: std's `read_to_end` fills a Vec, by three functions more of the C library.
fn read_full(input: &mut impl Read, buffer: &mut [u8]) -> io::Result<usize>
    ensures { IfOk result (λ n. n ≤ length buffer.new) }
{
    let mut n = 0;
    while n < buffer.len() {
        let more = input.read(&mut buffer[n..])?;
        if more == 0 {
            break;
        }
        n += more;
    }
    Ok(n)
}

// The longest schedule has 20,032 bytes, so that an input that fills this buffer is none.
fn main(rt: HostRuntime) -> io::Result<()> {
    let mut input = [0; 20033];
    let n = read_full(&mut rt.stdin(), &mut input)?;
    let mut out = [0; 44075];
    if let Ok(k) = replay::replay(&input[..n], &mut out) {
        rt.stdout().write_all(&out[..k])?;
    }
    Ok(())
}
