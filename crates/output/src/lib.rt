// What the programs share: what they print goes through a buffer, `failure` tells what went wrong, and `input` reads all that comes.
#![tactic(auto)]

ghost use Rattle.std.specs.Prelude.{◌≡◌, ◌-◌, ◌<◌, ◌≤◌, length, get_or, IfOk};

use std::io::{Result, Write};

pub mod failure;
pub mod input;

// An array of one item over and over, for the programs' large arrays. The clause tells the length alone: if it told the items as well, a proof
// about such a program would look at each of them, and the checker would run out of stack.
pub fn filled<T: Copy, const N: usize>(item: T) -> [T; N]
    ensures { N ≡ length result }
{
    [item; N]
}

// A writer with a buffer before it, as std's `BufWriter`, but with no heap: the first `held` bytes are still to be written out.
// Nothing is promised of which bytes these are: where `write_all` fails, a part of them may have been written.
#[derive(Drop)]
pub struct Sink<W> {
    to: W,
    buffer: [u8; 65536],
    held: usize,
    ghost fits: { held ≤ 65536 },
}

impl<W: Write> Sink<W> {
    pub fn new(to: W) -> Sink<W> {
        Sink {
            to,
            buffer: filled(0),
            held: 0,
        }
    }

    // Writes out what the buffer holds.
    fn write_out(&mut self) -> Result<()>
        ensures { IfOk result (λ u. self.new.held ≡ 0) }
    {
        self.to.write_all(&self.buffer[..self.held])?;
        self.held = 0;
        Ok(())
    }

    // Puts a byte; a full buffer is written out first. For what is put byte by byte: `write` takes several times as long for one.
    pub fn put(&mut self, b: u8) -> Result<()>
        ensures some { IfOk result (λ u. 0 < self.new.held) }
        ensures last { IfOk result (λ u. get_or self.new.buffer (self.new.held - 1) 0 ≡ b) }
    {
        if self.held == self.buffer.len() {
            self.write_out()?;
        }
        self.buffer[self.held] = b;
        self.held += 1;
        Ok(())
    }
}

impl<W: Write> Write for Sink<W> {
    // Puts as many bytes as have room; a full buffer is written out first.
    fn write(&mut self, bytes: &[u8]) -> Result<usize> {
        if self.held == self.buffer.len() {
            self.write_out()?;
        }
        let count = bytes.len().min(self.buffer.len() - self.held);
        self.buffer[self.held..self.held + count].copy_from_slice(&bytes[..count]);
        self.held += count;
        Ok(count)
    }

    fn flush(&mut self) -> Result<()> {
        self.write_out()?;
        self.to.flush()
    }
}

// The first n items, or all where there are fewer.
pub fn front<T>(s: &[T], n: usize) -> &[T] {
    &s[..n.min(s.len())]
}

// What follows the first n bytes; nothing where there are fewer.
pub fn after(s: &[u8], n: usize) -> &[u8] {
    &s[n.min(s.len())..]
}

// The first n items, or all where there are fewer, to be changed.
pub fn front_mut<T>(s: &mut [T], n: usize) -> &mut [T] {
    let end = n.min(s.len());
    &mut s[..end]
}
