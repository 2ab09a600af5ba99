// Reading what a reader gives into a buffer that the caller lends.
ghost use Rattle.std.specs.Prelude.{◌≤◌, length, IfOk, IfErr};

use std::io::{Error, Read};

// A read that failed: how many bytes had come before, and why.
#[derive(Clone, Copy)]
pub struct Stopped {
    pub count: usize,
    pub why: Error,
}

// Reads until the input ends or the buffer is full, and answers how many bytes there are.
pub fn read_all<R: Read>(reader: &mut R, buffer: &mut [u8]) -> Result<usize, Stopped>
    ensures came { IfOk result (λ n. n ≤ length buffer.old) }
    ensures before { IfErr result (λ s. s.count ≤ length buffer.old) }
{
    let mut n = 0;
    // The next place is what the read told.
    while n < buffer.len() {
        match reader.read(&mut buffer[n..]) {
            Ok(0) => return Ok(n),
            Ok(more) => n += more,
            Err(why) => return Err(Stopped { count: n, why }),
        }
    }
    Ok(n)
}
