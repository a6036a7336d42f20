// An input read into a buffer.
#![tactic(auto)]

ghost use Rattle.std.specs.Prelude.{◌<◌, ◌≤◌, length, take, IfOk, IfErr};
ghost use Rattle.std.specs.Io.KnownBytes.{Consumes, IsAtEnd};
ghost use Rattle.input.specs.Input.{Further};

#[cfg(test)]
mod tests;

use std::io::{Error, Read};

// A read that failed, and how many bytes were read before it.
#[derive(Clone, Copy)]
pub struct ReadError {
    pub len: usize,
    pub error: Error,
}

// Reads until the buffer is full, the input ends or a read fails. Answers how many bytes were read; they are the input's, in order.
pub fn read_full<R: Read>(input: &mut R, buf: &mut [u8]) -> Result<usize, ReadError>
    ensures within { Further 0 (length buf.new) result }
    ensures bytes { IfOk result (λ len. Consumes (R.remaining input.old) (R.remaining input.new) (take len buf.new)) }
    ensures end { IfOk result (λ len. len < length buf.new → IsAtEnd (R.remaining input.new)) }
    ensures err_within { IfErr result (λ failed. failed.len ≤ length buf.new) }
    ensures err_bytes { IfErr result (λ failed. Consumes (R.remaining input.old) (R.remaining input.new) (take failed.len buf.new)) }
{
    let mut len = 0;
    // No `for`: each turn goes on by what a read gave.
    while len < buf.len() {
        match input.read(&mut buf[len..]) {
            Ok(0) => break,
            Ok(n) => len += n,
            Err(error) => return Err(ReadError { len, error }),
        }
    }
    Ok(len)
}
