// Standard output and standard error as the programs write to them.
#![tactic(auto)]

use std::io;
use std::io::{ErrorKind, Write};

// What is written to a stream, or lost there. A pipe that nobody reads any more is an error, so that the program ends at that print; after any other error the print is
// lost and the program goes on, since files that it still has to write do not depend on what is read of it.
#[derive(Drop)]
pub struct Output<W: Write> {
    to: W,
}

// Internal: an output to a stream.
pub fn to<W: Write>(to: W) -> Output<W> {
    Output { to }
}

// Whether an error is left to whoever writes: a pipe that nobody reads, and a write that a signal cut off, which is tried again.
fn is_told(e: &io::Error) -> bool {
    matches!(e.kind(), ErrorKind::BrokenPipe | ErrorKind::Interrupted)
}

impl<W: Write> Write for Output<W> {
    fn write(&mut self, buf: &[u8]) -> io::Result<usize> {
        match self.to.write(buf) {
            Err(e) if !is_told(&e) => Ok(buf.len()),
            told => told,
        }
    }

    fn flush(&mut self) -> io::Result<()> {
        self.to.flush()
    }
}

// What is written to standard error, or lost there: after any error the print is lost, and what comes after it is tried all the same, since no answer depends on it.
#[derive(Drop)]
pub struct Lossy<W: Write> {
    to: W,
}

// Internal: standard error, which never fails.
pub fn errors<W: Write>(to: W) -> Lossy<W> {
    Lossy { to }
}

impl<W: Write> Write for Lossy<W> {
    fn write(&mut self, buf: &[u8]) -> io::Result<usize> {
        let _ = self.to.write_all(buf);
        Ok(buf.len())
    }

    fn flush(&mut self) -> io::Result<()> {
        self.to.flush()
    }
}
