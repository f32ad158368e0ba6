//! The host's standard output, which remembers whether its reader has gone.
//! A write to a pipe that nobody reads any more fails; the host's runtime lets no signal end the program then.

use std::cell::Cell;
use std::fmt::Display;
use std::io;
use std::io::{Error, ErrorKind};

/// Standard output, which forwards each call to the runtime's.
#[derive(Drop)]
pub struct WatchedOutput<'a, R> {
    rt: &'a R,
    gone: Cell<bool>,
}

impl<'a, R: Print> WatchedOutput<'a, R> {
    /// The runtime's standard output.
    pub fn new(rt: &'a R) -> Self {
        WatchedOutput {
            rt,
            gone: Cell::new(false),
        }
    }

    /// Whether a write failed since nobody reads the output any more.
    pub fn has_no_reader(&self) -> bool {
        self.gone.get()
    }

    // The error of a write, which is noted where nobody reads.
    fn noted(&self, error: Error) -> Error {
        if error.kind() == ErrorKind::BrokenPipe {
            self.gone.set(true);
        }
        error
    }
}

impl<'a, R: Print> Print for WatchedOutput<'a, R> {
    fn print<D: Display + Drop>(&self, value: D) -> io::Result<()> {
        match self.rt.print(value) {
            Ok(()) => Ok(()),
            Err(error) => Err(self.noted(error)),
        }
    }

    fn println<D: Display + Drop>(&self, value: D) -> io::Result<()> {
        match self.rt.println(value) {
            Ok(()) => Ok(()),
            Err(error) => Err(self.noted(error)),
        }
    }

    fn write_all(&self, bytes: &[u8]) -> io::Result<()> {
        match self.rt.write_all(bytes) {
            Ok(()) => Ok(()),
            Err(error) => Err(self.noted(error)),
        }
    }

    fn write_some(&self, bytes: &[u8]) -> io::Result<usize> {
        match self.rt.write_some(bytes) {
            Ok(count) => Ok(count),
            Err(error) => Err(self.noted(error)),
        }
    }
}
