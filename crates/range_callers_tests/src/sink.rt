//! An output that takes little at once, or fails.
use std::alloc::Global;
use std::io::{self, ErrorKind, Write};

/// An output that takes `at_once` bytes at once and `room` in all, can be flushed `flushes` times,
/// and then fails.
#[derive(Drop)]
pub(crate) struct Sink {
    pub(crate) taken: Vec<u8>,
    pub(crate) at_once: usize,
    pub(crate) room: usize,
    pub(crate) flushes: usize,
}

impl Sink {
    /// An output that can be flushed as often as need be.
    pub(crate) fn taking(alloc: Global, at_once: usize, room: usize) -> Sink {
        Sink {
            taken: Vec::new(alloc),
            at_once,
            room,
            flushes: usize::MAX,
        }
    }

    /// An output that takes everything, and can be flushed so often.
    pub(crate) fn flushed(alloc: Global, flushes: usize) -> Sink {
        Sink {
            taken: Vec::new(alloc),
            at_once: usize::MAX,
            room: usize::MAX,
            flushes,
        }
    }
}

impl Write for Sink {
    fn write(&mut self, buf: &[u8]) -> io::Result<usize> {
        if self.room == 0 {
            return Err(io::Error::from(ErrorKind::BrokenPipe));
        }
        let n = buf.len().min(self.at_once).min(self.room);
        self.taken.extend_from_slice(&buf[..n])?;
        self.room -= n;
        Ok(n)
    }

    fn flush(&mut self) -> io::Result<()> {
        if self.flushes == 0 {
            return Err(io::Error::from(ErrorKind::TimedOut));
        }
        self.flushes -= 1;
        Ok(())
    }
}
