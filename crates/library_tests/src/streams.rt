//! Readers that give little at a time, and writers that take little and fail.

use std::alloc::Global;
use std::io::{self, Error, ErrorKind, Read, Write};

/// A reader that gives at most so many bytes a call; at their end it fails once where it is to.
#[derive(Drop)]
pub struct Pieces<'a> {
    pub bytes: &'a [u8],
    pub size: usize,
    pub fault: Option<ErrorKind>,
}

impl Read for Pieces<'_> {
    fn read(&mut self, buf: &mut [u8]) -> io::Result<usize> {
        if self.bytes.is_empty()
            && let Some(kind) = self.fault.take()
        {
            return Err(Error::from(kind));
        }
        let most = self.size.min(buf.len());
        match buf.get_mut(..most) {
            Some(room) => self.bytes.read(room),
            None => Ok(0),
        }
    }
}

/// A writer that takes so many bytes, at most so many of them a call. The call after these fails or, without a fault, answers 0; the
/// calls after that one are answered as if it had not been.
#[derive(Drop)]
pub struct Narrow {
    pub taken: Vec<u8>,
    left: usize,
    most: usize,
    fault: Option<ErrorKind>,
}

pub fn taking(alloc: Global, left: usize, most: usize, fault: Option<ErrorKind>) -> Narrow {
    Narrow {
        taken: Vec::new(alloc),
        left,
        most,
        fault,
    }
}

impl Write for Narrow {
    fn write(&mut self, buf: &[u8]) -> io::Result<usize> {
        if self.left == 0 {
            self.left = usize::MAX;
            return match self.fault {
                Some(kind) => Err(Error::from(kind)),
                None => Ok(0),
            };
        }
        let n = buf.len().min(self.left).min(self.most);
        self.taken.extend_from_slice(&buf[..n])?;
        self.left -= n;
        Ok(n)
    }

    fn flush(&mut self) -> io::Result<()> {
        Ok(())
    }
}
