//! Readers and writers that fail at a given call, for the tests.
use std::io;
use std::io::{Read, Write};

/// Gives its bytes a few at a time, and then fails instead of ending.
#[derive(Drop)]
pub struct BrokenReader<'a> {
    rest: &'a [u8],
}

impl<'a> BrokenReader<'a> {
    pub fn new(bytes: &'a [u8]) -> BrokenReader<'a> {
        BrokenReader { rest: bytes }
    }
}

impl<'a> Read for BrokenReader<'a> {
    fn read(&mut self, buf: &mut [u8]) -> io::Result<usize> {
        match (self.rest.split_first(), buf.first_mut()) {
            (Some((byte, after)), Some(place)) => {
                *place = *byte;
                self.rest = after;
                Ok(1)
            },
            _ => Err(io::Error::from(io::ErrorKind::BrokenPipe)),
        }
    }
}

/// Takes what is written, a thousand bytes at a time, but fails at one write or at one flush, counted
/// from 0.
#[derive(Drop)]
pub struct BrokenWriter {
    pub taken: Vec<u8>,
    pub writes: u32,
    pub flushes: u32,
    pub bad_write: Option<u32>,
    pub bad_flush: Option<u32>,
}

impl Write for BrokenWriter {
    fn write(&mut self, buf: &[u8]) -> io::Result<usize> {
        let turn = self.writes;
        self.writes = turn.saturating_add(1);
        if self.bad_write == Some(turn) {
            return Err(io::Error::from(io::ErrorKind::BrokenPipe));
        }
        let count = buf.len().min(1000);
        self.taken.extend_from_slice(&buf[..count])?;
        Ok(count)
    }

    fn flush(&mut self) -> io::Result<()> {
        let turn = self.flushes;
        self.flushes = turn.saturating_add(1);
        if self.bad_flush == Some(turn) {
            return Err(io::Error::from(io::ErrorKind::BrokenPipe));
        }
        Ok(())
    }
}
