//! Streams that fail, or that take and give little at a time.
use std::io;
use std::io::{ErrorKind, Read, Write};

/// Gives a text three bytes at a time, is interrupted before each piece, and may fail after some.
#[derive(Drop)]
pub struct Dribble<'a> {
    rest: &'a [u8],
    most: Option<usize>,
    is_interrupted: bool,
}

impl<'a> Dribble<'a> {
    /// `most` is how many bytes it gives before it fails.
    pub fn new(text: &'a [u8], most: Option<usize>) -> Self {
        Dribble {
            rest: text,
            most,
            is_interrupted: false,
        }
    }
}

impl Read for Dribble<'_> {
    fn read(&mut self, buf: &mut [u8]) -> io::Result<usize> {
        self.is_interrupted = !self.is_interrupted;
        if self.is_interrupted {
            return Err(io::Error::new(ErrorKind::Interrupted, "interrupted"));
        }
        let mut count = buf.len().min(self.rest.len()).min(3);
        if let Some(most) = self.most {
            if most == 0 {
                return Err(io::Error::other("broken"));
            }
            count = count.min(most);
            self.most = Some(most - count);
        }
        let (now, rest) = self.rest.split_at(count);
        buf[..count].copy_from_slice(now);
        self.rest = rest;
        Ok(count)
    }
}

/// Takes that many bytes, and then fails.
#[derive(Drop)]
pub struct Narrow {
    room: usize,
}

impl Narrow {
    pub fn new(room: usize) -> Self {
        Narrow { room }
    }

    /// How many bytes it takes before it fails.
    pub fn room(&self) -> usize {
        self.room
    }
}

impl Write for Narrow {
    fn write(&mut self, buf: &[u8]) -> io::Result<usize> {
        if self.room == 0 {
            return Err(io::Error::other("full"));
        }
        let count = buf.len().min(self.room);
        self.room -= count;
        Ok(count)
    }

    fn flush(&mut self) -> io::Result<()> {
        Ok(())
    }
}

/// Takes everything, and fails where that is to be flushed.
#[derive(Drop)]
pub struct NoFlush;

impl Write for NoFlush {
    fn write(&mut self, buf: &[u8]) -> io::Result<usize> {
        Ok(buf.len())
    }

    fn flush(&mut self) -> io::Result<()> {
        Err(io::Error::other("not flushed"))
    }
}

/// Holds what it takes until it is flushed, and is interrupted before each write.
#[derive(Drop)]
pub struct Tank {
    held: usize,
    flushed: usize,
    is_interrupted: bool,
}

impl Tank {
    pub fn new() -> Self {
        Tank {
            held: 0,
            flushed: 0,
            is_interrupted: false,
        }
    }

    /// How many bytes wait for a flush.
    pub fn held(&self) -> usize {
        self.held
    }

    /// How many bytes were flushed.
    pub fn flushed(&self) -> usize {
        self.flushed
    }
}

impl Write for Tank {
    fn write(&mut self, buf: &[u8]) -> io::Result<usize> {
        self.is_interrupted = !self.is_interrupted;
        if self.is_interrupted {
            return Err(io::Error::new(ErrorKind::Interrupted, "interrupted"));
        }
        self.held = self.held.saturating_add(buf.len());
        Ok(buf.len())
    }

    fn flush(&mut self) -> io::Result<()> {
        self.flushed = self.flushed.saturating_add(self.held);
        self.held = 0;
        Ok(())
    }
}
