//! Standard input and output, watched for what an answer doesn't say.

use std::io::{Read, Result, Write};

/// A reader that remembers the first line which ends in a carriage return or a blank: no command does.
#[derive(Drop)]
pub struct WatchedInput<R> {
    reader: R,
    line: u64,
    last: u8,
    found: Option<(u64, u8)>,
}

impl<R: Read> WatchedInput<R> {
    /// Watches a reader.
    pub fn new(reader: R) -> WatchedInput<R> {
        WatchedInput {
            reader,
            line: 1,
            last: b'\n',
            found: None,
        }
    }

    /// The number of the first such line of what was read, from 1, and what it ends in.
    pub fn found(&self) -> Option<(u64, &'static str)> {
        match self.found.or(self.at_the_end()) {
            Some((line, b'\r')) => Some((line, "a carriage return")),
            Some((line, _)) => Some((line, "a blank")),
            None => None,
        }
    }

    fn at_the_end(&self) -> Option<(u64, u8)> {
        if matches!(self.last, b'\r' | b' ' | b'\t') {
            Some((self.line, self.last))
        } else {
            None
        }
    }

    fn see(&mut self, byte: u8) {
        if byte == b'\n' {
            self.found = self.found.or(self.at_the_end());
            self.line = self.line.saturating_add(1);
        }
        self.last = byte;
    }
}

impl<R: Read> Read for WatchedInput<R> {
    fn read(&mut self, buffer: &mut [u8]) -> Result<usize> {
        let count = self.reader.read(buffer)?;
        for byte in &buffer[..count] {
            self.see(*byte);
        }
        Ok(count)
    }
}

/// A writer that remembers whether a line says that a bundle wasn't decoded.
#[derive(Drop)]
pub struct WatchedOutput<W> {
    writer: W,
    /// Whether a line says so.
    pub is_not_decoded: bool,
}

impl<W: Write> WatchedOutput<W> {
    /// Watches a writer.
    pub fn new(writer: W) -> WatchedOutput<W> {
        WatchedOutput {
            writer,
            is_not_decoded: false,
        }
    }
}

impl<W: Write> Write for WatchedOutput<W> {
    fn write(&mut self, buffer: &[u8]) -> Result<usize> {
        if buffer
            .split(|byte| *byte == b'\n')
            .any(|line| line == b"refused not decoded".as_slice())
        {
            self.is_not_decoded = true;
        }
        self.writer.write(buffer)
    }

    fn flush(&mut self) -> Result<()> {
        self.writer.flush()
    }
}
