//! Standard input, line by line.

use crate::refusal::{Refusal, read};
use hex::FromHexError;
use memchr::memchr;
use std::alloc::{AllocError, Global};
use std::io::{BufRead, BufReader, Input, Read, Take};

// The greatest number of bytes of an entry.
const MOST: usize = 65_535;

// The greatest number of bytes of a key and its value together: their entry has 8 bytes of length for each.
const MOST_INSERTION: usize = MOST - 16;

// A line of the greatest entry, with a carriage return, a newline and one byte more.
const LONGEST: u64 = 131_073;

const NO_INSERTION: &str =
    "isn't an insertion: write KEY VALUE, each two hexadecimal digits for each byte or - for no bytes";

/// The lines of standard input, one at a time.
#[derive(Drop)]
pub struct Lines {
    alloc: Global,
    input: Take<BufReader<<HostRuntime as Input>::Reader>>,
    // The line, with its end.
    line: Vec<u8>,
    entry: Vec<u8>,
    number: usize,
}

impl Lines {
    /// The lines of standard input, before the first.
    pub fn new(rt: &HostRuntime) -> Result<Lines, Refusal> {
        let alloc = rt.alloc();
        let input = read(BufReader::with_capacity(alloc, 1 << 16, rt.reader()))?;
        Ok(Lines {
            alloc,
            input: input.take(LONGEST),
            line: Vec::new(alloc),
            entry: Vec::new(alloc),
            number: 0,
        })
    }

    /// Goes on to the next line. False at the end of the input.
    pub fn go_on(&mut self) -> Result<bool, Refusal> {
        self.line.clear();
        self.input.set_limit(LONGEST);
        let held = self.input.get_ref().buffer();
        if let Some(newline) = memchr(b'\n', held) {
            self.line.extend_from_slice(&held[..newline + 1])?;
            self.input.consume(newline + 1);
        } else if read(self.input.read_until(b'\n', &mut self.line))? == 0 {
            return Ok(false);
        }
        self.number = self.number.saturating_add(1);
        Ok(true)
    }

    // Goes on to the next line, whose newline has to be there. False at the end of the input.
    fn go_on_whole(&mut self) -> Result<bool, Refusal> {
        let is_there = self.go_on()?;
        if is_there && !self.line.ends_with(b"\n") && (self.line.len() as u64) < LONGEST {
            return Err(self.refused("has no end: whoever wrote it may have died"));
        }
        Ok(is_there)
    }

    /// The line's bytes, without its newline, and without a carriage return before that.
    pub fn line(&self) -> &[u8] {
        without_end(self.line.as_slice())
    }

    /// The refusal for this line.
    pub fn refused(&self, fault: &'static str) -> Refusal {
        Refusal::Line(self.number, fault)
    }

    /// The entry whose hexadecimal digits the line has.
    pub fn entry(&mut self) -> Result<&[u8], Refusal> {
        let digits = without_end(self.line.as_slice());
        if digits.len() > 2 * MOST {
            return Err(self.refused("is too long: an entry has at most 65,535 bytes"));
        }
        self.entry.resize(digits.len() / 2, 0)?;
        let fault = "isn't an entry: write two hexadecimal digits for each byte, and nothing else";
        match hex::decode_to_slice(digits, self.entry.as_mut_slice()) {
            Ok(()) => Ok(self.entry.as_slice()),
            Err(_) => Err(self.refused(fault)),
        }
    }

    /// Goes on to the next entry, in digits on a line or else in bytes; none at the end of the input.
    pub fn next_entry(&mut self, is_binary: bool) -> Result<Option<&[u8]>, Refusal> {
        if is_binary {
            return self.next_binary();
        }
        if !self.go_on_whole()? {
            return Ok(None);
        }
        Ok(Some(self.entry()?))
    }

    // The next entry as a bundle has it: two bytes of length, the greater one first, and its bytes.
    fn next_binary(&mut self) -> Result<Option<&[u8]>, Refusal> {
        self.number = self.number.saturating_add(1);
        self.gather(2)?;
        let length = match self.entry.as_slice() {
            [] => return Ok(None),
            [greater, less] => u16::from_be_bytes([*greater, *less]),
            _ => return Err(Refusal::Entry(self.number, "ends within its length")),
        };
        self.gather(length)?;
        if self.entry.len() < usize::from(length) {
            return Err(Refusal::Entry(self.number, "is cut off"));
        }
        Ok(Some(self.entry.as_slice()))
    }

    // Puts the next bytes in the place of the entry: so many, or those that are left.
    fn gather(&mut self, count: u16) -> Result<(), Refusal> {
        self.entry.clear();
        self.input.set_limit(u64::from(count));
        read(self.input.read_to_end(&mut self.entry))?;
        Ok(())
    }

    /// Goes on to the next line and returns its key and its value; none at the end of the input.
    pub fn next_insertion(&mut self) -> Result<Option<(Vec<u8>, Vec<u8>)>, Refusal> {
        if !self.go_on_whole()? {
            return Ok(None);
        }
        let (key, value) = self.insertion()?.ok_or(self.refused(NO_INSERTION))?;
        let fault = "is too long: a key and its value have at most 65,519 bytes together";
        if key.len().saturating_add(value.len()) > MOST_INSERTION {
            return Err(self.refused(fault));
        }
        Ok(Some((key, value)))
    }

    // The key and the value of the line, if it has both.
    fn insertion(&self) -> Result<Option<(Vec<u8>, Vec<u8>)>, AllocError> {
        let line = self.line();
        let (key, value) = line.split_at(memchr(b' ', line).unwrap_or(line.len()));
        let key = word_in(self.alloc, key)?;
        Ok(key.zip(word_in(self.alloc, value.strip_prefix(b" ").unwrap_or(value))?))
    }
}

// A line without its newline, and without a carriage return before that.
fn without_end(line: &[u8]) -> &[u8] {
    let line = line.strip_suffix(b"\n").unwrap_or(line);
    line.strip_suffix(b"\r").unwrap_or(line)
}

/// The bytes of a word of hexadecimal digits, or of none for `-`, if it is such.
pub fn word_in(alloc: Global, word: &[u8]) -> Result<Option<Vec<u8>>, AllocError> {
    match word {
        [] => Ok(None),
        [b'-'] => Ok(Some(Vec::new(alloc))),
        digits => match hex::decode(alloc, digits) {
            Err(FromHexError::OutOfMemory) => Err(AllocError),
            bytes => Ok(bytes.ok()),
        },
    }
}
