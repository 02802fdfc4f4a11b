//! The words of a line, and what they spell.

ghost use Rattle.std.specs.Prelude.{◌≤◌};
ghost use Rattle.warg_log.specs.declared.log.TheConstants.{GREATEST_LENGTH};

use crate::fault::{Answered, Fault, Promise};
use std::alloc::Global;
use warg_crypto::{Hash, SupportedDigest};
use warg_log::{Checkpoint, GREATEST_LENGTH, LogData, Node, NotAscending, SparseLogData};

// How often a list's `COUNT*ITEM` may repeat its item.
const MOST_COPIES: usize = 1 << 24;

/// The words that are still to be read, from left to right: those of a line, separated by spaces, or of an item of a list,
/// separated by colons.
#[derive(Drop)]
pub(crate) struct Words<'a> {
    alloc: Global,
    rest: Option<&'a str>,
    parted_by: char,
}

impl<'a> Words<'a> {
    /// The words of a line.
    pub(crate) fn of(alloc: Global, line: &'a str) -> Words<'a> {
        Words::parted(alloc, line, ' ')
    }

    fn parted(alloc: Global, text: &'a str, parted_by: char) -> Words<'a> {
        Words {
            alloc,
            rest: Some(text),
            parted_by,
        }
    }

    /// The next word. Where none is left it is a fault.
    pub(crate) fn next(&mut self) -> Result<&'a str, Fault> {
        let Some(rest) = self.rest else {
            return Err(Fault::BadCall);
        };
        match rest.split_once(self.parted_by) {
            Some((word, rest)) => {
                self.rest = Some(rest);
                Ok(word)
            }
            None => {
                self.rest = None;
                Ok(rest)
            }
        }
    }

    /// Whether all words were read.
    pub(crate) fn are_read(&self) -> bool {
        self.rest.is_none()
    }
}

// Pushes an item, as often as its count says.
fn push_item<T: Given>(items: &mut Vec<T>, item: &str) -> Result<(), Fault> {
    match item.split_once('*') {
        Some((count, item)) => push_copies(items, number(count)?, item),
        None => push_copies(items, 1, item),
    }
}

fn push_copies<T: Given>(items: &mut Vec<T>, count: usize, word: &str) -> Result<(), Fault> {
    let alloc = *items.allocator();
    if count > MOST_COPIES {
        return Err(Fault::BadCall);
    }
    for _ in 0..count {
        items.push(read_item(alloc, word)?)?;
    }
    Ok(())
}

// What an item's parts spell.
fn read_item<T: Given>(alloc: Global, item: &str) -> Result<T, Fault> {
    let mut words = Words::parted(alloc, item, ':');
    let value = T::read(&mut words)?;
    if words.are_read() {
        Ok(value)
    } else {
        Err(Fault::BadCall)
    }
}

// The number that one to twenty decimal digits spell, below 2^64.
fn number(word: &str) -> Result<usize, Fault> {
    if word.len() > 20 || !has_digits_alone(word) {
        return Err(Fault::BadCall);
    }
    match word.parse() {
        Ok(number) => Ok(number),
        Err(_) => Err(Fault::BadCall),
    }
}

fn has_digits_alone(word: &str) -> bool {
    for byte in word.as_bytes() {
        if !byte.is_ascii_digit() {
            return false;
        }
    }
    true
}

fn has_lower_case_alone(word: &str) -> bool {
    for byte in word.as_bytes() {
        if byte.is_ascii_uppercase() {
            return false;
        }
    }
    true
}

/// What one word spells, or several.
pub(crate) trait Given: Sized + Drop {
    fn read(words: &mut Words<'_>) -> Result<Self, Fault>;
}

impl Given for usize {
    fn read(words: &mut Words<'_>) -> Result<usize, Fault> {
        number(words.next()?)
    }
}

impl Given for Node {
    fn read(words: &mut Words<'_>) -> Result<Node, Fault> {
        Ok(Node(number(words.next()?)?))
    }
}

/// The length of a log, up to 2^63.
#[derive(Drop)]
pub(crate) struct Length {
    pub(crate) value: usize,
    ghost most: { value ≤ GREATEST_LENGTH },
}

impl Given for Length {
    fn read(words: &mut Words<'_>) -> Result<Length, Fault> {
        let value = number(words.next()?)?;
        if value > GREATEST_LENGTH {
            return Err(Fault::BadCall);
        }
        Ok(Length { value })
    }
}

/// `-` for no bytes, else lower-case hexadecimal digits.
impl Given for Vec<u8> {
    fn read(words: &mut Words<'_>) -> Result<Vec<u8>, Fault> {
        let word = words.next()?;
        if word == "-" {
            return Ok(Vec::new(words.alloc));
        }
        if word.is_empty() || !has_lower_case_alone(word) {
            return Err(Fault::BadCall);
        }
        match hex::decode(words.alloc, word) {
            Ok(bytes) => Ok(bytes),
            Err(hex::FromHexError::OutOfMemory) => Err(Fault::Memory),
            Err(_) => Err(Fault::BadCall),
        }
    }
}

/// 64 lower-case hexadecimal digits.
impl<D> Given for Hash<D> {
    fn read(words: &mut Words<'_>) -> Result<Hash<D>, Fault> {
        let word = words.next()?;
        let mut bytes = [0; 32];
        if !has_lower_case_alone(word) || hex::decode_to_slice(word, &mut bytes).is_err() {
            return Err(Fault::BadCall);
        }
        Ok(Hash::from_array(bytes))
    }
}

/// `none`, or what another word spells.
impl<T: Given> Given for Option<T> {
    fn read(words: &mut Words<'_>) -> Result<Option<T>, Fault> {
        let word = words.next()?;
        if word == "none" {
            return Ok(None);
        }
        Ok(Some(T::read(&mut Words::of(words.alloc, word))?))
    }
}

/// What the parts of one word spell, which are separated by colons.
#[derive(Drop)]
pub(crate) struct Parts<T>(pub(crate) T);

impl<T: Given> Given for Parts<T> {
    fn read(words: &mut Words<'_>) -> Result<Parts<T>, Fault> {
        let word = words.next()?;
        Ok(Parts(read_item(words.alloc, word)?))
    }
}

/// One after the other.
impl<A: Given, B: Given> Given for (A, B) {
    fn read(words: &mut Words<'_>) -> Result<(A, B), Fault> {
        let first = A::read(words)?;
        let second = B::read(words)?;
        Ok((first, second))
    }
}

/// One after the other.
impl<A: Given, B: Given, C: Given> Given for (A, B, C) {
    fn read(words: &mut Words<'_>) -> Result<(A, B, C), Fault> {
        let first = A::read(words)?;
        let second = B::read(words)?;
        let third = C::read(words)?;
        Ok((first, second, third))
    }
}

/// A length, and the root.
impl<D> Given for Checkpoint<D> {
    fn read(words: &mut Words<'_>) -> Result<Checkpoint<D>, Fault> {
        let length = usize::read(words)?;
        let root = Hash::read(words)?;
        Ok(Checkpoint::new(root, length))
    }
}

/// A list: `[]` for none, else items that are separated by commas. `COUNT*ITEM` stands for equal neighbours.
impl<T: Given> Given for Vec<T> {
    fn read(words: &mut Words<'_>) -> Result<Vec<T>, Fault> {
        let word = words.next()?;
        let mut items = Vec::new(words.alloc);
        if word == "[]" {
            return Ok(items);
        }
        for item in word.split(',') {
            push_item(&mut items, item)?;
        }
        Ok(items)
    }
}

/// The digests of some nodes, as data of a proof.
#[derive(Drop)]
pub(crate) struct Data<D: SupportedDigest> {
    pub(crate) held: SparseLogData<D, Vec<u8>>,
    given: Vec<(Node, Hash<D>)>,
}

/// A list of nodes with their digests, ascending.
impl<D: SupportedDigest> Given for Data<D> {
    fn read(words: &mut Words<'_>) -> Result<Data<D>, Fault> {
        let given: Vec<(Node, Hash<D>)> = Vec::read(words)?;
        match SparseLogData::try_from(given.clone()?) {
            Ok(held) => Ok(Data { held, given }),
            Err(NotAscending) => Err(Fault::BadCall),
        }
    }
}

impl<D: SupportedDigest> Data<D> {
    /// A fault unless the data hold the digests that the line gave.
    pub(crate) fn unless_changed(&self) -> Answered {
        for (node, hash) in self.given.as_slice() {
            let is_held = self.held.has_hash(*node)
                && self.held.hash_for(*node).as_ref() == Some(hash);
            Fault::unless(is_held, Promise::Unchanged)?;
        }
        Ok(())
    }
}
