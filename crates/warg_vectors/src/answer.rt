//! The text of an answer.

use crate::fault::Answered;
use std::alloc::{AllocError, Allocator, Global};
use std::fmt::{Display, Write};
use warg_crypto::Hash;
use warg_log::Node;
use warg_tiles::Tile;

/// The answer to a line: words that are separated by one space.
#[derive(Drop)]
pub(crate) struct Answer {
    pub(crate) text: String,
}

impl Answer {
    pub(crate) fn new(alloc: Global) -> Answer {
        Answer {
            text: String::new(alloc),
        }
    }

    pub(crate) fn alloc(&self) -> Global {
        *self.text.allocator()
    }

    /// Writes one word more.
    pub(crate) fn word(&mut self, word: &str) -> Answered {
        if !self.text.is_empty() {
            self.text.push(' ')?;
        }
        self.text.push_str(word)?;
        Ok(())
    }

    /// Writes a value in its own form: a number, `true` or `false`, the digits of a hash.
    pub(crate) fn show<T: Display>(&mut self, value: &T) -> Answered {
        let word = value.to_string(self.alloc())?;
        self.word(word.as_str())
    }

    /// Writes bytes, `-` for none.
    pub(crate) fn bytes(&mut self, bytes: &[u8]) -> Answered {
        let digits = digits_of(self.alloc(), bytes)?;
        self.word(digits.as_str())
    }

    /// Writes a list: `[]` for none, else items that are separated by commas, with `COUNT*ITEM` for equal neighbours.
    pub(crate) fn list<T: Item>(&mut self, items: &[T]) -> Answered {
        if items.is_empty() {
            return self.word("[]");
        }
        let list = list_of(self.alloc(), items)?;
        self.word(list.as_str())
    }
}

fn list_of<T: Item>(alloc: Global, items: &[T]) -> Result<String, AllocError> {
    let mut list = String::new(alloc);
    let mut last = String::new(alloc);
    let mut count = 0usize;
    for item in items {
        let item = item.item(alloc)?;
        if item.as_str() != last.as_str() {
            push_copies(&mut list, count, last.as_str())?;
            last = item;
            count = 0;
        }
        count = count.saturating_add(1);
    }
    push_copies(&mut list, count, last.as_str())?;
    Ok(list)
}

// Writes an item of a list as often as it came.
fn push_copies(list: &mut String, count: usize, item: &str) -> Result<(), AllocError> {
    if count == 0 {
        return Ok(());
    }
    if !list.is_empty() {
        list.push(',')?;
    }
    if count > 1 {
        write!(list, "{count}*")?;
    }
    list.push_str(item)
}

/// What can be an item of a list.
pub(crate) trait Item {
    fn item(&self, alloc: Global) -> Result<String, AllocError>;
}

impl Item for Node {
    fn item(&self, alloc: Global) -> Result<String, AllocError> {
        self.0.to_string(alloc)
    }
}

impl<D> Item for Hash<D> {
    fn item(&self, alloc: Global) -> Result<String, AllocError> {
        self.to_string(alloc)
    }
}

impl<D> Item for Option<Hash<D>> {
    fn item(&self, alloc: Global) -> Result<String, AllocError> {
        match self {
            Some(hash) => hash.to_string(alloc),
            None => String::from_str(alloc, "none"),
        }
    }
}

impl Item for Tile {
    fn item(&self, alloc: Global) -> Result<String, AllocError> {
        let (level, number, width) = (self.level(), self.number(), self.width());
        format!(in alloc; "{level}:{number}:{width}")
    }
}

impl Item for &[u8] {
    fn item(&self, alloc: Global) -> Result<String, AllocError> {
        digits_of(alloc, self)
    }
}

impl<A: Allocator> Item for Vec<u8, A> {
    fn item(&self, alloc: Global) -> Result<String, AllocError> {
        digits_of(alloc, self.as_slice())
    }
}

// The digits of bytes, `-` for none.
pub(crate) fn digits_of(alloc: Global, bytes: &[u8]) -> Result<String, AllocError> {
    if bytes.is_empty() {
        return String::from_str(alloc, "-");
    }
    hex::encode(alloc, bytes)
}
