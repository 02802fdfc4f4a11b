//! A call: the words of its line, the memory that it takes, and its answer.

use crate::answer::{Answer, Item};
use crate::fault::{Answered, Fault};
use crate::memory::Memory;
use crate::words::{Given, Words};
use std::alloc::{Allocator, Global};
use std::fmt::{Debug, Display};
use warg_crypto::SupportedDigest;
use warg_witness::{Collision, Finding};

/// A call that is being made.
#[derive(Drop)]
pub(crate) struct Call<'a, M> {
    words: Words<'a>,
    /// What the call takes its memory from. All else takes memory from the answer's allocator.
    pub(crate) memory: M,
    pub(crate) to: Answer,
}

impl<'a, M: Memory> Call<'a, M> {
    pub(crate) fn of(alloc: Global, line: &'a str, memory: M) -> Call<'a, M> {
        Call {
            words: Words::of(alloc, line),
            memory,
            to: Answer::new(alloc),
        }
    }

    pub(crate) fn alloc(&self) -> Global {
        self.to.alloc()
    }

    /// The next word.
    pub(crate) fn word(&mut self) -> Result<&'a str, Fault> {
        self.words.next()
    }

    /// What the next word spells, or the next ones.
    pub(crate) fn read<T: Given>(&mut self) -> Result<T, Fault> {
        T::read(&mut self.words)
    }

    /// Reads what the call is made of, and answers it.
    pub(crate) fn with<T: Given, F>(&mut self, answer: F) -> Answered
    where
        F: FnOnce(&mut Call<'a, M>, &T) -> Answered,
        requires { F.IsAlwaysCallable answer }
    {
        let given: T = self.read()?;
        answer(self, &given)
    }

    /// Whether all words were read.
    pub(crate) fn is_read(&self) -> bool {
        self.words.are_read()
    }

    /// What a call gave. Where it was refused, that is the line's answer: the name of the error's case.
    pub(crate) fn made<T, E: Debug + Drop>(&self, given: Result<T, E>) -> Result<T, Fault> {
        match given {
            Ok(value) => Ok(value),
            Err(error) => {
                let name = format!(in self.alloc(); "{error:?}")?;
                match name.as_str() {
                    "Memory" | "AllocError" => Err(Fault::Memory),
                    _ => Err(Fault::Refused(name)),
                }
            }
        }
    }

    /// What a call gives. Where memory is refused, it is made again with memory.
    pub(crate) fn again<T, F: Fn(M) -> Result<T, Fault> + Drop>(&self, ask: F) -> Result<T, Fault>
        requires { F.IsAlwaysCallable ask }
    {
        match ask(self.memory) {
            Err(Fault::Memory) => {
                self.memory.grant();
                ask(self.memory)
            }
            ended => ended,
        }
    }

    /// Writes a value in its own form, or why there is none.
    pub(crate) fn show<T: Display + Drop, E: Debug + Drop>(
        &mut self,
        value: Result<T, E>,
    ) -> Answered {
        let value = self.made(value)?;
        self.to.show(&value)
    }

    /// Writes a list, or why there is none.
    pub(crate) fn write_list<T: Item + Drop, E: Debug + Drop, A: Allocator>(
        &mut self,
        items: Result<Vec<T, A>, E>,
    ) -> Answered {
        let items = self.made(items)?;
        self.to.list(items.as_slice())
    }

    /// Writes bytes, or why there are none.
    pub(crate) fn write_bytes<E: Debug + Drop, A: Allocator>(
        &mut self,
        bytes: Result<Vec<u8, A>, E>,
    ) -> Answered {
        let bytes = self.made(bytes)?;
        self.to.bytes(bytes.as_slice())
    }

    /// Writes what a witness found; the pair of a collision only where it isn't one of these.
    pub(crate) fn write_found<D: SupportedDigest, A: Allocator, E: Debug + Drop>(
        &mut self,
        found: Result<Finding<D, A>, E>,
        given: &Pairs,
    ) -> Answered {
        match self.made(found)? {
            Finding::Holds => self.to.word("Holds"),
            Finding::NotMet => self.to.word("NotMet"),
            Finding::Collision(pair) => write_collision(&mut self.to, &pair, given),
        }
    }
}

/// Pairs of bytes.
pub(crate) type Pairs = Vec<(Vec<u8>, Vec<u8>)>;

fn write_collision<D: SupportedDigest, A: Allocator>(
    to: &mut Answer,
    pair: &Collision<D, A>,
    given: &[(Vec<u8>, Vec<u8>)],
) -> Answered {
    to.word("Collision")?;
    if is_given(pair, given) {
        return Ok(());
    }
    to.bytes(pair.first())?;
    to.bytes(pair.second())
}

fn is_given<D: SupportedDigest, A: Allocator>(
    pair: &Collision<D, A>,
    pairs: &[(Vec<u8>, Vec<u8>)],
) -> bool {
    for (first, second) in pairs {
        if first.as_slice() == pair.first() && second.as_slice() == pair.second() {
            return true;
        }
    }
    false
}
