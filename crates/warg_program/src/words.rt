//! Lines and words, and what words say: numbers and bytes.

ghost use Rattle.std.specs.Prelude.{◌≡◌, ◌≤◌, [], ◌∷◌, Some, IfOk, IfErr, OnOk};
ghost use Rattle.std.specs.Option.{option_map};
ghost use Rattle.warg_crypto.specs.Bytes.{same_bytes};
ghost use Rattle.warg_program.specs.Words.{number_in, length_in, hex_bytes_in, root_in};
ghost use Rattle.warg_program.specs.Orders.{first_says, none_left};
ghost use Rattle.warg_program.specs.Private.Parts.{IsFirstPart, last_says};
ghost use Rattle.warg_program.specs.Private.Errors.{IsUnread};
ghost use Rattle.warg_log.specs.declared.log.TheConstants.{GREATEST_LENGTH};

use crate::line_error::LineError;
use hex::FromHexError;
use memchr::memchr;
use std::alloc::Allocator;
use std::marker::Model;
use warg_crypto::{Hash, Sha256};
use warg_log::GREATEST_LENGTH;

/// The words of a line that aren't read yet.
#[derive(Drop)]
pub(super) struct Words<'a> {
    /// What stands behind the space after the last word that was read, if there is one.
    pub(super) rest: Option<&'a [u8]>,
}

// Contracts see the words as a list.
impl<'a> Model for Words<'a> {
    ghost use Rattle.std.specs.Prelude.{ℕ, List};
    ghost use Rattle.std.specs.Option.{option_map};
    ghost use Rattle.warg_program.specs.Words.{words_left};

    ghost Value = { List (List ℕ) };

    ghost view = { λ w. words_left (option_map (λ line. line.now) w.rest) };
}

impl<'a> Words<'a> {
    #[tactic(auto, using(crate::proofs::WordLemmas::words_next))]
    /// The next word.
    pub(super) fn word(&mut self) -> Result<&'a [u8], LineError>
        ensures ok { IfOk result (λ word. self.old ≡ word.now ∷ self.new) }
        ensures errors { IfErr result (λ e. (e ≡ LineError.BadLine) × (self.old ≡ [])) }
    {
        let line = self.rest.ok_or(LineError::BadLine)?;
        let (word, rest) = split_first(line, b' ');
        self.rest = rest;
        Ok(word)
    }

    #[tactic(auto, unfolding(crate::specs::Orders::first_says))]
    /// The number that the next word says: one to twenty decimal digits, of a value below 2^64.
    pub(super) fn number(&mut self) -> Result<usize, LineError>
        ensures ok { IfOk result (λ n. first_says number_in self.old ≡ Some (n, self.new)) }
        ensures errors { IfErr result (IsUnread (first_says number_in self.old)) }
    {
        let word = self.word()?;
        match number_of(word) {
            Some(number) => Ok(number),
            None => Err(LineError::BadLine),
        }
    }

    #[tactic(auto, using(crate::proofs::WordLemmas::length_says, std::proofs::lemmas::Bool::Decides::nat_tests))]
    /// The length that the next word says: a number up to 2^63.
    pub(super) fn log_length(&mut self) -> Result<usize, LineError>
        ensures ok { IfOk result (λ length. first_says length_in self.old
            ≡ Some (length, self.new)) }
        ensures most { IfOk result (λ length. length ≤ GREATEST_LENGTH) }
        ensures errors { IfErr result (IsUnread (first_says length_in self.old)) }
    {
        let length = self.number()?;
        if length > GREATEST_LENGTH {
            return Err(LineError::BadLine);
        }
        Ok(length)
    }

    #[tactic(auto, unfolding(crate::specs::Orders::first_says, crate::specs::Words::hex_bytes_in))]
    /// The bytes that the next word says: none for `-`, else those of an even, positive number of hexadecimal
    /// digits of either case.
    pub(super) fn bytes<A: Allocator>(&mut self, alloc: A) -> Result<Vec<u8, A>, LineError>
        ensures ok { IfOk result (λ bytes. first_says hex_bytes_in self.old
            ≡ Some (bytes.items, self.new)) }
        ensures errors { IfErr result (IsUnread (first_says hex_bytes_in self.old)) }
    {
        let word = self.word()?;
        if is_same(word, b"-") {
            return Ok(Vec::new(alloc));
        }
        if word.is_empty() {
            return Err(LineError::BadLine);
        }
        match hex::decode(alloc, word) {
            Ok(bytes) => Ok(bytes),
            Err(FromHexError::OutOfMemory) => Err(LineError::Memory),
            Err(_) => Err(LineError::BadLine),
        }
    }

    /// The bytes that the last word says, if no words are left behind it.
    pub(super) fn last_bytes<A: Allocator>(mut self, alloc: A) -> Result<Vec<u8, A>, LineError>
        ensures ok { IfOk result (λ bytes. last_says hex_bytes_in self.entry ≡ Some bytes.items) }
        ensures errors { IfErr result (IsUnread (last_says hex_bytes_in self.entry)) }
    {
        let bytes = self.bytes(alloc)?;
        self.end()?;
        Ok(bytes)
    }

    #[tactic(auto, using(crate::proofs::WordLemmas::root_says))]
    /// The root that the next word says: the bytes that it says, if they are 32.
    pub(super) fn root<A: Allocator>(&mut self, alloc: A) -> Result<Hash<Sha256>, LineError>
        ensures ok { IfOk result (λ root. first_says root_in self.old ≡ Some (root, self.new)) }
        ensures errors { IfErr result (IsUnread (first_says root_in self.old)) }
    {
        Ok(Hash::try_from(self.bytes(alloc)?)?)
    }

    #[tactic(auto, unfolding(crate::specs::Orders::none_left), using(crate::proofs::WordLemmas::word_left))]
    /// That no words are left.
    pub(super) fn end(self) -> Result<(), LineError>
        ensures ok { OnOk result (none_left self.entry ≡ Some tt) }
        ensures errors { IfErr result (IsUnread (none_left self.entry)) }
    {
        match self.rest {
            None => Ok(()),
            Some(_) => Err(LineError::BadLine),
        }
    }
}

// The number that a word says.
#[tactic(auto, unfolding(crate::specs::Words::number_in, crate::specs::Words::value_from))]
fn number_of(word: &[u8]) -> Option<usize>
    ensures { result ≡ number_in word.now }
{
    if word.is_empty() || word.len() > 20 {
        return None;
    }
    let mut value = 0usize;
    for digit in word {
        if !digit.is_ascii_digit() {
            return None;
        }
        let tenfold = value.checked_mul(10)?;
        let last = usize::from(*digit - b'0');
        value = tenfold.checked_add(last)?;
    }
    Some(value)
}

/// Whether two words are the same.
pub(super) fn is_same(word: &[u8], other: &[u8]) -> bool
    ensures { result ≡ same_bytes word.now other.now }
{
    word == other
}

/// What stands before the first `separator`, and what stands behind it, if there is one.
#[tactic(auto, using(crate::proofs::WordLemmas::none_lacks))]
pub(super) fn split_first(bytes: &[u8], separator: u8) -> (&[u8], Option<&[u8]>)
    ensures { IsFirstPart separator bytes.now result.0.now
        (option_map (λ rest. rest.now) result.1) }
{
    match memchr(separator, bytes) {
        Some(i) => (&bytes[..i], Some(&bytes[i + 1..])),
        None => (bytes, None),
    }
}
