//! A folder in memory, for tests. It keeps each call that changed it, so that each past moment can be told from them.

ghost use Rattle.std.specs.Prelude.{◌≡◌, ◌+◌, ℕ, List, [], ◌∷◌, ◌++◌, nat_eq, true, length, take, Option, Some, None, IfOk, OnOk, OnErr, is_some, IsSome, IsTrue, IfSome, IfNone, Contains, ◌↔◌, map, string_bytes};
ghost use Rattle.std.specs.List.{starts_with};
ghost use Rattle.std.specs.Option.{option_copied};
ghost use Rattle.warg_folder.specs.Memory.{seen_after, MayLeave, LeftSince, name_put, stays, counts, is_only};

use crate::device::{Folder, FolderError};
use std::alloc::{AllocError, Global};

/// A call that changed a folder in memory.
#[derive(Drop)]
pub enum Call {
    /// A file of this name was written with these bytes.
    Written(String, Vec<u8>),
    /// The file of the first name got the second.
    Renamed(String, String),
    /// The file of this name was removed.
    Removed(String),
    /// All was forced to the device.
    Synced,
    /// A file of this name was put at once, with these bytes.
    Replaced(String, Vec<u8>),
}

/// A folder of files in memory, on a device of which a crash may take, at each name that was written since the last sync,
/// anything, and of each name that was moved or removed, the change.
#[derive(Drop)]
pub struct MemoryFolder {
    alloc: Global,
    calls: Vec<Call>,
}

impl MemoryFolder {
    /// An empty folder, which no call has changed.
    pub fn new(alloc: Global) -> Self
        ensures { result.calls.items ≡ [] }
    {
        MemoryFolder {
            alloc,
            calls: Vec::new(alloc),
        }
    }

    /// The calls that changed it, the first one first.
    pub fn calls(&self) -> &[Call]
        ensures { result.now ≡ self.now.calls.items }
    {
        self.calls.as_slice()
    }
}

// A name of its own.
fn copied(alloc: Global, name: &str) -> Result<String, AllocError>
    ensures { IfOk result (λ text. string_bytes text ≡ name.now) }
{
    String::from_str(alloc, name)
}

// Bytes of its own.
fn bytes_of(alloc: Global, bytes: &[u8]) -> Result<Vec<u8>, AllocError>
    ensures { IfOk result (λ copy. copy.items ≡ bytes.now) }
{
    bytes.to_vec(alloc)
}

fn add(calls: &mut Vec<Call>, call: Call) -> Result<(), FolderError>
    ensures ok { OnOk result (calls.new.items ≡ calls.old.items ++ call ∷ []) }
    ensures err { OnErr result (calls.new.items ≡ calls.old.items) }
    ensures memory { OnErr result (result ≡ Err FolderError.Memory) }
{
    Ok(calls.push(call)?)
}

// The bytes that a reader finds at a name after these calls.
fn found<'a>(calls: &'a [Call], name: &str) -> Option<&'a [u8]>
    ensures { option_copied result ≡ seen_after calls.now name.now }
{
    let (last, before) = calls.split_last()?;
    match last {
        Call::Written(written, bytes) => {
            if written.as_str() == name {
                Some(bytes.as_slice())
            } else {
                found(before, name)
            }
        }
        Call::Renamed(from, to) => {
            if to.as_str() == name {
                match found(before, from.as_str()) {
                    Some(bytes) => Some(bytes),
                    None => found(before, name),
                }
            } else if from.as_str() == name {
                None
            } else {
                found(before, name)
            }
        }
        Call::Removed(removed) => {
            if removed.as_str() == name {
                None
            } else {
                found(before, name)
            }
        }
        Call::Synced => found(before, name),
        Call::Replaced(replaced, bytes) => {
            if replaced.as_str() == name {
                Some(bytes.as_slice())
            } else {
                found(before, name)
            }
        }
    }
}

// The name at which a call put a file.
fn name_put(call: &Call) -> Option<&str>
    ensures { option_copied result ≡ name_put call.now }
{
    match call {
        Call::Written(name, _) | Call::Replaced(name, _) | Call::Renamed(_, name) => {
            Some(name.as_str())
        }
        Call::Removed(_) | Call::Synced => None,
    }
}

// Whether a name begins with a prefix.
fn begins_with(name: &str, prefix: &str) -> bool
    ensures { result ≡ starts_with nat_eq name.now prefix.now }
{
    name.starts_with(prefix)
}

// Whether a name has a file after these calls.
fn has_file(calls: &[Call], name: &str) -> bool
    ensures { result ≡ is_some (seen_after calls.now name.now) }
{
    found(calls, name).is_some()
}

// Whether a name is one of these.
fn is_among(names: &[String], name: &str) -> bool
    ensures { IsTrue result ↔ Contains (map (λ it. string_bytes it) names.now) name.now }
{
    'names: for it in names {
        if it.as_str() == name {
            return true;
        }
    }
    false
}

// The name at which a call put a file, if it begins with the prefix, has a file, and is none of these.
fn listed<'a>(calls: &[Call], call: &'a Call, prefix: &str, names: &[String]) -> Option<&'a str>
    ensures some { IfSome result (λ name. (name_put call.now ≡ Some name.now)
        × IsSome (seen_after calls.now name.now) × (starts_with nat_eq name.now prefix.now ≡ true)) }
    ensures none { IfNone result ((n : List ℕ) → name_put call.now ≡ Some n
        → IsSome (seen_after calls.now n) → starts_with nat_eq n prefix.now ≡ true
        → Contains (map (λ it. string_bytes it) names.now) n) }
    ensures other { IfSome result (λ name. Contains (map (λ it. string_bytes it) names.now) name.now → ⊥) }
{
    let name = name_put(call)?;
    if begins_with(name, prefix) && has_file(calls, name) && !is_among(names, name) {
        Some(name)
    } else {
        None
    }
}

fn front(bytes: &[u8], most: usize) -> &[u8]
    ensures { result.now ≡ take (most + 1) bytes.now }
{
    if most < bytes.len() {
        &bytes[..most + 1]
    } else {
        bytes
    }
}

impl Folder for MemoryFolder {
    ghost IsFaithful = { Unit {0} };

    ghost seen = { λ m. seen_after m.calls.items };

    ghost may_leave = { λ m. MayLeave m.calls.items };

    ghost moment = { λ m. length m.calls.items };

    ghost left_since = { λ m. LeftSince m.calls.items };

    ghost faults = { λ m. 0 };

    ghost seen_may_stay = { λ m. stays m.calls.items };

    ghost counts_now = { λ m t c le now. counts m.calls.items t c le now };

    ghost only_now = { λ m c left. is_only m.calls.items c left };

    fn read(
        &mut self,
        alloc: Global,
        name: &str,
        most: usize,
    ) -> Result<Option<Vec<u8>>, FolderError> {
        match found(self.calls.as_slice(), name) {
            None => Ok(None),
            Some(bytes) => Ok(Some(bytes_of(alloc, front(bytes, most))?)),
        }
    }

    fn list(&mut self, alloc: Global, prefix: &str) -> Result<Vec<String>, FolderError> {
        let calls = self.calls.as_slice();
        let mut names = Vec::new(alloc);
        'each: for call in calls {
            match listed(calls, call, prefix, names.as_slice()) {
                Some(name) => names.push(copied(alloc, name)?)?,
                None => {}
            }
        }
        Ok(names)
    }

    fn write(&mut self, name: &str, bytes: &[u8]) -> Result<(), FolderError> {
        let name = copied(self.alloc, name)?;
        let bytes = bytes_of(self.alloc, bytes)?;
        add(&mut self.calls, Call::Written(name, bytes))?;
        Ok(())
    }

    fn rename(&mut self, from: &str, to: &str) -> Result<(), FolderError> {
        let from = copied(self.alloc, from)?;
        let to = copied(self.alloc, to)?;
        add(&mut self.calls, Call::Renamed(from, to))?;
        Ok(())
    }

    fn remove(&mut self, name: &str) -> Result<(), FolderError> {
        let name = copied(self.alloc, name)?;
        add(&mut self.calls, Call::Removed(name))?;
        Ok(())
    }

    fn sync(&mut self) -> Result<(), FolderError> {
        add(&mut self.calls, Call::Synced)?;
        Ok(())
    }

    fn replace(&mut self, name: &str, bytes: &[u8]) -> Result<(), FolderError> {
        let name = copied(self.alloc, name)?;
        let bytes = bytes_of(self.alloc, bytes)?;
        add(&mut self.calls, Call::Replaced(name, bytes))?;
        Ok(())
    }
}
