//! A registry as a folder serves it, as whoever reads it holds it.

ghost use Rattle.std.specs.Prelude.{◌≡◌, ◌+◌, ◌≤◌, ℕ, List, length, slice_get, Some, IfOk, IfErr};
ghost use Rattle.warg_crypto.specs.Digests.{sha256};
ghost use Rattle.warg_crypto.specs.Tree.{leaf_digest};
ghost use Rattle.warg_map.specs.Bits.{key_bits};
ghost use Rattle.warg_map.specs.ProofValue.{proof_value};
ghost use Rattle.warg_pages.specs.ProvedKeys.{LeadsTo, IsProved};
ghost use Rattle.warg_folder.specs.Moments.{HasLostCause};
ghost use Rattle.warg_store.specs.Log.{Serves};
ghost use Rattle.warg_store.specs.Reading.{IsShown, checkpoint_said};
ghost use Rattle.warg_store.specs.Refusals.{IsNoFault as IsNoLogFault, IsNoFailure, HasLogCause};
ghost use Rattle.warg_registry.specs.Folder.{registry_of, IsNoFault};
ghost use Rattle.warg_registry.specs.Reading.{ReadsRegistry, OfRead, StillReads, IsKeyShown, IsLogged, IsOfEntry, IsOwnKey, IsHeldAt, IsKeyIn};
ghost use Rattle.warg_registry.specs.Insertions.{entry_of, entries_of, IsInsertion};

use crate::error::RegistryError;
use crate::folder::root_said;
use crate::insertion::inserted_value;
use crate::source::{LastPage, ServedPages};
use std::alloc::Global;
use std::marker::Model;
use warg_crypto::{Hash, Sha256};
use warg_log::Checkpoint;
use warg_pages::{KeyInPages, prove_by_pages};
use warg_store::{Folder, FolderError, LogError, LogReader};

/// What a registry has under a key, with the peers of the map's proof, from the bottom of the tree to the top.
#[derive(Drop)]
pub enum KeyInRegistry {
    /// A value: the index of its insertion, its bytes, and the peers of `Map::prove`.
    Held(usize, Vec<u8>, Vec<Option<Hash<Sha256>>>),
    /// Nothing: the peers of `Map::prove_absence`.
    Absent(Vec<Option<Hash<Sha256>>>),
}

// Where an entry is read.
#[derive(Clone, Copy)]
enum EntryFrom {
    // In its bundle alone.
    Bundle,
    // In its bundle, once its inclusion path leads to the checkpoint's root.
    Log,
}

/// A registry as a folder serves it, for those who read: no call changes the folder, and none needs a lock.
#[derive(Drop)]
pub struct RegistryReader<F: Folder + Drop> {
    pub(crate) alloc: Global,
    pub(crate) pages: ServedPages<F>,
    pub(crate) root: Hash<Sha256>,
}

impl<F: Folder + Drop> Model for RegistryReader<F> {
    ghost use Rattle.warg_registry.specs.Reading.{RegistryRead};

    ghost Value = { RegistryRead F };

    ghost view = { λ r. record { log = r.pages.log; root = r.root } };
}

impl<F: Folder + Drop> RegistryReader<F> {
    /// Reads the checkpoint that a folder serves, as [`LogReader::open_served`] does. `NoMap` where it names no map.
    pub fn open(alloc: Global, folder: F) -> Result<RegistryReader<F>, RegistryError>
        ensures reads { F.IsFaithful → IfOk result (λ r. (origin : List ℕ) (insertions : List (List ℕ × List ℕ))
            → Serves (registry_of origin insertions) (F.seen folder)
            → ReadsRegistry F.seen origin insertions r) }
        ensures opens { F.IsFaithful → (origin : List ℕ) (insertions : List (List ℕ × List ℕ))
            → Serves (registry_of origin insertions) (F.seen folder)
            → IfErr result IsNoFault }
        ensures cause { HasLostCause F.faults (RegistryError.Log (LogError.Folder FolderError.Failed)) F.IsFaithful
            folder result }
    {
        let log = LogReader::open_served(alloc, folder)?;
        let root = root_said(alloc, log.text())?;
        let last = LastPage::new(alloc);
        let pages = ServedPages { log, last };
        Ok(RegistryReader { alloc, pages, root })
    }

    /// The checkpoint of the registry's log.
    pub fn checkpoint(&self) -> Checkpoint<Sha256>
        ensures { result ≡ checkpoint_said self.now.log.text }
    {
        self.pages.log.checkpoint()
    }

    /// How many insertions the map has.
    pub(crate) fn version(&self) -> u64
        ensures { result ≡ self.now.log.text.length }
    {
        self.checkpoint().length() as u64
    }

    /// The root of the map.
    pub fn root(&self) -> &Hash<Sha256>
        ensures { result.now ≡ self.now.root }
    {
        &self.root
    }

    /// The registry's log.
    pub fn into_log(self) -> LogReader<F>
        ensures { result ≡ self.log }
    {
        let RegistryReader { pages, .. } = self;
        let ServedPages { log, .. } = pages;
        log
    }

    /// What the registry has under a key: the value of the last insertion under the key's digest, with the index of its
    /// entry, or nothing, each with the proof under the map's root. `Damaged` names a page or a bundle that is missing or
    /// corrupt, or a page that names an entry which isn't of this key and value, as where another key has its digest.
    ///
    /// It reads no tile: the map's root has the value, and the index is that of its entry as the bundle has it. That the
    /// entry is in the log, `inclusion_path` of [`into_log`](RegistryReader::into_log) shows, and `get_logged` does.
    pub fn get(&mut self, key: &[u8]) -> Result<KeyInRegistry, LogError>
        ensures shown { IfOk result (IsKeyShown self.old.root key.now) }
        ensures own { F.IsFaithful → IfOk result (λ found. OfRead F.seen self.old (λ insertions.
            IsKeyIn insertions key.now found)) }
        ensures whole { F.IsFaithful → OfRead F.seen self.old (λ insertions.
            IsOwnKey insertions key.now → IfErr result (IsNoLogFault ⊥)) }
        ensures reads { F.IsFaithful → StillReads F.seen self.old self.new }
        ensures cause { HasLogCause F.IsFaithful (F.faults self.old.log.folder) (F.faults self.new.log.folder) result }
    {
        self.found(key, EntryFrom::Bundle)
    }

    /// As [`get`](RegistryReader::get), once the entry's inclusion path leads to the checkpoint's root. `Damaged` names a tile,
    /// too.
    pub fn get_logged(&mut self, key: &[u8]) -> Result<KeyInRegistry, LogError>
        ensures shown { IfOk result (IsKeyShown self.old.root key.now) }
        ensures logged { IfOk result (IsLogged (checkpoint_said self.old.log.text) key.now) }
        ensures own { F.IsFaithful → IfOk result (λ found. OfRead F.seen self.old (λ insertions.
            IsKeyIn insertions key.now found)) }
        ensures whole { F.IsFaithful → OfRead F.seen self.old (λ insertions.
            IsOwnKey insertions key.now → IfErr result (IsNoLogFault ⊥)) }
        ensures reads { F.IsFaithful → StillReads F.seen self.old self.new }
        ensures cause { HasLogCause F.IsFaithful (F.faults self.old.log.folder) (F.faults self.new.log.folder) result }
    {
        self.found(key, EntryFrom::Log)
    }

    // What the registry has under a key, once a held one's entry is read so.
    fn found(&mut self, key: &[u8], from: EntryFrom) -> Result<KeyInRegistry, LogError>
        ensures shown { IfOk result (IsKeyShown self.old.root key.now) }
        ensures logged { from ≡ EntryFrom.Log → IfOk result (IsLogged (checkpoint_said self.old.log.text) key.now) }
        ensures own { F.IsFaithful → IfOk result (λ found. OfRead F.seen self.old (λ insertions.
            IsKeyIn insertions key.now found)) }
        ensures whole { F.IsFaithful → OfRead F.seen self.old (λ insertions.
            IsOwnKey insertions key.now → IfErr result (IsNoLogFault ⊥)) }
        ensures reads { F.IsFaithful → StillReads F.seen self.old self.new }
        ensures cause { HasLogCause F.IsFaithful (F.faults self.old.log.folder) (F.faults self.new.log.folder) result }
    {
        match self.prove(key)? {
            KeyInPages::Held(index, leaf, peers) => self.value(key, index, &leaf, peers, from),
            KeyInPages::Absent(peers) => Ok(KeyInRegistry::Absent(peers)),
        }
    }

    // What the pages prove of a key.
    fn prove(&mut self, key: &[u8]) -> Result<KeyInPages<Sha256>, LogError>
        ensures leads { IfOk result (LeadsTo sha256 (key_bits sha256 key.now) self.old.root) }
        ensures own { F.IsFaithful → IfOk result (λ found. OfRead F.seen self.old (λ insertions.
            IsProved sha256 insertions key.now found)) }
        ensures whole { F.IsFaithful → OfRead F.seen self.old (λ _. IfErr result (IsNoLogFault ⊥)) }
        ensures same { (self.new.root ≡ self.old.root) × (self.new.log.text ≡ self.old.log.text) }
        ensures reads { F.IsFaithful → StillReads F.seen self.old self.new }
        ensures cause { HasLogCause F.IsFaithful (F.faults self.old.log.folder) (F.faults self.new.log.folder) result }
    {
        let version = self.version();
        self.pages.last.forget();
        let led = prove_by_pages(self.alloc, &mut self.pages, &self.root, version, &key);
        self.pages.last.or_refusal(led)
    }

    // The value that a held key's entry has, once it is read so.
    fn value(
        &mut self,
        key: &[u8],
        index: u64,
        leaf: &Hash<Sha256>,
        peers: Vec<Option<Hash<Sha256>>>,
        from: EntryFrom,
    ) -> Result<KeyInRegistry, LogError>
        ensures shown { IfOk result (λ found. proof_value sha256 peers.items leaf.now (key_bits sha256 key.now)
            ≡ self.old.root → IsKeyShown self.old.root key.now found) }
        ensures logged { from ≡ EntryFrom.Log → IfOk result (IsLogged (checkpoint_said self.old.log.text) key.now) }
        ensures own { F.IsFaithful → IfOk result (λ found. OfRead F.seen self.old (λ insertions.
            IsHeldAt insertions (key_bits sha256 key.now) index leaf.now peers.items
            → IsKeyIn insertions key.now found)) }
        ensures whole { F.IsFaithful → OfRead F.seen self.old (λ insertions. IsOwnKey insertions key.now
            → IsHeldAt insertions (key_bits sha256 key.now) index leaf.now peers.items
            → IfErr result (IsNoLogFault ⊥)) }
        ensures reads { F.IsFaithful → StillReads F.seen self.old self.new }
        ensures cause { HasLogCause F.IsFaithful (F.faults self.old.log.folder) (F.faults self.new.log.folder) result }
    {
        let entry = self.entry(index as usize, from)?;
        self.held(key, index, leaf, entry.as_slice(), peers)
    }

    // The entry at an index.
    fn entry(&mut self, index: usize, from: EntryFrom) -> Result<Vec<u8>, LogError>
        ensures shown { from ≡ EntryFrom.Log
            → IfOk result (λ entry. IsShown (checkpoint_said self.old.log.text) index entry.items) }
        ensures own { F.IsFaithful → IfOk result (λ entry. OfRead F.seen self.old (λ insertions.
            slice_get (entries_of insertions) index ≡ Some entry.items)) }
        ensures whole { F.IsFaithful → OfRead F.seen self.old (λ insertions.
            IfErr result (IsNoLogFault (length (entries_of insertions) ≤ index))) }
        ensures root { self.new.root ≡ self.old.root }
        ensures reads { F.IsFaithful → StillReads F.seen self.old self.new }
        ensures cause { HasLogCause F.IsFaithful (F.faults self.old.log.folder) (F.faults self.new.log.folder) result }
    {
        match from {
            EntryFrom::Bundle => self.pages.log.bundle_entry(index),
            EntryFrom::Log => self.pages.log.entry(index),
        }
    }

    // The value that a held key's entry has.
    fn held(
        &self,
        key: &[u8],
        index: u64,
        leaf: &Hash<Sha256>,
        entry: &[u8],
        peers: Vec<Option<Hash<Sha256>>>,
    ) -> Result<KeyInRegistry, LogError>
        ensures of_entry { IfOk result (IsOfEntry key.now index leaf.now entry.now peers.items) }
        ensures whole { (value : List ℕ) → IsInsertion (key.now, value) → entry.now ≡ entry_of (key.now, value)
            → leaf_digest sha256 value ≡ leaf.now → IfErr result (IsNoLogFault ⊥) }
        ensures other { IfErr result IsNoFailure }
    {
        match inserted_value(entry, key, leaf) {
            Some(value) => Ok(KeyInRegistry::Held(
                index as usize,
                Vec::from_slice(self.alloc, value)?,
                peers,
            )),
            None => {
                let fault = "names an entry that isn't an insertion of the key's value";
                Err(self.pages.last.damaged(fault))
            }
        }
    }
}
