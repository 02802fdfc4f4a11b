//! That the map in a registry's pages is the one that the log's entries make.

ghost use Rattle.std.specs.Prelude.{◌≡◌, ◌+◌, ◌*◌, ◌<◌, ◌≤◌, ◌∷◌, ◌++◌, [], ℕ, nat_eq, List, length, filter, slice_get, Some, IfOk, IfErr, OnOk, IfNone, IfSome};
ghost use Rattle.std.specs.Option.{is_some};
ghost use Rattle.warg_crypto.specs.Digests.{sha256};
ghost use Rattle.warg_crypto.specs.Tree.{leaf_digest};
ghost use Rattle.warg_pages.specs.Audits.{IsHeldIn, IsInPages};
ghost use Rattle.warg_pages.specs.ChangedPages.{ChangedPageAt};
ghost use Rattle.warg_pages.specs.Visits.{lone_slots};
ghost use Rattle.warg_store.specs.Audited.{IsOfEntries, ShowsLogAndOlder, HasOlder};
ghost use Rattle.warg_folder.specs.Moments.{IsRead};
ghost use Rattle.warg_store.specs.Log.{LogOf};
ghost use Rattle.warg_store.specs.Reading.{Reads, bundle_in, checkpoint_said};
ghost use Rattle.warg_store.specs.Refusals.{IsNoFault, IsNoFailure, HasLogCause};
ghost use Rattle.warg_registry.specs.Auditing.{AreOfRegistry, AreAllInFiles, AreReplayed, HasVisited};
ghost use Rattle.warg_registry.specs.Folder.{registry_of};
ghost use Rattle.warg_registry.specs.Insertions.{entry_of, entries_of};
ghost use Rattle.warg_registry.specs.Reading.{ReadsRegistry, OfRead, StillReads};

use crate::error::damaged;
use crate::insertion::{Insertion, read_insertion};
use crate::reader::RegistryReader;
use std::alloc::{AllocError, Global};
use warg_crypto::{Hash, Sha256, hash_leaf};
use warg_log::{Checkpoint, GREATEST_LENGTH, LogBuilder, StackLog};
use warg_pages::{HeldInPages, LoneKeyCheck, MapPage, PageVisitor, held_in_pages, visit_pages};
use warg_store::{Folder, FolderError, LogError, Progress};
use warg_tiles::Tile;

// How many keys stand alone in the slots of pages.
#[derive(Drop)]
struct LoneKeys {
    count: usize,
}

impl PageVisitor<Sha256, Global> for LoneKeys {
    ghost use Rattle.std.specs.Prelude.{◌≡◌, length};
    ghost use Rattle.warg_pages.specs.Visits.{lone_slots};

    ghost HasSeen = { λ lones pages. lones.count ≡ length (lone_slots pages) };

    // More than 2^64 keys count as memory that was refused.
    fn visit(
        &mut self,
        _prefix: &[u8],
        _version: u64,
        page: &MapPage<Sha256, Global>,
    ) -> Result<(), AllocError> {
        self.count = self.count.checked_add(count_lones(page)).ok_or(AllocError)?;
        Ok(())
    }
}

// How many slots of a page have a lone key.
fn count_lones(page: &MapPage<Sha256, Global>) -> usize
    ensures { result ≡ length (filter (λ x. is_some x.lone) page.now) }
{
    page.slots()
        .iter()
        .filter(|slot| slot.lone.is_some())
        .count()
}

/// The log of the entries that were read, and how many of them are the last ones of their keys.
#[derive(Drop)]
pub(crate) struct Replay {
    log: StackLog<Sha256, Vec<u8>>,
    last: usize,
}

impl<F: Folder + Drop> RegistryReader<F> {
    /// Shows that the map is the one that the log's entries make, and audits the log as [`LogReader::audit`] does. Each page
    /// that the map's root leads to has the digest of the slot that names it; each entry is an insertion whose key stands
    /// alone in a slot of a version above the entry's index, and where it is the next version, with the entry's value; and
    /// there are no other keys. `Damaged` names the file at fault. `progress` counts the entries as the log's audit reads them,
    /// which comes after the map's.
    ///
    /// It reads each page once, and for each entry those on the way of its key; each entry bundle twice, and each tile. Its
    /// memory is that of one bundle, and a page for each byte that two keys' digests share.
    pub fn audit<P: Progress>(&mut self, progress: &mut P) -> Result<Checkpoint<Sha256>, LogError>
        ensures entries { IfOk result IsOfEntries }
        ensures insertions { F.IsFaithful → IfOk result (λ checkpoint. (insertions : List (List ℕ × List ℕ))
            × AreOfRegistry checkpoint self.old.root insertions) }
        ensures served { IfOk result (λ checkpoint. checkpoint ≡ checkpoint_said self.old.log.text) }
        ensures files { F.IsFaithful → IfOk result (ShowsLogAndOlder (F.seen self.old.log.folder)) }
        ensures whole { F.IsFaithful → (origin : List ℕ) (insertions : List (List ℕ × List ℕ))
            → ReadsRegistry F.seen origin insertions self.old
            → HasOlder (registry_of origin insertions) (F.seen self.old.log.folder) → IfErr result (IsNoFault ⊥) }
        ensures cause { HasLogCause F.IsFaithful (F.faults self.old.log.folder) (F.faults self.new.log.folder) result }
    {
        let checkpoint = self.audited_map()?;
        self.pages.log.audit(progress)?;
        Ok(checkpoint)
    }

    // The checkpoint, once the map is shown to be the one of the log's entries.
    fn audited_map(&mut self) -> Result<Checkpoint<Sha256>, LogError>
        ensures entries { IfOk result IsOfEntries }
        ensures insertions { F.IsFaithful → IfOk result (λ checkpoint. (insertions : List (List ℕ × List ℕ))
            × AreOfRegistry checkpoint self.old.root insertions) }
        ensures served { IfOk result (λ checkpoint. checkpoint ≡ checkpoint_said self.old.log.text) }
        ensures whole { F.IsFaithful → OfRead F.seen self.old (λ _. IfErr result (IsNoFault ⊥)) }
        ensures reads { F.IsFaithful → OnOk result (StillReads F.seen self.old self.new) }
        ensures text { OnOk result (self.new.log.text ≡ self.old.log.text) }
        ensures read { F.IsFaithful → OnOk result
            (IsRead F.seen F.may_leave F.moment F.left_since self.old.log.folder self.new.log.folder) }
        ensures cause { HasLogCause F.IsFaithful (F.faults self.old.log.folder) (F.faults self.new.log.folder) result }
    {
        let keys = self.count_keys()?;
        let replay = self.replay()?;
        let checkpoint = self.checkpoint();
        if replay.log.checkpoint() != checkpoint {
            let fault = "has another root than the log's entries";
            return Err(damaged(self.alloc, "checkpoint", fault));
        }
        if replay.last != keys {
            let fault = "has a key that no entry has";
            return Err(damaged(self.alloc, "map", fault));
        }
        Ok(checkpoint)
    }

    // How many keys the map's pages hold, once each page has the digest of the slot that names it.
    fn count_keys(&mut self) -> Result<usize, LogError>
        ensures keys { F.IsFaithful → IfOk result (λ count. (all : List ChangedPageAt)
            × AreAllInFiles (F.seen self.old.log.folder) self.old.root self.old.log.text.length all
            × (count ≡ length (lone_slots all))) }
        ensures whole { F.IsFaithful → OfRead F.seen self.old (λ _. IfErr result (IsNoFault ⊥)) }
        ensures same { (self.new.root ≡ self.old.root) × (self.new.log.text ≡ self.old.log.text) }
        ensures read { F.IsFaithful
            → IsRead F.seen F.may_leave F.moment F.left_since self.old.log.folder self.new.log.folder }
        ensures cause { HasLogCause F.IsFaithful (F.faults self.old.log.folder) (F.faults self.new.log.folder) result }
    {
        let version = self.version();
        let mut lones = LoneKeys { count: 0 };
        self.pages.last.forget();
        let led = visit_pages(
            self.alloc,
            &mut self.pages,
            &self.root,
            version,
            LoneKeyCheck::Hashed,
            &mut lones,
        );
        self.pages.last.or_refusal(led)?;
        Ok(lones.count)
    }

    // Reads all entries, one bundle after the other.
    fn replay(&mut self) -> Result<Replay, LogError>
        ensures replayed { IfOk result (λ replay. (all : List (List ℕ × List ℕ)) × AreReplayed F.IsFaithful
            (F.seen self.old.log.folder) self.old.log.text.length replay.log replay.last all
            × (F.IsFaithful → (log : LogOf) → Reads F.seen log self.old.log → entries_of all ≡ log.entries)) }
        ensures whole { F.IsFaithful → (insertions : List (List ℕ × List ℕ)) (all : List ChangedPageAt)
            → HasVisited F.seen insertions all self.old → IfErr result (IsNoFault ⊥) }
        ensures same { (self.new.root ≡ self.old.root) × (self.new.log.text ≡ self.old.log.text) }
        ensures read { F.IsFaithful
            → IsRead F.seen F.may_leave F.moment F.left_since self.old.log.folder self.new.log.folder }
        ensures cause { HasLogCause F.IsFaithful (F.faults self.old.log.folder) (F.faults self.new.log.folder) result }
    {
        let mut replay = Replay {
            log: StackLog::default(self.alloc),
            last: 0,
        };
        'bundles: for bundle in 0..self.checkpoint().length().div_ceil(256) {
            self.replay_bundle(&mut replay, bundle)?;
        }
        Ok(replay)
    }

    // Reads the entries of a bundle.
    fn replay_bundle(&mut self, replay: &mut Replay, bundle: usize) -> Result<(), LogError>
        requires { replay.old.last ≤ replay.old.log.len }
        ensures few { OnOk result (replay.new.last ≤ replay.new.log.len) }
        ensures replayed { OnOk result ((before : List (List ℕ × List ℕ)) → AreReplayed F.IsFaithful
            (F.seen self.old.log.folder) self.old.log.text.length replay.old.log replay.old.last before
            → (more : List (List ℕ × List ℕ)) × AreReplayed F.IsFaithful (F.seen self.old.log.folder)
            self.old.log.text.length replay.new.log replay.new.last (before ++ more)
            × (F.IsFaithful → (log : LogOf) → Reads F.seen log self.old.log
            → entries_of more ≡ bundle_in log bundle)) }
        ensures whole { F.IsFaithful → (insertions : List (List ℕ × List ℕ)) (all : List ChangedPageAt)
            → HasVisited F.seen insertions all self.old → 256 * bundle < length insertions
            → replay.old.log.len ≡ 256 * bundle → IfErr result (IsNoFault ⊥) }
        ensures same { (self.new.root ≡ self.old.root) × (self.new.log.text ≡ self.old.log.text) }
        ensures read { F.IsFaithful
            → IsRead F.seen F.may_leave F.moment F.left_since self.old.log.folder self.new.log.folder }
        ensures cause { HasLogCause F.IsFaithful (F.faults self.old.log.folder) (F.faults self.new.log.folder) result }
    {
        let entries = self.pages.log.entries(bundle)?;
        'entries: for entry in &entries {
            self.replay_entry(replay, entry)?;
        }
        Ok(())
    }

    // Looks an entry's insertion up in the pages, and adds the entry.
    fn replay_entry(&mut self, replay: &mut Replay, entry: &Vec<u8>) -> Result<(), LogError>
        requires { replay.old.last ≤ replay.old.log.len }
        ensures few { OnOk result (replay.new.last ≤ replay.new.log.len) }
        ensures count { OnOk result (replay.new.log.len ≡ replay.old.log.len + 1) }
        ensures replayed { OnOk result ((before : List (List ℕ × List ℕ)) → AreReplayed F.IsFaithful
            (F.seen self.old.log.folder) self.old.log.text.length replay.old.log replay.old.last before
            → (e : List ℕ × List ℕ) × (entry.now.items ≡ entry_of e) × AreReplayed F.IsFaithful
            (F.seen self.old.log.folder) self.old.log.text.length replay.new.log replay.new.last (before ++ e ∷ [])) }
        ensures whole { F.IsFaithful → (insertions : List (List ℕ × List ℕ)) (all : List ChangedPageAt)
            → HasVisited F.seen insertions all self.old → (e : List ℕ × List ℕ)
            → slice_get insertions replay.old.log.len ≡ Some e → entry.now.items ≡ entry_of e
            → IfErr result (IsNoFault ⊥) }
        ensures same { (self.new.root ≡ self.old.root) × (self.new.log.text ≡ self.old.log.text) }
        ensures read { F.IsFaithful
            → IsRead F.seen F.may_leave F.moment F.left_since self.old.log.folder self.new.log.folder }
        ensures cause { HasLogCause F.IsFaithful (F.faults self.old.log.folder) (F.faults self.new.log.folder) result }
    {
        let index = replay.log.length();
        if index >= GREATEST_LENGTH {
            return Err(LogError::from(AllocError));
        }
        let Ok(insertion) = read_insertion(entry.as_slice()) else {
            return Err(no_insertion(self.alloc, self.checkpoint().length(), index));
        };
        let is_last = self.is_last(index as u64, &insertion)?;
        replay.log.push(entry)?;
        if is_last {
            replay.last += 1;
        }
        Ok(())
    }

    // What the map's pages hold under a key digest.
    fn held_in_map(&mut self, key: &Hash<Sha256>) -> Result<Option<HeldInPages<Sha256>>, LogError>
        ensures held { F.IsFaithful → IfOk result (λ held. (root : List ℕ) (all : List ChangedPageAt)
            → AreAllInFiles (F.seen self.old.log.folder) root self.old.log.text.length all
            → IsHeldIn all key.now held) }
        ensures whole { F.IsFaithful → (root : List ℕ) (all : List ChangedPageAt)
            → AreAllInFiles (F.seen self.old.log.folder) root self.old.log.text.length all
            → IfErr result (IsNoFault ⊥) }
        ensures same { (self.new.root ≡ self.old.root) × (self.new.log.text ≡ self.old.log.text) }
        ensures read { F.IsFaithful
            → IsRead F.seen F.may_leave F.moment F.left_since self.old.log.folder self.new.log.folder }
        ensures cause { HasLogCause F.IsFaithful (F.faults self.old.log.folder) (F.faults self.new.log.folder) result }
    {
        let version = self.version();
        self.pages.last.forget();
        let led = held_in_pages(self.alloc, &mut self.pages, version, key);
        self.pages.last.or_refusal(led)
    }

    // Whether an insertion is the last one of its key by the pages, in which it has to be.
    fn is_last(&mut self, index: u64, insertion: &Insertion<'_>) -> Result<bool, LogError>
        requires { index < GREATEST_LENGTH }
        ensures in_pages { F.IsFaithful → IfOk result (λ last. (root : List ℕ) (all : List ChangedPageAt)
            → AreAllInFiles (F.seen self.old.log.folder) root self.old.log.text.length all → (version : ℕ)
            × IsInPages sha256 all index (insertion.now.key.now, insertion.now.value.now) version
            × (last ≡ nat_eq version (index + 1))) }
        ensures whole { F.IsFaithful → (insertions : List (List ℕ × List ℕ)) (all : List ChangedPageAt)
            → HasVisited F.seen insertions all self.old
            → slice_get insertions index ≡ Some (insertion.now.key.now, insertion.now.value.now)
            → IfErr result (IsNoFault ⊥) }
        ensures same { (self.new.root ≡ self.old.root) × (self.new.log.text ≡ self.old.log.text) }
        ensures read { F.IsFaithful
            → IsRead F.seen F.may_leave F.moment F.left_since self.old.log.folder self.new.log.folder }
        ensures cause { HasLogCause F.IsFaithful (F.faults self.old.log.folder) (F.faults self.new.log.folder) result }
    {
        let key: Hash<Sha256> = Hash::of(&insertion.key);
        let held = self.held_in_map(&key)?;
        match is_next(&held, index, insertion.value) {
            Some(last) => Ok(last),
            None => {
                let fault = "hasn't the key of a log's entry, or another value or version";
                Err(self.pages.last.damaged(fault))
            }
        }
    }
}

// Whether the version under a key digest is the one after an index; `None` where it is an earlier one, or the leaf digest
// isn't that of the value.
fn is_next(held: &Option<HeldInPages<Sha256>>, index: u64, value: &[u8]) -> Option<bool>
    requires { index < GREATEST_LENGTH }
    ensures some { IfSome result (λ last. (found : ℕ × List ℕ) × (held.now ≡ Some found) × (index < found.0)
        × (last ≡ nat_eq found.0 (index + 1)) × (found.0 ≡ index + 1 → found.1 ≡ leaf_digest sha256 value.now)) }
    ensures none { IfNone result ((found : ℕ × List ℕ) → held.now ≡ Some found → index < found.0
        → (found.0 ≡ index + 1 → found.1 ≡ leaf_digest sha256 value.now) → ⊥) }
{
    let Some(held) = held else {
        return None;
    };
    if held.version > index + 1 {
        return Some(false);
    }
    if held.version <= index || held.leaf != hash_leaf(&value) {
        return None;
    }
    Some(true)
}

// That the bundle with an entry has one that is no insertion.
fn no_insertion(alloc: Global, length: usize, index: usize) -> LogError
    ensures { IsNoFailure result }
{
    let number = index / 256;
    let width = length.saturating_sub(256 * number).clamp(1, 256);
    match Tile::new(0, number, width).entries_path(alloc) {
        Ok(path) => damaged(alloc, path.as_str(), "has an entry that is no insertion"),
        Err(error) => LogError::from(error),
    }
}
