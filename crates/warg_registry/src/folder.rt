//! A registry in a folder, as whoever adds to it holds it.

ghost use Rattle.std.specs.Prelude.{◌≡◌, ◌≢◌, ◌⊎◌, ◌+◌, ◌++◌, ◌^◌, ◌<◌, ◌≤◌, ℕ, List, [], ◌∷◌, length, map, true, false, Err, IfOk, IfErr, OnOk, OnErr, IsSome, None};
ghost use Rattle.std.specs.List.{AllByRecursion};
ghost use Rattle.warg_crypto.specs.Digests.{sha256, IsDigest};
ghost use Rattle.warg_map.specs.Sparse.{map_of, sparse_root, pair_bytes};
ghost use Rattle.warg_pages.specs.ChangedPages.{AreChangedPages};
ghost use Rattle.warg_pages.specs.ProvedKeys.{IsOwnSource};
ghost use Rattle.warg_tiles.specs.CheckpointText.{IsLine};
ghost use Rattle.warg_store.specs.Growing.{IsReady, Has, HasNext, IsFresh, with_page};
ghost use Rattle.warg_store.specs.Log.{LogOf, HasLog, IsOneOf, IsCommitting, AreShort, CanBeKept};
ghost use Rattle.warg_folder.specs.Moments.{LeavesOnly, HasCauseOf, HasLostCause};
ghost use Rattle.warg_folder.specs.Names.{is_page};
ghost use Rattle.warg_folder.specs.Commits.{IsBeside, opened};
ghost use Rattle.warg_store.specs.Opening.{IsOpening, HasNoLogFile, HasLogFile};
ghost use Rattle.warg_store.specs.Refusals.{IsNoFault as IsNoLogFault, HasLogCause};
ghost use Rattle.warg_store.specs.Pruned.{AreGone, IsSpare};
ghost use Rattle.warg_registry.specs.Insertions.{entries_of, entry_of};
ghost use Rattle.warg_registry.specs.Publishing.{IsRefusedFor, of_push};
ghost use Rattle.warg_registry.specs.Pruning.{IsPageOf};
ghost use Rattle.warg_registry.specs.Registry.{line_of};
ghost use Rattle.warg_registry.specs.Folder.{registry_of, page_read, HasRegistry, IsLogRead, ReadsOn, IsNoFault, with_entries, with_pages, file_of, files_of, AreFresh, IsNextLog};

use crate::error::{PublishError, RegistryError, damaged};
use crate::extension::{map_line, map_root};
use crate::insertion::write_insertion;
use crate::source::{KeptPages, LastPage, below_map};
use std::alloc::{AllocError, Global};
use std::marker::Model;
use warg_crypto::{Hash, Sha256};
use warg_log::{Checkpoint, GREATEST_LENGTH};
use warg_pages::{ChangedPage, PagedMap, ProveError, WayError, page_path, prove_by_pages};
use warg_store::{CreateError, Folder, FolderError, LogError, LogFolder, PushError};
use warg_tiles::{CheckpointText, EntryError};

/// A registry in a folder: a log of insertions, and the pages of the map that they make. Its memory grows with neither.
#[derive(Drop)]
pub struct RegistryFolder<F: Folder + Drop> {
    alloc: Global,
    pages: KeptPages<F>,
    map: PagedMap<Sha256>,
    is_open: bool,
}

impl<F: Folder + Drop> Model for RegistryFolder<F> {
    ghost use Rattle.warg_registry.specs.Folder.{RegistryIn};

    ghost Value = { RegistryIn F };

    ghost view = { λ r. record {
      log = r.pages.log;
      takes = r.is_open;
      root = r.map.root;
      count = r.map.version;
    } };
}

impl<F: Folder + Drop> RegistryFolder<F> {
    // The registry of a log with this map.
    fn with(alloc: Global, log: LogFolder<F>, map: PagedMap<Sha256>) -> RegistryFolder<F>
        ensures { result ≡ record { log = log; takes = true; root = map.root; count = map.version } }
    {
        let last = LastPage::new(alloc);
        RegistryFolder {
            alloc,
            pages: KeptPages { log, last },
            map,
            is_open: true,
        }
    }

    /// Makes a registry of no insertions in a folder. The errors are those of [`LogFolder::create`].
    pub fn create(alloc: Global, folder: F, origin: &[u8]) -> Result<RegistryFolder<F>, CreateError>
        ensures has { F.IsFaithful → IfOk result (HasRegistry F.seen F.may_leave origin.now [] []) }
        ensures ready { F.IsFaithful → IfOk result (λ r. IsReady F.seen F.may_leave r.log) }
        ensures origin { result ≡ Err CreateError.Origin → (65535 < length origin.now)
            ⊎ (CanBeKept (registry_of origin.now []) → ⊥) }
        ensures fresh { F.IsFaithful → OnOk result (HasNoLogFile (F.seen folder)) }
        ensures exists { F.IsFaithful → result ≡ Err CreateError.Exists → HasLogFile (F.seen folder) }
        ensures cause { HasLostCause F.faults (CreateError.Folder FolderError.Failed) F.IsFaithful folder result }
    {
        let map = PagedMap::new();
        let lines = lines_of(alloc, &map.root)?;
        let log = LogFolder::create_with(alloc, folder, origin, lines.as_slice())?;
        Ok(RegistryFolder::with(alloc, log, map))
    }

    /// Opens a folder's registry, as [`LogFolder::open`] opens its log. `NoMap` where the log has none.
    pub fn open(alloc: Global, folder: F) -> Result<RegistryFolder<F>, RegistryError>
        ensures ready { F.IsFaithful → IfOk result (λ r. IsReady F.seen F.may_leave r.log) }

        // What the folder stands for is the registry.
        ensures has { F.IsFaithful → IfOk result (λ r. (origin : List ℕ) (served kept : List (List ℕ × List ℕ))
            → HasLog (registry_of origin served) (registry_of origin kept) (opened (F.seen folder))
            → HasRegistry F.seen F.may_leave origin served kept r) }
        ensures opens { F.IsFaithful → (origin : List ℕ) (served kept : List (List ℕ × List ℕ))
            → HasLog (registry_of origin served) (registry_of origin kept) (opened (F.seen folder))
            → IfErr result IsNoFault }
        ensures any_moment { F.IsFaithful → IfOk result (λ r. LeavesOnly F.moment F.left_since folder r.log.folder
            (λ c. F.may_leave folder c ⊎ IsOpening (F.seen folder) c)) }
        ensures cause { HasLostCause F.faults (RegistryError.Log (LogError.Folder FolderError.Failed)) F.IsFaithful
            folder result }
    {
        let log = LogFolder::open(alloc, folder)?;
        let root = root_said(alloc, log.text())?;
        let version = log.length() as u64;
        Ok(RegistryFolder::with(alloc, log, PagedMap { root, version }))
    }

    /// Inserts keys with values, in order, and serves them: the log's entries, the pages that change, and the checkpoint
    /// with the map's root. All of it or nothing, whatever happens at whatever moment; no file below `tile/` or `map/` changes
    /// its bytes.
    ///
    /// `TooLong` where an entry has more than 65,535 bytes, `Full` where there would be more than 2^63 entries, and `Damaged`
    /// for a page that is missing or corrupt come before anything is written, and the registry is as it was. `Full` also comes
    /// where the checkpoint's text would have more than 2^20 bytes: then, or where memory is refused or the device fails, the
    /// registry may take no more (`Closed`), and the folder is opened again. It is refused for nothing else.
    pub fn publish(&mut self, insertions: &[(&[u8], &[u8])]) -> Result<(), PublishError>
        requires { F.IsFaithful → IsReady F.seen F.may_leave self.old.log }
        ensures published { F.IsFaithful → OnOk result ((origin : List ℕ) (served kept : List (List ℕ × List ℕ))
            → HasRegistry F.seen F.may_leave origin served kept self.old → (now : List (List ℕ × List ℕ))
            × HasRegistry F.seen F.may_leave origin now (kept ++ pair_bytes (λ k. k.now) (λ v. v.now) insertions.now) self.new) }
        ensures refused { F.IsFaithful → OnErr result (self.new.takes ≡ true
            → (origin : List ℕ) (served kept : List (List ℕ × List ℕ))
            → HasRegistry F.seen F.may_leave origin served kept self.old
            → HasRegistry F.seen F.may_leave origin served kept self.new) }
        ensures any_moment { F.IsFaithful → (origin : List ℕ) (served kept : List (List ℕ × List ℕ))
            → HasRegistry F.seen F.may_leave origin served kept self.old
            → LeavesOnly F.moment F.left_since self.old.log.folder self.new.log.folder
            (IsCommitting (registry_of origin served) (registry_of origin kept)
            (registry_of origin (kept ++ pair_bytes (λ k. k.now) (λ v. v.now) insertions.now)) (F.seen self.old.log.folder)) }
        ensures ready { F.IsFaithful → IsReady F.seen F.may_leave self.new.log }
        ensures closed { self.old.takes ≡ false → (result ≡ Err PublishError.Closed) × (self.new ≡ self.old) }
        ensures refusal { F.IsFaithful → (origin : List ℕ) (served kept : List (List ℕ × List ℕ))
            → HasRegistry F.seen F.may_leave origin served kept self.old
            → let more = pair_bytes (λ k. k.now) (λ v. v.now) insertions.now in
            IfErr result (IsRefusedFor (¬ (AreShort (entries_of more)))
            (¬ (CanBeKept (registry_of origin (kept ++ more))))) }
        ensures cause { HasCauseOf (PublishError.Log (LogError.Folder FolderError.Failed)) F.IsFaithful
            (F.faults self.old.log.folder) (F.faults self.new.log.folder) result }
    {
        if !self.is_open {
            return Err(PublishError::Closed);
        }
        if insertions.is_empty() {
            return Ok(());
        }
        let room = (GREATEST_LENGTH as u64).saturating_sub(self.map.version);
        if insertions.len() as u64 > room {
            return Err(PublishError::Full);
        }
        let entries = entries_in(self.alloc, insertions)?;
        let changed = self.insert(insertions)?;
        self.is_open = false;
        let log = &mut self.pages.log;
        grow(
            self.alloc,
            log,
            &self.map.root,
            entries.as_slice(),
            changed.as_slice(),
        )?;
        self.is_open = true;
        Ok(())
    }

    // Inserts into the map. Returns the pages that change.
    fn insert(
        &mut self,
        insertions: &[(&[u8], &[u8])],
    ) -> Result<Vec<ChangedPage<Sha256>>, PublishError>
        requires { self.old.count + length insertions.now < 2 ^ 64 }
        ensures pages { F.IsFaithful → IfOk result (λ changed. (kept : List (List ℕ × List ℕ))
            → IsOwnSource sha256 (page_read (F.seen self.old.log.folder)) self.old.root self.old.count kept
            → AreChangedPages sha256 kept (pair_bytes (λ k. k.now) (λ v. v.now) insertions.now) changed.items
            × (self.new.root ≡ sparse_root sha256 256
            (map_of sha256 (kept ++ pair_bytes (λ k. k.now) (λ v. v.now) insertions.now)))) }
        ensures count { OnOk result (self.new.count ≡ self.old.count + length insertions.now) }
        ensures read { F.IsFaithful → IsLogRead F.seen F.may_leave F.moment F.left_since self.old.log self.new.log }
        ensures refused { OnErr result ((self.new.root ≡ self.old.root) × (self.new.count ≡ self.old.count)) }
        ensures takes { self.new.takes ≡ self.old.takes }
        ensures whole { F.IsFaithful → (kept : List (List ℕ × List ℕ))
            → IsOwnSource sha256 (page_read (F.seen self.old.log.folder)) self.old.root self.old.count kept
            → IfErr result (IsRefusedFor ⊥ ⊥) }
        ensures cause { HasCauseOf (PublishError.Log (LogError.Folder FolderError.Failed)) F.IsFaithful
            (F.faults self.old.log.folder) (F.faults self.new.log.folder) result }
    {
        self.pages.last.forget();
        match self.map.insert_all(self.alloc, &mut self.pages, insertions) {
            Ok(changed) => Ok(changed),
            Err(ProveError::Way(WayError::WrongDigest)) => {
                Err(PublishError::Log(find_fault(
                    self.alloc,
                    &mut self.pages,
                    &self.map,
                    insertions,
                )))
            }
            Err(error) => Err(PublishError::Log(self.pages.last.refusal(error))),
        }
    }

    /// Removes what neither the newest state nor the served checkpoint needs: pages of older versions, and of the log what
    /// [`LogFolder::prune`] removes. First it visits all pages of both: where one is missing, or hasn't the digest that names it,
    /// `Damaged` names it, and nothing is removed. Returns how many files it removed. After an error, of `publish` too, open
    /// the folder again.
    ///
    /// It reads each page that is needed once, or twice where two states have it, hashes its branches but no lone key's way
    /// down, and keeps the names of all.
    pub fn prune(&mut self) -> Result<usize, LogError>
        ensures pruned { F.IsFaithful → OnOk result ((origin : List ℕ) (served kept : List (List ℕ × List ℕ))
            → HasRegistry F.seen F.may_leave origin served kept self.old
            → HasRegistry F.seen F.may_leave origin served kept self.new) }
        ensures any_moment { F.IsFaithful → (origin : List ℕ) (served kept : List (List ℕ × List ℕ))
            → HasRegistry F.seen F.may_leave origin served kept self.old
            → LeavesOnly F.moment F.left_since self.old.log.folder self.new.log.folder
            (IsOneOf (registry_of origin served) (registry_of origin kept) (registry_of origin kept)) }
        ensures all { F.IsFaithful → OnOk result ((origin : List ℕ) (served kept : List (List ℕ × List ℕ))
            → HasRegistry F.seen F.may_leave origin served kept self.old → (n : List ℕ) → is_page n ≡ true
            → IsSome (F.seen self.new.log.folder n) → IsPageOf served n ⊎ IsPageOf kept n) }
        ensures spare { F.IsFaithful → OnOk result ((origin : List ℕ) (served kept : List (List ℕ × List ℕ))
            → HasRegistry F.seen F.may_leave origin served kept self.old → (n : List ℕ)
            → IsSpare (length kept) (length served) (F.seen self.old.log.folder) n
            → F.seen self.new.log.folder n ≡ None) }
        ensures gone { F.IsFaithful → IfOk result (λ n. (origin : List ℕ) (served kept : List (List ℕ × List ℕ))
            → HasRegistry F.seen F.may_leave origin served kept self.old
            → AreGone n (F.seen self.old.log.folder) (F.seen self.new.log.folder)) }
        ensures whole { F.IsFaithful → (origin : List ℕ) (served kept : List (List ℕ × List ℕ))
            → HasRegistry F.seen F.may_leave origin served kept self.old → IfErr result (IsNoLogFault ⊥) }
        ensures cause { HasLogCause F.IsFaithful (F.faults self.old.log.folder) (F.faults self.new.log.folder) result }
    {
        let spare = self.pages.spare(&self.map.root, self.map.version)?;
        let log = &mut self.pages.log;
        let pruned = log.prune()?;
        log.remove_pages(spare.as_slice())?;
        Ok(pruned.saturating_add(spare.len()))
    }

    /// The checkpoint of the registry's log: what the last commit has kept.
    pub fn checkpoint(&self) -> Checkpoint<Sha256>
        ensures length { result.length ≡ self.now.log.text.length }
        ensures root { result.root ≡ self.now.log.text.root }
    {
        self.pages.log.checkpoint()
    }

    /// The root of the map; after a `publish` that has closed the registry, that of the map with its insertions.
    pub fn root(&self) -> &Hash<Sha256>
        ensures { result.now ≡ self.now.root }
    {
        &self.map.root
    }

    /// The folder, as it is.
    pub fn into_folder(self) -> F
        ensures { result ≡ self.log.folder }
    {
        let RegistryFolder { pages, .. } = self;
        let KeptPages { log, .. } = pages;
        log.into_folder()
    }
}

// The map's root that a text says.
pub(crate) fn root_said(
    alloc: Global,
    text: &CheckpointText<Sha256>,
) -> Result<Hash<Sha256>, RegistryError>
    ensures ok { IfOk result (λ root. IsDigest root × (text.now.extensions ≡ line_of root ∷ [])) }
    ensures err { (root : List ℕ) → IsDigest root → text.now.extensions ≡ line_of root ∷ []
        → IfErr result IsNoFault }
    ensures other { IfErr result (λ error. error ≢ RegistryError.Log (LogError.Folder FolderError.Failed)) }
{
    match map_root(text) {
        Ok(Some(root)) => {
            let _ = root.bytes();
            Ok(root)
        }
        Ok(None) => Err(RegistryError::NoMap),
        Err(_) => {
            let fault = "has further lines that aren't one line of a map's root";
            Err(RegistryError::Log(damaged(alloc, "checkpoint", fault)))
        }
    }
}

// The further lines of a registry's checkpoint.
fn lines_of(alloc: Global, root: &Hash<Sha256>) -> Result<Vec<Vec<u8>>, AllocError>
    ensures lines { IfOk result (λ lines. map (λ l. l.items) lines.items ≡ line_of root.now ∷ []) }
    ensures each { IfOk result (λ lines. AllByRecursion IsLine (map (λ l. l.items) lines.items)) }
{
    let mut lines = Vec::new(alloc);
    lines.push(map_line(alloc, root)?)?;
    Ok(lines)
}

// Which page of those on the ways of these keys is of another digest.
fn find_fault<F: Folder + Drop>(
    alloc: Global,
    pages: &mut KeptPages<F>,
    map: &PagedMap<Sha256>,
    insertions: &[(&[u8], &[u8])],
) -> LogError
    ensures read { F.IsFaithful → ReadsOn F.seen F.may_leave F.moment F.left_since pages.old.log pages.new.log }
    ensures later { F.faults pages.old.log.folder ≤ F.faults pages.new.log.folder }
    ensures cause { F.IsFaithful → result ≡ LogError.Folder FolderError.Failed
        → F.faults pages.old.log.folder < F.faults pages.new.log.folder }
{
    pages.last.forget();
    'keys: for insertion in insertions {
        if let Err(error) = prove_by_pages(alloc, pages, &map.root, map.version, &insertion.0) {
            return pages.last.refusal(error);
        }
    }
    damaged(
        alloc,
        "map",
        "hasn't the pages that the checkpoint's root leads to",
    )
}

// The entries of insertions.
fn entries_in(alloc: Global, insertions: &[(&[u8], &[u8])]) -> Result<Vec<Vec<u8>>, PublishError>
    ensures made { IfOk result (λ entries. map (λ e. e.items) entries.items
        ≡ entries_of (pair_bytes (λ k. k.now) (λ v. v.now) insertions.now)) }
    ensures refused { IfErr result (IsRefusedFor
        (¬ (AreShort (entries_of (pair_bytes (λ k. k.now) (λ v. v.now) insertions.now)))) ⊥) }
    ensures other { IfErr result (λ error. error ≢ PublishError.Log (LogError.Folder FolderError.Failed)) }
{
    let mut entries = Vec::new(alloc);
    'insertions: for insertion in insertions {
        entries.push(entry_in(alloc, insertion)?)?;
    }
    Ok(entries)
}

fn entry_in(alloc: Global, insertion: &(&[u8], &[u8])) -> Result<Vec<u8>, PublishError>
    ensures made { IfOk result (λ entry. entry.items ≡ entry_of (insertion.now.0.now, insertion.now.1.now)) }
    ensures refused { IfErr result (IsRefusedFor
        (65535 < length (entry_of (insertion.now.0.now, insertion.now.1.now))) ⊥) }
    ensures other { IfErr result (λ error. error ≢ PublishError.Log (LogError.Folder FolderError.Failed)) }
{
    match write_insertion(alloc, insertion.0, insertion.1) {
        Ok(entry) => Ok(entry),
        Err(EntryError::TooLong) => Err(PublishError::TooLong),
        Err(EntryError::Memory) => Err(PublishError::from(AllocError)),
    }
}

// Adds entries and pages to a log, and commits them with a map's root.
fn grow<F: Folder + Drop>(
    alloc: Global,
    log: &mut LogFolder<F>,
    root: &Hash<Sha256>,
    entries: &[Vec<u8>],
    changed: &[ChangedPage<Sha256>],
) -> Result<(), PublishError>
    requires { F.IsFaithful → IsReady F.seen F.may_leave log.old }
    ensures grown { F.IsFaithful → OnOk result ((served old next : LogOf)
        → Has F.seen F.may_leave served old old log.old
        → IsNextLog old next (map (λ e. e.items) entries.now) (files_of changed.now) root.now
        → AreFresh served old (with_entries old (map (λ e. e.items) entries.now)) (files_of changed.now)
        → HasNext F.seen F.may_leave served next log.new) }
    ensures any_moment { F.IsFaithful → (served old next : LogOf) → Has F.seen F.may_leave served old old log.old
        → IsNextLog old next (map (λ e. e.items) entries.now) (files_of changed.now) root.now
        → AreFresh served old (with_entries old (map (λ e. e.items) entries.now)) (files_of changed.now)
        → LeavesOnly F.moment F.left_since log.old.folder log.new.folder
        (IsCommitting served old next (F.seen log.old.folder)) }
    ensures ready { F.IsFaithful → IsReady F.seen F.may_leave log.new }
    ensures refused { F.IsFaithful → (served old next : LogOf) → Has F.seen F.may_leave served old old log.old
        → IsNextLog old next (map (λ e. e.items) entries.now) (files_of changed.now) root.now
        → AreFresh served old (with_entries old (map (λ e. e.items) entries.now)) (files_of changed.now)
        → IfErr result (IsRefusedFor (¬ (AreShort (map (λ e. e.items) entries.now))) (¬ (CanBeKept next))) }
    ensures cause { HasCauseOf (PublishError.Log (LogError.Folder FolderError.Failed)) F.IsFaithful
        (F.faults log.old.folder) (F.faults log.new.folder) result }
{
    push_all(log, entries)?;
    put_all(alloc, log, changed)?;
    let lines = lines_of(alloc, root)?;
    log.commit_with(lines.as_slice())?;
    Ok(())
}

// Adds entries to a log.
fn push_all<F: Folder + Drop>(log: &mut LogFolder<F>, entries: &[Vec<u8>]) -> Result<(), PushError>
    requires { F.IsFaithful → IsReady F.seen F.may_leave log.old }
    ensures pushed { F.IsFaithful → OnOk result ((served old next : LogOf)
        → Has F.seen F.may_leave served old next log.old
        → Has F.seen F.may_leave served old (with_entries next (map (λ e. e.items) entries.now)) log.new) }
    ensures ready { F.IsFaithful → IsReady F.seen F.may_leave log.new }
    ensures any_moment { F.IsFaithful → (served old next : LogOf) → Has F.seen F.may_leave served old next log.old
        → LeavesOnly F.moment F.left_since log.old.folder log.new.folder (IsBeside (F.seen log.old.folder)) }
    ensures refused { F.IsFaithful → (served old next : LogOf) → Has F.seen F.may_leave served old next log.old
        → IfErr result (λ e. IsRefusedFor (¬ (AreShort (map (λ e. e.items) entries.now)))
        (2 ^ 63 < length next.entries + length entries.now) (of_push e)) }
    ensures cause { HasCauseOf (PushError.Folder FolderError.Failed) F.IsFaithful
        (F.faults log.old.folder) (F.faults log.new.folder) result }
{
    'entries: for entry in entries {
        log.push(entry.as_slice())?;
    }
    Ok(())
}

// Puts changed pages beside a log's entries.
fn put_all<F: Folder + Drop>(
    alloc: Global,
    log: &mut LogFolder<F>,
    changed: &[ChangedPage<Sha256>],
) -> Result<(), PushError>
    requires { F.IsFaithful → IsReady F.seen F.may_leave log.old }
    ensures put { F.IsFaithful → OnOk result ((served old next : LogOf)
        → Has F.seen F.may_leave served old next log.old → AreFresh served old next (files_of changed.now)
        → Has F.seen F.may_leave served old (with_pages next (files_of changed.now)) log.new) }
    ensures ready { F.IsFaithful → IsReady F.seen F.may_leave log.new }
    ensures any_moment { F.IsFaithful → (served old next : LogOf) → Has F.seen F.may_leave served old next log.old
        → LeavesOnly F.moment F.left_since log.old.folder log.new.folder (IsBeside (F.seen log.old.folder)) }
    ensures refused { log.old.is_open ≡ true → IfErr result (λ e. IsRefusedFor ⊥ ⊥ (of_push e)) }
    ensures cause { HasCauseOf (PushError.Folder FolderError.Failed) F.IsFaithful
        (F.faults log.old.folder) (F.faults log.new.folder) result }
{
    'pages: for page in changed {
        put_one(alloc, log, page)?;
    }
    Ok(())
}

fn put_one<F: Folder + Drop>(
    alloc: Global,
    log: &mut LogFolder<F>,
    page: &ChangedPage<Sha256>,
) -> Result<(), PushError>
    requires { F.IsFaithful → IsReady F.seen F.may_leave log.old }
    ensures put { F.IsFaithful → OnOk result ((served old next : LogOf)
        → Has F.seen F.may_leave served old next log.old
        → IsFresh served old next (file_of page.now).0
        → Has F.seen F.may_leave served old (with_page next (file_of page.now)) log.new) }
    ensures ready { F.IsFaithful → IsReady F.seen F.may_leave log.new }
    ensures open { log.new.is_open ≡ log.old.is_open }
    ensures refused { log.old.is_open ≡ true → IfErr result (λ e. IsRefusedFor ⊥ ⊥ (of_push e)) }
    ensures any_moment { F.IsFaithful → log.old.is_open ≡ true
        → LeavesOnly F.moment F.left_since log.old.folder log.new.folder (IsBeside (F.seen log.old.folder)) }
    ensures cause { HasCauseOf (PushError.Folder FolderError.Failed) F.IsFaithful
        (F.faults log.old.folder) (F.faults log.new.folder) result }
{
    let path = page_path(alloc, page.prefix.as_slice(), page.version)?;
    let bytes = page.page.write(alloc)?;
    log.put_page(below_map(path.as_str()), bytes.as_slice())
}
