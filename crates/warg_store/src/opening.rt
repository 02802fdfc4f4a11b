//! A log's folder, made and opened.

ghost use Rattle.std.specs.Prelude.{◌≡◌, ◌≢◌, ◌⊎◌, ◌↔◌, ◌<◌, ◌≤◌, ℕ, true, false, List, [], Option, Some, None, Err, length, IfOk, IfErr, OnOk, IsTrue, map, string_bytes};
ghost use Rattle.std.specs.List.{All, AllByRecursion, Any};
ghost use Rattle.warg_tiles.specs.CheckpointText.{Said, CanBeSaid, IsLine, text_before};
ghost use Rattle.warg_folder.specs.Files.{SameBut};
ghost use Rattle.warg_folder.specs.Moments.{Only, Within, Elapses, IsRead, LeavesOnly, HasCause, HasCauseOf, HasLostCause};
ghost use Rattle.warg_store.specs.Growing.{IsReady, Has};
ghost use Rattle.warg_store.specs.Log.{LogOf, CanBeKept, no_entries, no_entries_with, Serves, Keeps, HasLog, IsOneOf, said_of};
ghost use Rattle.warg_folder.specs.Names.{checkpoint, state, mark, is_of_log};
ghost use Rattle.warg_folder.specs.Commits.{is_signed, IsStaging, NothingStaged, committed, opened};
ghost use Rattle.warg_store.specs.Opening.{CanBeServed, AgreesWith, IsAtRest, IsTakenOver, IsOpening, HasNoLogFile, HasLogFile};
ghost use Rattle.warg_store.specs.Rebuilt.{IsStated};
ghost use Rattle.warg_store.specs.Refusals.{IsNoFault, IsNoFailure, HasLogCause};

use crate::edge::read_end;
use crate::error::LogError;
use crate::log_folder::{LogFolder, with_lines};
use std::alloc::{AllocError, Global};
use thiserror::Error;
use warg_crypto::{Sha256, hash_empty};
use warg_folder::{
    CHECKPOINT, Folder, FolderError, LOCK, MARK, MOST_TEXT, STATE, commit, is_log_file, is_signed,
    recover,
};
use warg_log::Checkpoint;
use warg_tiles::{CheckpointText, CheckpointTextError, TileLog};

/// Why a log isn't made.
#[derive(Debug, PartialEq, Eq, Drop, Error)]
pub enum CreateError {
    /// The folder has files of a log.
    #[error("folder has files of a log")]
    Exists,
    /// The origin is empty, has a newline or more than 65,535 bytes, or the checkpoint's text would have more than 2^20 bytes.
    #[error("origin isn't one line of text, or is too long")]
    Origin,
    /// A call on the folder was refused.
    #[error("{0}")]
    Folder(FolderError),
}

impl From<FolderError> for CreateError {
    ghost use Rattle.warg_store.specs.declared.opening.CreateError.TheVariants.{Folder};

    ghost from_gives = { λ cause error. error ≡ Folder cause };

    fn from(cause: FolderError) -> Self {
        CreateError::Folder(cause)
    }
}

impl From<AllocError> for CreateError {
    ghost use Rattle.warg_folder.specs.declared.device.FolderError.TheVariants.{Memory};
    ghost use Rattle.warg_store.specs.declared.opening.CreateError.TheVariants.{Folder};

    ghost from_gives = { λ _ error. error ≡ Folder Memory };

    fn from(_error: AllocError) -> Self {
        CreateError::Folder(FolderError::Memory)
    }
}

impl<F: Folder + Drop> LogFolder<F> {
    /// Makes a log of no entries in a folder. `Origin` where the origin is empty, has a newline or more than 65,535 bytes;
    /// `Exists` where `checkpoint` or a file below `.log/` (but for the lock), `tile/` or `map/` is there; other files don't
    /// matter. Both come before anything is written. Else it fails only if memory is refused or the device fails.
    pub fn create(alloc: Global, folder: F, origin: &[u8]) -> Result<LogFolder<F>, CreateError>
        ensures ready { F.IsFaithful → IfOk result (IsReady F.seen F.may_leave) }
        ensures empty { IfOk result (λ log. (log.edge.len ≡ 0) × (log.text.origin ≡ origin.now)) }
        ensures has { F.IsFaithful → IfOk result (λ log. let none = no_entries origin.now in
            Has F.seen F.may_leave none none none log) }
        ensures origin { result ≡ Err CreateError.Origin → (65535 < length origin.now)
            ⊎ (CanBeKept (no_entries origin.now) → ⊥) }
        ensures fresh { F.IsFaithful → OnOk result (HasNoLogFile (F.seen folder)) }
        ensures exists { F.IsFaithful → result ≡ Err CreateError.Exists → HasLogFile (F.seen folder) }
        ensures cause { HasLostCause F.faults (CreateError.Folder FolderError.Failed) F.IsFaithful folder result }
    {
        LogFolder::create_with(alloc, folder, origin, &[])
    }

    /// As [`create`](Self::create), with these as the further lines of the checkpoint's text. `Origin` also where the text would
    /// have more than 2^20 bytes.
    pub fn create_with(
        alloc: Global,
        mut folder: F,
        origin: &[u8],
        lines: &[Vec<u8>],
    ) -> Result<LogFolder<F>, CreateError>
        requires { AllByRecursion IsLine (map (λ l. l.items) lines.now) }
        ensures ready { F.IsFaithful → IfOk result (IsReady F.seen F.may_leave) }
        ensures empty { IfOk result (λ log. (log.edge.len ≡ 0) × (log.text.origin ≡ origin.now)) }
        ensures has { F.IsFaithful → IfOk result (λ log.
            let none = no_entries_with origin.now (map (λ l. l.items) lines.now) in
            Has F.seen F.may_leave none none none log) }
        ensures origin { result ≡ Err CreateError.Origin → (65535 < length origin.now)
            ⊎ (CanBeKept (no_entries_with origin.now (map (λ l. l.items) lines.now)) → ⊥) }
        ensures fresh { F.IsFaithful → OnOk result (HasNoLogFile (F.seen folder)) }
        ensures exists { F.IsFaithful → result ≡ Err CreateError.Exists → HasLogFile (F.seen folder) }
        ensures cause { HasLostCause F.faults (CreateError.Folder FolderError.Failed) F.IsFaithful folder result }
    {
        if origin.len() > 65_535 {
            return Err(CreateError::Origin);
        }
        let text = first_text(alloc, origin, lines)?;
        let bytes = text.write(alloc)?;
        if bytes.len() > MOST_TEXT {
            return Err(CreateError::Origin);
        }
        put_first(alloc, &mut folder, bytes.as_slice())?;
        Ok(LogFolder::with(alloc, folder, text, TileLog::new(alloc), Vec::new(alloc), 0))
    }

    /// Opens a folder's log. A commit that stands is finished, and what else is staged is dropped. Where the folder has a
    /// checkpoint but no state, as a copy may, the checkpoint becomes the state. `NoLog` where neither is there; `RolledBack`
    /// where the checkpoint is older than the state and isn't signed; `Damaged` names a file of the right edge, the state,
    /// the checkpoint or the text of a commit that stands, if it is missing or corrupt or disagrees with another.
    pub fn open(alloc: Global, mut folder: F) -> Result<LogFolder<F>, LogError>
        ensures ready { F.IsFaithful → IfOk result (IsReady F.seen F.may_leave) }
        ensures all { IfOk result (λ log. log.edge.len ≡ log.text.length) }

        // What the folder stands for is the log.
        ensures has { F.IsFaithful → IfOk result (λ log. (served kept : LogOf)
            → HasLog served kept (opened (F.seen folder))
            → Has F.seen F.may_leave served kept kept log) }
        ensures agrees { F.IsFaithful → IfOk result (λ log. (served : Said) (behind : Option (List ℕ)) → CanBeServed served
            → opened (F.seen folder) checkpoint ≡ Some (text_before served behind) → AgreesWith log.text served) }
        ensures opens { F.IsFaithful → (served kept : LogOf) → HasLog served kept (opened (F.seen folder))
            → IfErr result (IsNoFault ⊥) }

        // A crash, or a reader, at any moment finds what it might have found before, or each served file as it was or as
        // the commit that stands puts it, in a folder that stands for the same, with its state put where it had none.
        ensures any_moment { F.IsFaithful → IfOk result (λ log. LeavesOnly F.moment F.left_since folder log.folder
            (λ c. F.may_leave folder c ⊎ IsOpening (F.seen folder) c)) }

        ensures cause { HasLostCause F.faults (LogError.Folder FolderError.Failed) F.IsFaithful folder result }
    {
        if let Err(error) = recover(alloc, &mut folder) {
            return Err(LogError::of_recovery(alloc, &error));
        }
        let text = kept_text(alloc, &mut folder)?;
        let checkpoint = text.checkpoint();
        let (log, bundle) = read_end(alloc, &mut folder, STATE, &checkpoint)?;
        let held = checkpoint.length() % 256;
        Ok(LogFolder::with(alloc, folder, text, log, bundle, held))
    }
}

// What the checkpoint of no entries says, with these further lines.
fn first_text(
    alloc: Global,
    origin: &[u8],
    lines: &[Vec<u8>],
) -> Result<CheckpointText<Sha256>, CreateError>
    ensures said { IfOk result (λ text. text
        ≡ said_of (no_entries_with origin.now (map (λ l. l.items) lines.now))) }
    ensures line { OnOk result (IsLine origin.now) }
    ensures origin { result ≡ Err CreateError.Origin → IsLine origin.now → ⊥ }
    ensures other { result ≢ Err (CreateError.Folder FolderError.Failed) }
    ensures not_there { IfErr result (λ error. error ≢ CreateError.Exists) }
{
    match CheckpointText::new(alloc, origin, Checkpoint::new(hash_empty(), 0)) {
        Ok(text) => match with_lines(text, lines) {
            Ok(longer) => Ok(longer),
            Err(_) => Err(CreateError::Folder(FolderError::Memory)),
        },
        Err(CheckpointTextError::Memory) => Err(CreateError::Folder(FolderError::Memory)),
        Err(_) => Err(CreateError::Origin),
    }
}

// What the log's state says, once the served checkpoint agrees. A folder without a state that serves a checkpoint is taken over:
// its checkpoint becomes the state, once its last tiles lead to its root and its last bundle has their entries.
fn kept_text<F: Folder>(alloc: Global, folder: &mut F) -> Result<CheckpointText<Sha256>, LogError>
    ensures text { F.IsFaithful → IfOk result (λ text. (served log : LogOf)
        → HasLog served log (F.seen folder.old)
        → (text ≡ said_of log) × Keeps served log (F.seen folder.new)) }
    ensures whole { F.IsFaithful → (served log : LogOf) → HasLog served log (F.seen folder.old)
        → IfErr result (IsNoFault ⊥) }
    ensures agrees { F.IsFaithful → IfOk result (λ text. (served : Said) (behind : Option (List ℕ)) → CanBeServed served
        → F.seen folder.old checkpoint ≡ Some (text_before served behind) → AgreesWith text served) }
    ensures beside { F.IsFaithful → OnOk result (SameBut state (F.seen folder.old) (F.seen folder.new)) }
    ensures any_moment { F.IsFaithful → Only (F.seen folder.old) (F.may_leave folder.old)
        → OnOk result (LeavesOnly F.moment F.left_since folder.old folder.new
        (λ c. (c ≡ F.seen folder.old) ⊎ IsTakenOver (F.seen folder.old) c)) }
    ensures ready { F.IsFaithful → IsStaging (F.seen folder.old) (F.may_leave folder.old)
        → OnOk result (IsStaging (F.seen folder.new) (F.may_leave folder.new)) }
    ensures cause { HasLogCause F.IsFaithful (F.faults folder.old) (F.faults folder.new) result }
{
    let Some(state) = read_text(alloc, folder, STATE)? else {
        return take_over(alloc, folder);
    };
    let served = read_served(alloc, folder)?;
    compare(alloc, folder, &state, &served)?;
    Ok(state)
}

fn take_over<F: Folder>(alloc: Global, folder: &mut F) -> Result<CheckpointText<Sha256>, LogError>
    ensures text { F.IsFaithful → IfOk result (λ text. (log : LogOf)
        → Serves log (F.seen folder.old)
        → (text ≡ said_of log) × Keeps log log (F.seen folder.new)) }
    ensures whole { F.IsFaithful → (log : LogOf) → Serves log (F.seen folder.old)
        → IfErr result (IsNoFault ⊥) }
    ensures agrees { F.IsFaithful → IfOk result (λ text. (served : Said) (behind : Option (List ℕ)) → CanBeServed served
        → F.seen folder.old checkpoint ≡ Some (text_before served behind) → AgreesWith text served) }
    ensures beside { F.IsFaithful → OnOk result (SameBut state (F.seen folder.old) (F.seen folder.new)) }
    ensures any_moment { F.IsFaithful → Only (F.seen folder.old) (F.may_leave folder.old)
        → F.seen folder.old state ≡ None → OnOk result (LeavesOnly F.moment F.left_since folder.old folder.new
        (λ c. (c ≡ F.seen folder.old) ⊎ IsTakenOver (F.seen folder.old) c)) }
    ensures ready { F.IsFaithful → IsStaging (F.seen folder.old) (F.may_leave folder.old)
        → OnOk result (IsStaging (F.seen folder.new) (F.may_leave folder.new)) }
    ensures cause { HasLogCause F.IsFaithful (F.faults folder.old) (F.faults folder.new) result }
{
    let Some(served) = read_text(alloc, folder, CHECKPOINT)? else {
        return Err(LogError::NoLog);
    };
    let checkpoint = served.checkpoint();
    read_end(alloc, folder, CHECKPOINT, &checkpoint)?;
    let bytes = served.write(alloc)?;
    folder.replace(STATE, bytes.as_slice())?;
    Ok(served)
}

// Puts the first text into a folder that has no file of a log.
fn put_first<F: Folder>(alloc: Global, folder: &mut F, text: &[u8]) -> Result<(), CreateError>
    requires { length text.now ≤ MOST_TEXT }
    ensures committed { F.IsFaithful → OnOk result (F.seen folder.new ≡ committed text.now (F.seen folder.old)) }
    ensures ready { F.IsFaithful → OnOk result (IsStaging (F.seen folder.new) (F.may_leave folder.new)) }
    ensures empty { F.IsFaithful → OnOk result (NothingStaged (F.seen folder.new)) }
    ensures fresh { F.IsFaithful → OnOk result (HasNoLogFile (F.seen folder.old)) }
    ensures exists { F.IsFaithful → result ≡ Err CreateError.Exists → HasLogFile (F.seen folder.old) }
    ensures cause { HasCauseOf (CreateError.Folder FolderError.Failed) F.IsFaithful
        (F.faults folder.old) (F.faults folder.new) result }
    ensures other { IfErr result (λ error. error ≢ CreateError.Origin) }
{
    check_fresh(alloc, folder)?;
    folder.sync()?;
    Ok(commit(alloc, folder, text)?)
}

// Refuses a folder that has a file of a log.
fn check_fresh<F: Folder>(alloc: Global, folder: &mut F) -> Result<(), CreateError>
    ensures fresh { F.IsFaithful → OnOk result (HasNoLogFile (F.seen folder.old)) }
    ensures exists { F.IsFaithful → result ≡ Err CreateError.Exists → HasLogFile (F.seen folder.old) }
    ensures seen { F.IsFaithful → F.seen folder.new ≡ F.seen folder.old }
    ensures cause { HasCauseOf (CreateError.Folder FolderError.Failed) F.IsFaithful
        (F.faults folder.old) (F.faults folder.new) result }
    ensures other { IfErr result (λ error. error ≢ CreateError.Origin) }
{
    let names = folder.list(alloc, "")?;
    if are_others(names.as_slice()) {
        Ok(())
    } else {
        Err(CreateError::Exists)
    }
}

// Whether none of the files is a log's, but for its lock.
fn are_others(names: &[String]) -> bool
    ensures others { result ≡ true → All (λ name. is_of_log (string_bytes name) ≡ false) names.now }
    ensures found { result ≡ false → Any (λ name. is_of_log (string_bytes name) ≡ true) names.now }
{
    'names: for name in names {
        if is_of_log(name.as_str()) {
            return false;
        }
    }
    true
}

// Whether a file is a log's, and not its lock.
fn is_of_log(name: &str) -> bool
    ensures { result ≡ is_of_log name.now }
{
    is_log_file(name) && name != LOCK
}

/// What the log's state says. `NoLog` where there is none.
#[tactic(auto, using(warg_folder::proofs::ForCallers::read_by))]
pub(crate) fn read_state<F: Folder>(
    alloc: Global,
    folder: &mut F,
) -> Result<CheckpointText<Sha256>, LogError>
    ensures stated { F.IsFaithful → IfOk result (λ said. IsStated said (F.seen folder.old)) }
    ensures whole { F.IsFaithful → (said : Said) (behind : Option (List ℕ)) → CanBeServed said
        → F.seen folder.old state ≡ Some (text_before said behind) → IfErr result (IsNoFault ⊥) }
    ensures read { F.IsFaithful → IsRead F.seen F.may_leave F.moment F.left_since folder.old folder.new }
    ensures cause { HasLogCause F.IsFaithful (F.faults folder.old) (F.faults folder.new) result }
{
    read_text(alloc, folder, STATE)?.ok_or(LogError::NoLog)
}

/// What a checkpoint's file says, if it is there.
#[tactic(auto, using(crate::proofs::ReadyRuns::staging_kept))]
pub(crate) fn read_text<F: Folder>(
    alloc: Global,
    folder: &mut F,
    name: &str,
) -> Result<Option<CheckpointText<Sha256>>, LogError>
    ensures text { F.IsFaithful → IfOk result (λ text. (said : Said) (behind : Option (List ℕ))
        → CanBeServed said → F.seen folder.old name.now ≡ Some (text_before said behind)
        → text ≡ Some said) }
    ensures none { F.IsFaithful → IfOk result (λ text. (text ≡ None) ↔ (F.seen folder.old name.now ≡ None)) }
    ensures whole { F.IsFaithful → (said : Said) (behind : Option (List ℕ)) → CanBeServed said
        → F.seen folder.old name.now ≡ Some (text_before said behind)
        → IfErr result (IsNoFault ⊥) }
    ensures absent { F.IsFaithful → F.seen folder.old name.now ≡ None → IfErr result (IsNoFault ⊥) }
    ensures seen { F.IsFaithful → F.seen folder.new ≡ F.seen folder.old }
    ensures crash { F.IsFaithful → Within (F.may_leave folder.old) (F.may_leave folder.new) }
    ensures time { F.IsFaithful → Elapses F.moment F.left_since F.may_leave folder.old folder.new }
    ensures ready { F.IsFaithful → IsStaging (F.seen folder.old) (F.may_leave folder.old)
        → OnOk result (IsStaging (F.seen folder.new) (F.may_leave folder.new)) }
    ensures cause { HasLogCause F.IsFaithful (F.faults folder.old) (F.faults folder.new) result }
{
    match folder.read(alloc, name, MOST_TEXT)? {
        Some(bytes) => Ok(Some(text_in(alloc, name, bytes.as_slice())?)),
        None => Ok(None),
    }
}

/// What the served checkpoint says, for those who only read. The state is read first: a commit replaces it before the
/// checkpoint, so a newer state means that a commit is under way, that the checkpoint is signed, or that an older one was
/// put back.
pub(crate) fn read_newest<F: Folder>(
    alloc: Global,
    folder: &mut F,
) -> Result<CheckpointText<Sha256>, LogError>
    ensures text { F.IsFaithful → IfOk result (λ text. (log : LogOf) → Serves log (F.seen folder.old)
        → text ≡ said_of log) }
    ensures whole { F.IsFaithful → (served log : LogOf) → HasLog served log (F.seen folder.old)
        → IfErr result (IsNoFault ⊥) }
    ensures meanwhile { F.IsFaithful → (served old next : LogOf) → IsOneOf served old next (F.seen folder.old)
        → IfErr result (IsNoFault ⊥) }
    ensures newest { F.IsFaithful → (kept : Said) → IsAtRest kept (F.seen folder.old)
        → IfOk result (λ text. kept.length ≤ text.length) }
    ensures seen { F.IsFaithful → F.seen folder.new ≡ F.seen folder.old }
    ensures cause { HasLogCause F.IsFaithful (F.faults folder.old) (F.faults folder.new) result }
{
    let state = read_text(alloc, folder, STATE)?;
    let Some(served) = read_text(alloc, folder, CHECKPOINT)? else {
        return match state {
            Some(_) => Err(LogError::damaged(alloc, CHECKPOINT, "is missing")),
            None => Err(LogError::NoLog),
        };
    };
    match state {
        Some(state) => newest_of(alloc, folder, &state, served),
        None => Ok(served),
    }
}

// The served text, unless it is one that was put back.
fn newest_of<F: Folder>(
    alloc: Global,
    folder: &mut F,
    state: &CheckpointText<Sha256>,
    served: CheckpointText<Sha256>,
) -> Result<CheckpointText<Sha256>, LogError>
    ensures text { F.IsFaithful → IfOk result (λ text. (log : LogOf) → Serves log (F.seen folder.old)
        → served ≡ said_of log → text ≡ said_of log) }
    ensures whole { F.IsFaithful → (first log : LogOf)
        → (F.seen folder.old mark ≡ None → Keeps first log (F.seen folder.old))
        → state.now ≡ said_of log → IfErr result (IsNoFault ⊥) }
    ensures newest { F.IsFaithful → F.seen folder.old mark ≡ None → is_signed (F.seen folder.old checkpoint) ≡ false
        → IfOk result (λ text. state.now.length ≤ text.length) }
    ensures seen { F.IsFaithful → F.seen folder.new ≡ F.seen folder.old }
    ensures cause { HasLogCause F.IsFaithful (F.faults folder.old) (F.faults folder.new) result }
{
    let newest = state.checkpoint().length();
    if served.checkpoint().length() >= newest || is_committing(alloc, folder)? {
        return Ok(served);
    }
    read_again(alloc, folder, state)
}

// Whether a commit stands that isn't done yet.
fn is_committing<F: Folder>(alloc: Global, folder: &mut F) -> Result<bool, FolderError>
    ensures stands { F.IsFaithful → IfOk result (λ is. (is ≡ false) ↔ (F.seen folder.old mark ≡ None)) }
    ensures seen { F.IsFaithful → F.seen folder.new ≡ F.seen folder.old }
    ensures cause { HasCause F.IsFaithful (F.faults folder.old) (F.faults folder.new) result }
{
    Ok(folder.read(alloc, MARK, 0)?.is_some())
}

// The served text, which a commit may have put since, once it agrees with the state.
fn read_again<F: Folder>(
    alloc: Global,
    folder: &mut F,
    state: &CheckpointText<Sha256>,
) -> Result<CheckpointText<Sha256>, LogError>
    ensures text { F.IsFaithful → IfOk result (λ text. (log : LogOf) → Serves log (F.seen folder.old)
        → text ≡ said_of log) }
    ensures whole { F.IsFaithful → (first log : LogOf) → Keeps first log (F.seen folder.old)
        → state.now ≡ said_of log → IfErr result (IsNoFault ⊥) }
    ensures newest { F.IsFaithful → is_signed (F.seen folder.old checkpoint) ≡ false
        → IfOk result (λ text. state.now.length ≤ text.length) }
    ensures seen { F.IsFaithful → F.seen folder.new ≡ F.seen folder.old }
    ensures cause { HasLogCause F.IsFaithful (F.faults folder.old) (F.faults folder.new) result }
{
    let served = read_served(alloc, folder)?;
    if served.checkpoint().length() < state.checkpoint().length() {
        compare(alloc, folder, state, &served)?;
    }
    Ok(served)
}

// The text that a file's bytes begin with.
fn text_in(alloc: Global, name: &str, bytes: &[u8]) -> Result<CheckpointText<Sha256>, LogError>
    ensures read { IfOk result (λ text. (said : Said) (behind : Option (List ℕ)) → CanBeSaid said
        → bytes.now ≡ text_before said behind → text ≡ said) }
    ensures whole { (said : Said) (behind : Option (List ℕ)) → CanBeSaid said
        → bytes.now ≡ text_before said behind → IfErr result (IsNoFault ⊥) }
    ensures other { IfErr result IsNoFailure }
{
    match CheckpointText::read(alloc, bytes) {
        Ok((text, _)) => Ok(text),
        Err(error) => Err(refused_text(alloc, name, &error)),
    }
}

// Why a file's bytes aren't read as a text.
fn refused_text(alloc: Global, name: &str, error: &CheckpointTextError) -> LogError
    ensures memory { error.now ≡ CheckpointTextError.Memory → IsNoFault ⊥ result }
    ensures other { IsNoFailure result }
{
    let fault = match error {
        CheckpointTextError::Origin => "has no origin in its first line",
        CheckpointTextError::Length => "has no length in its second line",
        CheckpointTextError::Root => "has no root in its third line",
        CheckpointTextError::Extension => "ends within a line",
        CheckpointTextError::Memory => return LogError::Folder(FolderError::Memory),
    };
    LogError::damaged(alloc, name, fault)
}

/// What the served checkpoint says.
pub(crate) fn read_served<F: Folder>(
    alloc: Global,
    folder: &mut F,
) -> Result<CheckpointText<Sha256>, LogError>
    ensures text { F.IsFaithful → IfOk result (λ text. (log : LogOf) → Serves log (F.seen folder.old)
        → text ≡ said_of log) }
    ensures said { F.IsFaithful → IfOk result (λ text. (said : Said) (behind : Option (List ℕ))
        → CanBeServed said → F.seen folder.old checkpoint ≡ Some (text_before said behind)
        → text ≡ said) }
    ensures whole { F.IsFaithful → (log : LogOf) → Serves log (F.seen folder.old)
        → IfErr result (IsNoFault ⊥) }
    ensures seen { F.IsFaithful → F.seen folder.new ≡ F.seen folder.old }
    ensures crash { F.IsFaithful → Within (F.may_leave folder.old) (F.may_leave folder.new) }
    ensures time { F.IsFaithful → Elapses F.moment F.left_since F.may_leave folder.old folder.new }
    ensures ready { F.IsFaithful → IsStaging (F.seen folder.old) (F.may_leave folder.old)
        → OnOk result (IsStaging (F.seen folder.new) (F.may_leave folder.new)) }
    ensures cause { HasLogCause F.IsFaithful (F.faults folder.old) (F.faults folder.new) result }
{
    match read_text(alloc, folder, CHECKPOINT)? {
        Some(text) => Ok(text),
        None => Err(LogError::damaged(alloc, CHECKPOINT, "is missing")),
    }
}

// Compares the checkpoint that is served with the log's state: its origin, its length and its root.
#[tactic(auto, using(crate::proofs::ReadyRuns::staging_kept))]
fn compare<F: Folder>(
    alloc: Global,
    folder: &mut F,
    state: &CheckpointText<Sha256>,
    served: &CheckpointText<Sha256>,
) -> Result<(), LogError>
    ensures whole { F.IsFaithful → (first log : LogOf) → Keeps first log (F.seen folder.old)
        → state.now ≡ said_of log → served.now ≡ said_of first → IfErr result (IsNoFault ⊥) }
    ensures agrees { OnOk result (AgreesWith state.now served.now) }
    ensures newest { F.IsFaithful → is_signed (F.seen folder.old checkpoint) ≡ false
        → OnOk result (state.now.length ≤ served.now.length) }
    ensures seen { F.IsFaithful → F.seen folder.new ≡ F.seen folder.old }
    ensures any_moment { F.IsFaithful
        → OnOk result (LeavesOnly F.moment F.left_since folder.old folder.new (F.may_leave folder.old)) }
    ensures ready { F.IsFaithful → IsStaging (F.seen folder.old) (F.may_leave folder.old)
        → OnOk result (IsStaging (F.seen folder.new) (F.may_leave folder.new)) }
    ensures cause { HasLogCause F.IsFaithful (F.faults folder.old) (F.faults folder.new) result }
{
    if served.origin() != state.origin() {
        let fault = "has another origin than the log's state";
        return Err(LogError::damaged(alloc, CHECKPOINT, fault));
    }
    let (found, newest) = (served.checkpoint(), state.checkpoint());
    if found.length() < newest.length() && !is_signed(alloc, folder)? {
        return Err(LogError::RolledBack {
            found: found.length(),
            newest: newest.length(),
        });
    }
    if !is_older_or_same(&found, &newest) {
        let fault = "isn't a checkpoint of the log's state";
        return Err(LogError::damaged(alloc, CHECKPOINT, fault));
    }
    Ok(())
}

// Whether a checkpoint has fewer entries than another, or is that one.
fn is_older_or_same(found: &Checkpoint<Sha256>, newest: &Checkpoint<Sha256>) -> bool
    ensures { IsTrue result ↔ ((found.now.length < newest.now.length) ⊎ (found.now ≡ newest.now)) }
{
    found.length() < newest.length() || *found == *newest
}
