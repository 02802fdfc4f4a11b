//! A signed checkpoint.

ghost use Rattle.std.specs.Prelude.{◌≡◌, ◌⊎◌, ◌↔◌, ◌<◌, length, Err, IfOk, IfErr, IsTrue, OnOk};
ghost use Rattle.warg_tiles.specs.CheckpointText.{text_of};
ghost use Rattle.warg_folder.specs.Files.{put};
ghost use Rattle.warg_folder.specs.Moments.{IsRead, LeavesOnly, HasCauseOf};
ghost use Rattle.warg_folder.specs.Names.{checkpoint};
ghost use Rattle.warg_store.specs.Log.{LogOf, Serves, IsOneOf, IsNoteOf, said_of};
ghost use Rattle.warg_store.specs.Growing.{IsReady, Has};
ghost use Rattle.warg_store.specs.Refusals.{IsNoFault, HasLogCause};

use crate::error::LogError;
use crate::log_folder::LogFolder;
use crate::opening::read_served;
use std::alloc::AllocError;
use thiserror::Error;
use warg_crypto::Sha256;
use warg_folder::{CHECKPOINT, Folder, FolderError, MOST_TEXT};
use warg_tiles::CheckpointText;

/// Why a signed note isn't served.
#[derive(Debug, PartialEq, Eq, Drop, Error)]
pub enum SignError {
    /// The note's text isn't that of the log's state, or nothing follows its empty line.
    #[error("isn't a signed note over the log's newest checkpoint")]
    Text,
    /// The note has more than 2^20 bytes.
    #[error("note has more than 2^20 bytes")]
    TooLong,
    /// A call on the folder was refused.
    #[error("{0}")]
    Folder(FolderError),
}

impl From<FolderError> for SignError {
    ghost use Rattle.warg_store.specs.declared.signing.SignError.TheVariants.{Folder};

    ghost from_gives = { λ cause error. error ≡ Folder cause };

    fn from(cause: FolderError) -> Self {
        SignError::Folder(cause)
    }
}

impl From<AllocError> for SignError {
    ghost use Rattle.warg_folder.specs.declared.device.FolderError.TheVariants.{Memory};
    ghost use Rattle.warg_store.specs.declared.signing.SignError.TheVariants.{Folder};

    ghost from_gives = { λ _ error. error ≡ Folder Memory };

    fn from(_error: AllocError) -> Self {
        SignError::Folder(FolderError::Memory)
    }
}

impl<F: Folder + Drop> LogFolder<F> {
    /// Serves a signed note as the log's checkpoint; its signatures aren't checked. From then on the folder serves this one
    /// until another is signed, while commits go on. `TooLong` exactly if the note has more than 2^20 bytes, else `Text` where
    /// it isn't the text of the log's state, an empty line and at least one more byte; both before anything is written. Else
    /// it fails only if memory is refused or the device fails: open the folder again then.
    pub fn sign(&mut self, note: &[u8]) -> Result<(), SignError>
        ensures signed { F.IsFaithful → OnOk result ((served old next : LogOf)
            → Has F.seen F.may_leave served old next self.old
            → Has F.seen F.may_leave old old next self.new) }
        ensures ready { F.IsFaithful → IsReady F.seen F.may_leave self.old
            → OnOk result (IsReady F.seen F.may_leave self.new) }
        ensures put { F.IsFaithful → OnOk result (F.seen self.new.folder
            ≡ put (checkpoint, note.now) (F.seen self.old.folder)) }
        ensures note { OnOk result (IsNoteOf (text_of self.old.text) note.now) }
        ensures text { result ≡ Err SignError.Text → IsNoteOf (text_of self.old.text) note.now → ⊥ }
        ensures too_long { (result ≡ Err SignError.TooLong) ↔ (MOST_TEXT < length note.now) }
        ensures refused { (result ≡ Err SignError.Text) ⊎ (result ≡ Err SignError.TooLong)
            → self.new ≡ self.old }
        ensures any_moment { F.IsFaithful → (served old next : LogOf)
            → Has F.seen F.may_leave served old next self.old
            → LeavesOnly F.moment F.left_since self.old.folder self.new.folder (IsOneOf served old old) }
        ensures cause { HasCauseOf (SignError.Folder FolderError.Failed) F.IsFaithful
            (F.faults self.old.folder) (F.faults self.new.folder) result }
    {
        if note.len() > MOST_TEXT {
            return Err(SignError::TooLong);
        }
        let text = self.state_text()?;
        if !is_signed_note(note, text.as_slice()) {
            return Err(SignError::Text);
        }
        Ok(self.folder.replace(CHECKPOINT, note)?)
    }

    /// What the served checkpoint says: where it is a signed one, commits may have kept more since. It changes nothing.
    /// `Damaged` where the checkpoint is missing or corrupt.
    pub fn served(&mut self) -> Result<CheckpointText<Sha256>, LogError>
        ensures said { F.IsFaithful → IfOk result (λ text. (log : LogOf)
            → Serves log (F.seen self.old.folder) → text ≡ said_of log) }
        ensures whole { F.IsFaithful → (log : LogOf) → Serves log (F.seen self.old.folder)
            → IfErr result (IsNoFault ⊥) }
        ensures same { self.new ≡ record self.old { folder = self.new.folder } }
        ensures read { F.IsFaithful
            → IsRead F.seen F.may_leave F.moment F.left_since self.old.folder self.new.folder }
        ensures cause { HasLogCause F.IsFaithful (F.faults self.old.folder) (F.faults self.new.folder) result }
    {
        read_served(self.alloc, &mut self.folder)
    }
}

// Whether a note is this text, an empty line and at least one more byte.
fn is_signed_note(note: &[u8], text: &[u8]) -> bool
    ensures { IsTrue result ↔ IsNoteOf text.now note.now }
{
    let Some(rest) = note.strip_prefix(text) else {
        return false;
    };
    rest.len() > 1 && rest[0] == b'\n'
}
