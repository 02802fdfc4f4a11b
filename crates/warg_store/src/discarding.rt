//! What was pushed and isn't committed, dropped.

ghost use Rattle.std.specs.Prelude.{◌⊎◌, IfOk, IfErr};
ghost use Rattle.warg_store.specs.Growing.{IsReady, Has};
ghost use Rattle.warg_store.specs.Log.{LogOf};
ghost use Rattle.warg_folder.specs.Moments.{LeavesOnly, HasLostCause};
ghost use Rattle.warg_store.specs.Opening.{IsOpening};
ghost use Rattle.warg_store.specs.Refusals.{IsNoFault};

use crate::error::LogError;
use crate::log_folder::LogFolder;
use warg_folder::{Folder, FolderError};

impl<F: Folder + Drop> LogFolder<F> {
    /// Drops what was pushed, and the pages that were put, since the last commit, by opening the folder again: returns the log
    /// that the folder keeps. A log whose commit has failed comes back as [`open`](Self::open) finds it. It fails as `open`
    /// does, and over a folder that keeps a log only if memory is refused or the device fails. Unless a commit has failed,
    /// nothing that is served changes.
    pub fn discard(self) -> Result<LogFolder<F>, LogError>
        ensures discarded { F.IsFaithful → IfOk result (λ log. (served old next : LogOf)
            → Has F.seen F.may_leave served old next self → Has F.seen F.may_leave served old old log) }
        ensures ready { F.IsFaithful → IfOk result (IsReady F.seen F.may_leave) }
        ensures whole { F.IsFaithful → (served old next : LogOf) → Has F.seen F.may_leave served old next self
            → IfErr result (IsNoFault ⊥) }
        ensures any_moment { F.IsFaithful → IfOk result (λ log. LeavesOnly F.moment F.left_since self.folder log.folder
            (λ c. F.may_leave self.folder c ⊎ IsOpening (F.seen self.folder) c)) }
        ensures cause { HasLostCause F.faults (LogError.Folder FolderError.Failed) F.IsFaithful self.folder result }
    {
        LogFolder::open(self.alloc, self.into_folder())
    }
}
