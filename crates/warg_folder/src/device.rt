//! A folder of files: what a reader finds in it, and what a crash may leave.

ghost use Rattle.std.specs.Prelude.{◌≡◌, ◌≤◌, ◌+◌, List, ℕ, nat_eq, true, take, map, option_map, IfOk, OnOk, IsSome, All, Contains, string_bytes};
ghost use Rattle.std.specs.List.{starts_with};
ghost use Rattle.warg_folder.specs.Files.{Files, put, without, moved, SameBut, Either, AreApart};
ghost use Rattle.warg_folder.specs.Moments.{Only, Within, Follows, Elapses, HasCause};

use std::alloc::{AllocError, AllocFailed, Global};
use thiserror::Error;

/// Why a call on a folder is refused.
#[derive(Debug, PartialEq, Eq, Drop, Error)]
pub enum FolderError {
    /// Memory was refused.
    #[error("out of memory")]
    Memory,
    /// The device failed. What the folder has is then found by opening it again.
    #[error("device failed")]
    Failed,
}

impl From<AllocError> for FolderError {
    ghost use Rattle.warg_folder.specs.declared.device.FolderError.TheVariants.{Memory};

    ghost from_gives = { λ _ error. error ≡ Memory };

    fn from(_error: AllocError) -> Self {
        FolderError::Memory
    }
}

impl<T: Drop> From<AllocFailed<T>> for FolderError {
    ghost use Rattle.warg_folder.specs.declared.device.FolderError.TheVariants.{Memory};

    ghost from_gives = { λ _ error. error ≡ Memory };

    fn from(_error: AllocFailed<T>) -> Self {
        FolderError::Memory
    }
}

/// A folder of files by name, on a device that may crash at any moment. A name is a path below the folder, its parts parted
/// by `/`.
///
/// What stands in it is a function from names to bytes. What a reader finds is among what a crash may leave, so what is
/// said of each crash is said of each reader, too. After an error of a call that writes, open the folder again.
///
/// No code can know what a disk does. So what the clauses say of a call's result they say under a premise, `IsFaithful`, and
/// all that is promised of a folder's files is promised under it.
pub trait Folder {
    /// That the device does what the clauses below say.
    ghost IsFaithful: { Type 0 };

    /// What a reader finds at each name.
    ghost seen: { Self → Files };

    /// What a crash at this moment may leave.
    ghost may_leave: { Self → Files → Type 0 };

    /// The moment, as a number that doesn't fall.
    ghost moment: { Self → ℕ };

    /// What a crash, or a reader, at some moment from that one on might have found, during a call or between two.
    ghost left_since: { Self → ℕ → Files → Type 0 };

    /// How often the device has failed.
    ghost faults: { Self → ℕ };

    /// The bytes of a file, but no more than one above `most`; none where no file has the name.
    fn read(
        &mut self,
        alloc: Global,
        name: &str,
        most: usize,
    ) -> Result<Option<Vec<u8>>, FolderError>
        ensures found { IsFaithful → IfOk result (λ found. option_map (λ v. v.items) found
            ≡ option_map (take (most + 1)) (seen self.old name.now)) }
        ensures seen { IsFaithful → seen self.new ≡ seen self.old }
        ensures crash { IsFaithful → Within (may_leave self.old) (may_leave self.new) }
        ensures time { IsFaithful → Elapses moment left_since may_leave self.old self.new }
        ensures cause { HasCause IsFaithful (faults self.old) (faults self.new) result };

    /// The names that begin with a prefix and have a file, in any order, each once.
    fn list(&mut self, alloc: Global, prefix: &str) -> Result<Vec<String>, FolderError>
        ensures there { IsFaithful → IfOk result (λ names. All (λ name. IsSome (seen self.old (string_bytes name))
            × (starts_with nat_eq (string_bytes name) prefix.now ≡ true)) names.items) }
        ensures all { IsFaithful → IfOk result (λ names. (n : List ℕ) → IsSome (seen self.old n)
            → starts_with nat_eq n prefix.now ≡ true
            → Contains (map (λ name. string_bytes name) names.items) n) }
        ensures once { IsFaithful → IfOk result (λ names. AreApart names.items) }
        ensures seen { IsFaithful → seen self.new ≡ seen self.old }
        ensures crash { IsFaithful → Within (may_leave self.old) (may_leave self.new) }
        ensures time { IsFaithful → Elapses moment left_since may_leave self.old self.new }
        ensures cause { HasCause IsFaithful (faults self.old) (faults self.new) result };

    /// Writes a file. Until a sync, a crash may leave anything at its name; after an error, too, it may have anything.
    fn write(&mut self, name: &str, bytes: &[u8]) -> Result<(), FolderError>
        ensures written { IsFaithful → OnOk result (seen self.new ≡ put (name.now, bytes.now) (seen self.old)) }
        ensures crash { IsFaithful → Follows (SameBut name.now) (may_leave self.old) (may_leave self.new) }
        ensures time { IsFaithful → Elapses moment left_since may_leave self.old self.new }
        ensures cause { HasCause IsFaithful (faults self.old) (faults self.new) result };

    /// Gives a file another name, in the place of the file that has it. Where there is no such file, nothing changes. Until
    /// a sync, a crash may leave all as before.
    fn rename(&mut self, from: &str, to: &str) -> Result<(), FolderError>
        ensures renamed { IsFaithful → OnOk result (seen self.new ≡ moved from.now to.now (seen self.old)) }
        ensures crash { IsFaithful → Follows (Either (moved from.now to.now)) (may_leave self.old) (may_leave self.new) }
        ensures time { IsFaithful → Elapses moment left_since may_leave self.old self.new }
        ensures cause { HasCause IsFaithful (faults self.old) (faults self.new) result };

    /// Removes a file. Where there is no such file, nothing changes. Until a sync, a crash may leave all as before.
    fn remove(&mut self, name: &str) -> Result<(), FolderError>
        ensures removed { IsFaithful → OnOk result (seen self.new ≡ without name.now (seen self.old)) }
        ensures crash { IsFaithful → Follows (Either (without name.now)) (may_leave self.old) (may_leave self.new) }
        ensures time { IsFaithful → Elapses moment left_since may_leave self.old self.new }
        ensures cause { HasCause IsFaithful (faults self.old) (faults self.new) result };

    /// After it, a crash leaves what a reader finds. Where one has failed, each later one has to fail until the folder is
    /// opened again, since a system may have dropped what was written.
    fn sync(&mut self) -> Result<(), FolderError>
        ensures durable { IsFaithful → OnOk result (Only (seen self.old) (may_leave self.new)) }
        ensures seen { IsFaithful → seen self.new ≡ seen self.old }
        ensures crash { IsFaithful → Within (may_leave self.old) (may_leave self.new) }
        ensures time { IsFaithful → Elapses moment left_since may_leave self.old self.new }
        ensures cause { HasCause IsFaithful (faults self.old) (faults self.new) result };

    /// Puts a file at once, in the place of the one that has its name: a crash leaves the old one or the new one, and after
    /// `Ok` the new one.
    fn replace(&mut self, name: &str, bytes: &[u8]) -> Result<(), FolderError>
        ensures replaced { IsFaithful → OnOk result (seen self.new ≡ put (name.now, bytes.now) (seen self.old)) }
        ensures durable { IsFaithful → OnOk result (Follows (λ old new. new ≡ put (name.now, bytes.now) old)
            (may_leave self.old) (may_leave self.new)) }
        ensures crash { IsFaithful → Follows (Either (put (name.now, bytes.now))) (may_leave self.old) (may_leave self.new) }
        ensures time { IsFaithful → Elapses moment left_since may_leave self.old self.new }
        ensures cause { HasCause IsFaithful (faults self.old) (faults self.new) result };

    /// What a reader finds is among what a crash may leave.
    ghost seen_may_stay: { (folder : Self) → may_leave folder (seen folder) };

    /// This moment is one of those since an earlier one.
    ghost counts_now: { (folder : Self) (t : ℕ) (c : Files) → t ≤ moment folder
        → may_leave folder c → left_since folder t c };

    /// Since this moment there is no other.
    ghost only_now: { (folder : Self) (c : Files) → left_since folder (moment folder) c
        → may_leave folder c };
}
