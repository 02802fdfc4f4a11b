//! The pages of a log's folder.

ghost use Rattle.std.specs.Prelude.{◌≡◌, ◌+◌, ℕ, true, List, length, take, map, option_map, None, IfOk, OnOk, IsSome, All, Contains, string_bytes};
ghost use Rattle.warg_folder.specs.Files.{Files, without, AreApart};
ghost use Rattle.warg_store.specs.Growing.{Has};
ghost use Rattle.warg_store.specs.Log.{LogOf, IsOneOf};
ghost use Rattle.warg_folder.specs.Moments.{Only, Follows, Elapses, IsRead, LeavesOnly, HasCause};
ghost use Rattle.warg_folder.specs.Names.{is_page, page_name};
ghost use Rattle.warg_store.specs.Private.Steps.{IsPageGone};
ghost use Rattle.warg_store.specs.Pruned.{AreGone, ArePagesIn, ArePagesNotOf, IsWithoutPages};

use crate::log_folder::LogFolder;
use std::alloc::Global;
use warg_folder::{Folder, FolderError, is_page, page_name};

impl<F: Folder + Drop> LogFolder<F> {
    /// The bytes of the page at this path below `map/` as a reader finds it, but at most `most` + 1 of them; `None` where there
    /// is no page. It changes nothing, and may be called after a commit has failed, too. It fails only if memory is refused or
    /// the device fails.
    pub fn page(&mut self, path: &str, most: usize) -> Result<Option<Vec<u8>>, FolderError>
        ensures found { F.IsFaithful → IfOk result (λ found. option_map (λ v. v.items) found
            ≡ option_map (take (most + 1)) (F.seen self.old.folder (page_name path.now))) }
        ensures same { self.new ≡ record self.old { folder = self.new.folder } }
        ensures read { F.IsFaithful
            → IsRead F.seen F.may_leave F.moment F.left_since self.old.folder self.new.folder }
        ensures cause { HasCause F.IsFaithful (F.faults self.old.folder) (F.faults self.new.folder) result }
    {
        read_page(self.alloc, &mut self.folder, path, most)
    }

    /// The names of the files below `map/`, each once and in any order, with that prefix, as `remove_pages` takes them. It
    /// changes nothing, and fails only if memory is refused or the device fails.
    pub fn pages(&mut self) -> Result<Vec<String>, FolderError>
        ensures there { F.IsFaithful → IfOk result (λ names. ArePagesIn (F.seen self.old.folder) names.items) }
        ensures all { F.IsFaithful → IfOk result (λ names. (n : List ℕ) → IsSome (F.seen self.old.folder n)
            → is_page n ≡ true → Contains (map (λ name. string_bytes name) names.items) n) }
        ensures once { F.IsFaithful → IfOk result (λ names. AreApart names.items) }
        ensures same { self.new ≡ record self.old { folder = self.new.folder } }
        ensures read { F.IsFaithful
            → IsRead F.seen F.may_leave F.moment F.left_since self.old.folder self.new.folder }
        ensures cause { HasCause F.IsFaithful (F.faults self.old.folder) (F.faults self.new.folder) result }
    {
        self.folder.list(self.alloc, "map/")
    }

    /// Removes the files of these names that are below `map/`, and no other; a name without a file changes nothing. Where none
    /// of the names is a page's that is served, kept or to be kept, the log has all that it had. It fails only if the device
    /// fails or memory is refused: open the folder again then.
    pub fn remove_pages(&mut self, names: &[String]) -> Result<(), FolderError>
        ensures removed { F.IsFaithful → OnOk result (All (λ name. is_page (string_bytes name) ≡ true
            → F.seen self.new.folder (string_bytes name) ≡ None) names.now) }
        ensures only { F.IsFaithful → OnOk result (IsWithoutPages (map (λ name. string_bytes name) names.now)
            (F.seen self.old.folder) (F.seen self.new.folder)) }
        ensures pruned { F.IsFaithful → OnOk result ((served old next : LogOf)
            → Has F.seen F.may_leave served old next self.old
            → ArePagesNotOf (map (λ name. string_bytes name) names.now) served old next
            → Has F.seen F.may_leave served old next self.new) }
        ensures any_moment { F.IsFaithful → (served old next : LogOf)
            → Has F.seen F.may_leave served old next self.old
            → ArePagesNotOf (map (λ name. string_bytes name) names.now) served old next
            → LeavesOnly F.moment F.left_since self.old.folder self.new.folder (IsOneOf served old old) }
        ensures gone { F.IsFaithful → AreApart names.now → ArePagesIn (F.seen self.old.folder) names.now
            → OnOk result (AreGone (length names.now) (F.seen self.old.folder) (F.seen self.new.folder)) }
        ensures same { self.new ≡ record self.old { folder = self.new.folder } }
        ensures cause { HasCause F.IsFaithful (F.faults self.old.folder) (F.faults self.new.folder) result }
    {
        remove_all(&mut self.folder, names)
    }
}

// Removes those of the named files that are pages: after `Ok` no crash leaves one of them.
fn remove_all<F: Folder>(folder: &mut F, names: &[String]) -> Result<(), FolderError>
    ensures removed { F.IsFaithful → OnOk result (All (λ name. is_page (string_bytes name) ≡ true
        → F.seen folder.new (string_bytes name) ≡ None) names.now) }
    ensures only { F.IsFaithful → OnOk result (IsWithoutPages (map (λ name. string_bytes name) names.now)
        (F.seen folder.old) (F.seen folder.new)) }
    ensures gone { F.IsFaithful → AreApart names.now → ArePagesIn (F.seen folder.old) names.now
        → OnOk result (AreGone (length names.now) (F.seen folder.old) (F.seen folder.new)) }
    ensures durable { F.IsFaithful → OnOk result (Only (F.seen folder.new) (F.may_leave folder.new)) }
    ensures any_moment { F.IsFaithful → LeavesOnly F.moment F.left_since folder.old folder.new (λ c. (d : Files)
        × F.may_leave folder.old d × IsWithoutPages (map (λ name. string_bytes name) names.now) d c) }
    ensures cause { HasCause F.IsFaithful (F.faults folder.old) (F.faults folder.new) result }
{
    remove_each(folder, names)?;
    folder.sync()
}

// Removes those of the named files that are pages.
fn remove_each<F: Folder>(folder: &mut F, names: &[String]) -> Result<(), FolderError>
    ensures removed { F.IsFaithful → OnOk result (All (λ name. is_page (string_bytes name) ≡ true
        → F.seen folder.new (string_bytes name) ≡ None) names.now) }
    ensures only { F.IsFaithful → OnOk result (IsWithoutPages (map (λ name. string_bytes name) names.now)
        (F.seen folder.old) (F.seen folder.new)) }
    ensures gone { F.IsFaithful → AreApart names.now → ArePagesIn (F.seen folder.old) names.now
        → OnOk result (AreGone (length names.now) (F.seen folder.old) (F.seen folder.new)) }
    ensures crash { F.IsFaithful → Follows (IsWithoutPages (map (λ name. string_bytes name) names.now))
        (F.may_leave folder.old) (F.may_leave folder.new) }
    ensures any_moment { F.IsFaithful → LeavesOnly F.moment F.left_since folder.old folder.new (λ c. (d : Files)
        × F.may_leave folder.old d × IsWithoutPages (map (λ name. string_bytes name) names.now) d c) }
    ensures cause { HasCause F.IsFaithful (F.faults folder.old) (F.faults folder.new) result }
{
    'names: for name in names {
        remove_one(folder, name.as_str())?;
    }
    Ok(())
}

// Removes a file that is a page.
fn remove_one<F: Folder>(folder: &mut F, name: &str) -> Result<(), FolderError>
    ensures removed { F.IsFaithful → OnOk result (is_page name.now ≡ true → F.seen folder.new name.now ≡ None) }
    ensures only { F.IsFaithful → OnOk result (IsPageGone name.now (F.seen folder.old) (F.seen folder.new)) }
    ensures gone { F.IsFaithful → is_page name.now ≡ true
        → OnOk result (F.seen folder.new ≡ without name.now (F.seen folder.old)) }
    ensures crash { F.IsFaithful → Follows (IsPageGone name.now) (F.may_leave folder.old) (F.may_leave folder.new) }
    ensures time { F.IsFaithful → Elapses F.moment F.left_since F.may_leave folder.old folder.new }
    ensures cause { HasCause F.IsFaithful (F.faults folder.old) (F.faults folder.new) result }
{
    if !is_page(name) {
        return Ok(());
    }
    folder.remove(name)
}

/// The bytes of the page at a path below `map/`, but no more than one above `most`.
pub(crate) fn read_page<F: Folder>(
    alloc: Global,
    folder: &mut F,
    path: &str,
    most: usize,
) -> Result<Option<Vec<u8>>, FolderError>
    ensures found { F.IsFaithful → IfOk result (λ found. option_map (λ v. v.items) found
        ≡ option_map (take (most + 1)) (F.seen folder.old (page_name path.now))) }
    ensures read { F.IsFaithful → IsRead F.seen F.may_leave F.moment F.left_since folder.old folder.new }
    ensures cause { HasCause F.IsFaithful (F.faults folder.old) (F.faults folder.new) result }
{
    let name = page_name(alloc, path)?;
    folder.read(alloc, name.as_str(), most)
}
