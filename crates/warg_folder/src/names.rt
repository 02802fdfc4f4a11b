//! The names of a log's files.

ghost use Rattle.std.specs.Prelude.{◌≡◌, ◌≢◌, ℕ, List, ◌++◌, true, codes, IfOk, MatchOption, string_bytes};
ghost use Rattle.warg_folder.specs.Names.{staged, is_page, page_name, is_served, is_own, is_log_file};

use std::alloc::{AllocError, Global};

/// The checkpoint that is served.
pub const CHECKPOINT: &str = "checkpoint";

/// The newest checkpoint's text, the log's own.
pub const STATE: &str = ".log/state";

/// The text of a commit that stands and isn't done yet.
pub const MARK: &str = ".log/staged/state";

/// The file whose lock the one who writes holds.
pub const LOCK: &str = ".log/lock";

/// Where the files of a commit stand before it does.
pub(crate) const STAGED: &str = ".log/staged/";

/// The folder of the log's own files.
pub(crate) const OWN_FOLDER: &str = ".log";

/// The folder of those that are staged.
pub(crate) const STAGED_FOLDER: &str = ".log/staged";

/// The name under which a file is written before it takes another one's place.
pub(crate) const REPLACING: &str = ".log/replacing";

/// The name under which a file is staged. It fails only if allocation fails.
pub(crate) fn staged_name(alloc: Global, name: &str) -> Result<String, AllocError>
    ensures { IfOk result (λ text. string_bytes text ≡ staged name.now) }
{
    let mut text = String::from_str(alloc, STAGED)?;
    text.push_str(name)?;
    Ok(text)
}

/// The name of the page with this path below `map/`. It fails only if allocation fails.
pub fn page_name(alloc: Global, path: &str) -> Result<String, AllocError>
    ensures { IfOk result (λ text. string_bytes text ≡ page_name path.now) }
{
    let mut text = String::from_str(alloc, "map/")?;
    text.push_str(path)?;
    Ok(text)
}

/// Whether the name is one at which a commit puts files.
pub fn is_served(name: &str) -> bool
    ensures { result ≡ is_served name.now }
{
    name.starts_with("tile/") || is_page(name)
}

/// Whether the name is one of a page.
pub fn is_page(name: &str) -> bool
    ensures { result ≡ is_page name.now }
{
    name.starts_with("map/")
}

/// The name at which a commit puts a staged file; none for a file that is no commit's.
pub(crate) fn served_name(staged: &str) -> Option<&str>
    ensures { MatchOption result ((name : List ℕ) → is_served name ≡ true → staged.now ≢ codes ".log/staged/" ++ name)
        (λ name. (is_served name.now ≡ true) × (staged.now ≡ codes ".log/staged/" ++ name.now)) }
{
    let name = staged.strip_prefix(STAGED)?;
    if is_served(name) { Some(name) } else { None }
}

/// Whether the name is one of a log's files.
pub fn is_log_file(name: &str) -> bool
    ensures { result ≡ is_log_file name.now }
{
    is_served(name) || (is_own(name) || name == CHECKPOINT)
}

// Whether the name is the log's own.
fn is_own(name: &str) -> bool
    ensures { result ≡ is_own name.now }
{
    name.starts_with(".log/")
}
