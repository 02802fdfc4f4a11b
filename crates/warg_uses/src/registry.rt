//! A registry: what it keeps and says of a release, and how a client looks a package up.

ghost use Rattle.std.specs.Prelude.{◌≡◌, ℕ, List, [], ◌∷◌, ◌++◌, length, map, Option, Some, MatchOption, IfOk, IfSome, OnErr};
ghost use Rattle.warg_crypto.specs.Digests.{sha256};
ghost use Rattle.warg_crypto.specs.Tree.{leaf_digest};
ghost use Rattle.warg_map.specs.Bits.{key_bits};
ghost use Rattle.warg_map.specs.Last.{last_under};
ghost use Rattle.warg_map.specs.ProofValue.{proof_value};
ghost use Rattle.warg_pages.specs.ProvedKeys.{IsOwnSource};
ghost use Rattle.warg_registry.specs.Insertions.{entry_of, entries_of, IsInsertion};
ghost use Rattle.warg_registry.specs.Registry.{line_of};
ghost use Rattle.warg_registry.specs.Folder.{registry_of, HasRegistry};
ghost use Rattle.warg_store.specs.Log.{HasLog, Serves};
ghost use Rattle.warg_folder.specs.Commits.{opened};

use anyhow::Result;
use std::alloc::Global;
use warg_crypto::{Hash, Sha256};
use warg_pages::{KeyInPages, Pages, ProveError, prove_by_pages};
use warg_registry::{
    KeyInRegistry, RegistryFolder, RegistryReader, inserted_value, map_line, write_insertion,
};
use warg_store::Folder;
use warg_tiles::CheckpointText;

/// The log's entry of a package's newest version, for the registry to push. Adds the line of the map's root to the text of
/// the checkpoint after it; on an error the text is as it was.
pub fn announced(
    alloc: Global,
    text: &mut CheckpointText<Sha256>,
    root: &Hash<Sha256>,
    name: &str,
    version: &str,
) -> Result<Vec<u8>>
    ensures ok { IfOk result (λ entry. (entry.items ≡ entry_of (name.now, version.now))
        × (text.new ≡ record text.old { extensions = text.old.extensions ++ line_of root.now ∷ [] })) }
    ensures err { OnErr result (text.new ≡ text.old) }
{
    let entry = write_insertion(alloc, name.as_bytes(), version.as_bytes())?;
    let line = map_line(alloc, root)?;
    text.push_extension(line.as_slice())?;
    Ok(entry)
}

/// The version that a registry's map has under a package's name, out of the entries of its log, which anyone may have
/// given: its leaf digest leads to the map's root. Over the registry's own pages and entries it is found where the last
/// insertion under the name's digest is of this name.
pub fn newest<'a, P: Pages<Global>>(
    alloc: Global,
    entries: &'a [Vec<u8>],
    pages: &mut P,
    root: &Hash<Sha256>,
    name: &str,
) -> Result<Option<&'a [u8]>, ProveError<P::Error>>
    ensures leads { IfOk result (λ found. IfSome found (λ version. (peers : List (Option (List ℕ)))
        × (proof_value sha256 peers (leaf_digest sha256 version.now) (key_bits sha256 name.now)
        ≡ root.now))) }
    ensures own { IfOk result (λ found. (known : P.Known) (insertions : List (List ℕ × List ℕ)) (version : List ℕ)
        → P.IsKnown pages.old known
        → IsOwnSource sha256 (P.bytes_at known) root.now (length entries.now) insertions
        → map (λ e. e.items) entries.now ≡ entries_of insertions → IsInsertion (name.now, version)
        → last_under sha256 (key_bits sha256 name.now) insertions ≡ Some (name.now, version)
        → MatchOption found ⊥ (λ read. read.now ≡ version)) }
    ensures known { (known : P.Known) → P.IsKnown pages.old known → P.IsKnown pages.new known }
{
    let KeyInPages::Held(index, leaf, _) = prove_by_pages(
        alloc,
        pages,
        root,
        entries.len() as u64,
        &name,
    )?
    else {
        return Ok(None);
    };
    let Some(entry) = entries.get(index as usize) else {
        return Ok(None);
    };
    Ok(inserted_value(entry.as_slice(), name.as_bytes(), &leaf))
}

/// Opens a folder's registry and publishes a package's newest version: the registry that the folder stood for, with one
/// more insertion.
pub fn published<F: Folder + Drop>(
    alloc: Global,
    folder: F,
    name: &str,
    version: &str,
) -> Result<RegistryFolder<F>>
    ensures { F.IsFaithful → IfOk result (λ registry. (origin : List ℕ) (served kept : List (List ℕ × List ℕ))
        → HasLog (registry_of origin served) (registry_of origin kept) (opened (F.seen folder))
        → (now : List (List ℕ × List ℕ)) × HasRegistry F.seen F.may_leave origin now
        (kept ++ (name.now, version.now) ∷ []) registry) }
{
    let mut registry = RegistryFolder::open(alloc, folder)?;
    registry.publish(&[(name.as_bytes(), version.as_bytes())])?;
    Ok(registry)
}

/// The newest version of a package, out of a folder that serves a registry, as a client or a mirror has it.
pub fn current<F: Folder + Drop>(alloc: Global, folder: F, name: &str) -> Result<Option<Vec<u8>>>
    ensures { F.IsFaithful → IfOk result (λ found. (origin : List ℕ) (insertions : List (List ℕ × List ℕ))
        → Serves (registry_of origin insertions) (F.seen folder) → IfSome found (λ version.
        last_under sha256 (key_bits sha256 name.now) insertions ≡ Some (name.now, version.items))) }
{
    let mut registry = RegistryReader::open(alloc, folder)?;
    match registry.get(name.as_bytes())? {
        KeyInRegistry::Held(_, version, _) => Ok(Some(version)),
        KeyInRegistry::Absent(_) => Ok(None),
    }
}
