//! Laws of insertions, over their definitions alone.

ghost use Rattle.std.specs.Prelude.{◌≡◌, ℕ, ◌+◌, List, All, Option, Some, slice_get};
ghost use Rattle.std.specs.FinMap.{get};
ghost use Rattle.warg_crypto.specs.Digests.{sha256};
ghost use Rattle.warg_crypto.specs.Tree.{leaf_digest};
ghost use Rattle.warg_map.specs.Bits.{key_bits};
ghost use Rattle.warg_map.specs.Sparse.{map_of};
ghost use Rattle.warg_pages.specs.Prefixes.{version};
ghost use Rattle.warg_pages.specs.OwnPages.{AreOwnPages};
ghost use Rattle.warg_tiles.specs.CheckpointText.{text_before};
ghost use Rattle.warg_folder.specs.Files.{Files};
ghost use Rattle.warg_store.specs.Log.{Serves};
ghost use Rattle.warg_folder.specs.Names.{checkpoint};
ghost use Rattle.warg_registry.specs.Folder.{registry_of, page_found};
ghost use Rattle.warg_registry.specs.Insertions.{entry_of, entries_of, IsInsertion};
ghost use Rattle.warg_registry.specs.Registry.{said_of};

/// Insertions of one entry are one insertion, if 8 bytes can say the lengths of one of them.
pub fn one_insertion()
    ensures { (a b : List ℕ × List ℕ) → IsInsertion a → entry_of a ≡ entry_of b → a ≡ b }
{}

/// Lists of insertions with the same entries are one list, if 8 bytes can say the lengths of one of them.
pub fn one_list()
    ensures { (xs ys : List (List ℕ × List ℕ)) → All IsInsertion xs → entries_of xs ≡ entries_of ys
        → xs ≡ ys }
{}

/// The entries of its log fix what a registry says, and so the root of its map.
pub fn one_registry()
    ensures { (H : List ℕ → List ℕ) (origin : List ℕ) (xs ys : List (List ℕ × List ℕ))
        → All IsInsertion xs → entries_of xs ≡ entries_of ys → said_of H origin xs ≡ said_of H origin ys }
{}

/// The entry that a held key's index names, as `prove_by_pages` of `warg_pages` gives it over the pages of insertions,
/// is that of an insertion under the key's digest, of a value with the leaf digest that is held. So `inserted_value`
/// finds the value there, unless another key has the same digest.
pub fn held_entry()
    ensures { (H : List ℕ → List ℕ) (insertions : List (List ℕ × List ℕ)) (key leaf : List ℕ)
        (index : ℕ) → index + 1 ≡ version H insertions (key_bits H key)
        → get (map_of H insertions) (key_bits H key) ≡ Some leaf
        → (e : List ℕ × List ℕ) × (slice_get (entries_of insertions) index ≡ Some (entry_of e))
        × (key_bits H e.0 ≡ key_bits H key) × (leaf_digest H e.1 ≡ leaf) }
{}

/// Under a served registry's checkpoint the map's root is the sparse root of exactly the insertions whose entries are the
/// log's, and the folder has the pages of their map.
pub fn served_registry()
    ensures checkpoint { (origin : List ℕ) (insertions : List (List ℕ × List ℕ)) (files : Files)
        → Serves (registry_of origin insertions) files → (behind : Option (List ℕ))
        × (files checkpoint ≡ Some (text_before (said_of sha256 origin insertions) behind)) }
    ensures pages { (origin : List ℕ) (insertions : List (List ℕ × List ℕ)) (files : Files)
        → Serves (registry_of origin insertions) files → AreOwnPages sha256 (page_found files) insertions }
{}
