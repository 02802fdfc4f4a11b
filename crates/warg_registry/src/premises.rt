//! What the premises of the laws are for: the contract of each function says that the law of its name is false without
//! any one of them, and it has no effect.

ghost use Rattle.std.specs.Prelude.{◌≡◌, ℕ, ◌+◌, List, All, Option, Some, slice_get};
ghost use Rattle.std.specs.FinMap.{get};
ghost use Rattle.warg_crypto.specs.Framed.{IsPart};
ghost use Rattle.warg_crypto.specs.Digests.{sha256};
ghost use Rattle.warg_crypto.specs.Tree.{leaf_digest};
ghost use Rattle.warg_map.specs.Bits.{key_bits};
ghost use Rattle.warg_map.specs.Sparse.{map_of};
ghost use Rattle.warg_pages.specs.Prefixes.{version};
ghost use Rattle.warg_pages.specs.OwnPages.{AreOwnPages};
ghost use Rattle.warg_tiles.specs.CheckpointText.{text_before};
ghost use Rattle.warg_folder.specs.Files.{Files};
ghost use Rattle.warg_folder.specs.Names.{checkpoint};
ghost use Rattle.warg_registry.specs.Folder.{page_found};
ghost use Rattle.warg_registry.specs.Insertions.{entry_of, entries_of, IsInsertion};
ghost use Rattle.warg_registry.specs.Registry.{said_of};

/// A key, or a value, of 2^64 bytes has the length of none in 8 bytes, and so two insertions may have one entry. Of two
/// entries they are two.
pub fn one_insertion()
    ensures key { ¬ ((a b : List ℕ × List ℕ) → IsPart a.1 → entry_of a ≡ entry_of b → a ≡ b) }
    ensures value { ¬ ((a b : List ℕ × List ℕ) → IsPart a.0 → entry_of a ≡ entry_of b → a ≡ b) }
    ensures entry { ¬ ((a b : List ℕ × List ℕ) → IsInsertion a → a ≡ b) }
{}

/// So it is of two lists.
pub fn one_list()
    ensures lengths { ¬ ((xs ys : List (List ℕ × List ℕ)) → entries_of xs ≡ entries_of ys → xs ≡ ys) }
    ensures entries { ¬ ((xs ys : List (List ℕ × List ℕ)) → All IsInsertion xs → xs ≡ ys) }
{}

/// Of such lists the maps may have other roots, and the registries say other things.
pub fn one_registry()
    ensures lengths { ¬ ((H : List ℕ → List ℕ) (origin : List ℕ) (xs ys : List (List ℕ × List ℕ))
        → entries_of xs ≡ entries_of ys → said_of H origin xs ≡ said_of H origin ys) }
    ensures entries { ¬ ((H : List ℕ → List ℕ) (origin : List ℕ) (xs ys : List (List ℕ × List ℕ))
        → All IsInsertion xs → said_of H origin xs ≡ said_of H origin ys) }
{}

/// At another index there may be no entry, and a leaf digest that isn't held is of no value.
pub fn held_entry()
    ensures index { ¬ ((H : List ℕ → List ℕ) (insertions : List (List ℕ × List ℕ))
        (key leaf : List ℕ) (index : ℕ) → get (map_of H insertions) (key_bits H key) ≡ Some leaf
        → (e : List ℕ × List ℕ) × (slice_get (entries_of insertions) index ≡ Some (entry_of e))
        × (key_bits H e.0 ≡ key_bits H key) × (leaf_digest H e.1 ≡ leaf)) }
    ensures held { ¬ ((H : List ℕ → List ℕ) (insertions : List (List ℕ × List ℕ))
        (key leaf : List ℕ) (index : ℕ) → index + 1 ≡ version H insertions (key_bits H key)
        → (e : List ℕ × List ℕ) × (slice_get (entries_of insertions) index ≡ Some (entry_of e))
        × (key_bits H e.0 ≡ key_bits H key) × (leaf_digest H e.1 ≡ leaf)) }
{}

/// An empty folder serves no registry, and has no checkpoint and no page.
pub fn served_registry()
    ensures checkpoint { ¬ ((origin : List ℕ) (insertions : List (List ℕ × List ℕ)) (files : Files)
        → (behind : Option (List ℕ))
        × (files checkpoint ≡ Some (text_before (said_of sha256 origin insertions) behind))) }
    ensures pages { ¬ ((insertions : List (List ℕ × List ℕ)) (files : Files)
        → AreOwnPages sha256 (page_found files) insertions) }
{}
