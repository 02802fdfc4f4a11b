//! Laws of the pages, over their definitions alone.

ghost use Rattle.std.specs.Prelude.{◌≡◌, ◌+◌, ◌*◌, ◌-◌, ◌^◌, ◌<◌, ◌≤◌, ℕ, List, Bool, not, ◌⊎◌, Option, Some, None, cond, [], ◌∷◌, ◌++◌, length, slice_index, false};
ghost use Rattle.warg_crypto.specs.Digests.{IsDigest};
ghost use Rattle.warg_crypto.specs.Collisions.{GivesHashes, SomeCollision};
ghost use Rattle.warg_pages.specs.GivenPages.{HaveSameDigests, AreInputsAt};
ghost use Rattle.std.specs.List.{All};
ghost use Rattle.warg_pages.specs.PageBytes.{page_bytes};
ghost use Rattle.warg_pages.specs.OwnPages.{AreOwnPages};
ghost use Rattle.warg_pages.specs.ChangedPages.{ChangedPageAt, AreChangedPages};
ghost use Rattle.warg_map.specs.Bits.{key_bits, last_bits};
ghost use Rattle.warg_map.specs.Last.{same_bits};
ghost use Rattle.warg_map.specs.Sparse.{root_of_levels, sparse_root, map_of};
ghost use Rattle.warg_map.specs.ProofValue.{peer_of};
ghost use Rattle.warg_map.specs.Peers.{IsPeer, ProvesEmpty};
ghost use Rattle.std.specs.FinMap.{get};
ghost use Rattle.warg_pages.specs.Prefixes.{below, begins, byte_bits, bits_of_bytes};
ghost use Rattle.warg_pages.specs.Slots.{SlotAt, IsPage, slot_of, page_of};
ghost use Rattle.warg_pages.specs.Pages.{page_digest, slot_height};
ghost use Rattle.warg_pages.specs.PagePeers.{page_peer, optional_peer, prefix_of};
ghost use Rattle.warg_pages.specs.PageInsertions.{with_slot, last_slot};
ghost use Rattle.warg_pages.specs.Visits.{AreAllPages, IsAnyPage, held_by, lone_keys, lone_slots};
ghost use Rattle.warg_pages.specs.Audits.{AreInPages, count_last};

/// The digest of a page is that of the sparse tree below its prefix.
pub fn own_page()
    ensures { (H : List ℕ → List ℕ) (insertions : List (List ℕ × List ℕ)) (prefix : List Bool)
        (depth : ℕ) → depth < 32 → length prefix ≡ 8 * depth
        → page_digest H depth (page_of H insertions prefix)
        ≡ root_of_levels H (256 - 8 * depth) (below (map_of H insertions) prefix) }
{}

/// The digest of the page at the empty prefix is the map's root.
pub fn first_page()
    ensures { (H : List ℕ → List ℕ) (insertions : List (List ℕ × List ℕ))
        → page_digest H 0 (page_of H insertions []) ≡ sparse_root H 256 (map_of H insertions) }
{}

/// On the way of a key, held or not, the eight peers beside its slot in each page are those of the map's proof at these
/// heights.
pub fn own_peers()
    ensures { (H : List ℕ → List ℕ) (insertions : List (List ℕ × List ℕ)) (key : List ℕ)
        (peers : List (Option (List ℕ))) (depth k : ℕ) → IsDigest (H key)
        → ProvesEmpty H (map_of H insertions) (key_bits H key) peers → depth < 32 → k < 8
        → page_peer H depth (page_of H insertions (prefix_of H key depth)) (slice_index (H key) depth) k
        ≡ peer_of H peers (slot_height depth + k) }
{}

/// An insertion puts one slot into each page on its key's way.
pub fn page_on_way()
    ensures { (H : List ℕ → List ℕ) (insertions : List (List ℕ × List ℕ)) (e : List ℕ × List ℕ)
        (depth : ℕ) → IsDigest (H e.0) → depth < 32 →
        let prefix = prefix_of H e.0 depth in let s = slice_index (H e.0) depth in
        page_of H (insertions ++ e ∷ []) prefix
        ≡ with_slot (last_slot H (insertions ++ e ∷ []) (prefix ++ byte_bits s) s e) (page_of H insertions prefix) }
{}

/// An insertion leaves every other page as it is.
pub fn page_off_way()
    ensures { (H : List ℕ → List ℕ) (insertions : List (List ℕ × List ℕ)) (e : List ℕ × List ℕ)
        (prefix : List Bool) → begins prefix (key_bits H e.0) ≡ false
        → page_of H (insertions ++ e ∷ []) prefix ≡ page_of H insertions prefix }
{}

/// The slots of insertions, fewer than 2^64, are those of a page.
pub fn own_slots()
    ensures { (H : List ℕ → List ℕ) (insertions : List (List ℕ × List ℕ)) (prefix : List Bool)
        → GivesHashes H → length insertions < 2 ^ 64 → IsPage (page_of H insertions prefix) }
{}

/// The pages that insertions change, with those before them, are the pages of all the insertions: where the changed pages
/// are put at their names, and what stood at the older names stays.
pub fn pages_after()
    ensures { (H : List ℕ → List ℕ) (bytes_at after : List ℕ → ℕ → Option (List ℕ))
        (old more : List (List ℕ × List ℕ)) (pages : List ChangedPageAt)
        → AreOwnPages H bytes_at old → AreChangedPages H old more pages
        → All (λ c. after c.prefix c.version ≡ Some (page_bytes c.page)) pages
        → ((prefix : List ℕ) (number : ℕ) → number ≤ length old → after prefix number ≡ bytes_at prefix number)
        → AreOwnPages H after (old ++ more) }
{}

/// Two pages of the same bytes are one page.
pub fn one_page()
    ensures { (slots others : List SlotAt) → IsPage slots → IsPage others
        → page_bytes slots ≡ page_bytes others → slots ≡ others }
{}

/// Below a slot with a lone key this key is held, and no other.
pub fn lone_slot()
    ensures { (H : List ℕ → List ℕ) (insertions : List (List ℕ × List ℕ)) (prefix : List Bool) (s : ℕ)
        (x : SlotAt) (key leaf : List ℕ) → slot_of H insertions prefix s ≡ Some x
        → x.lone ≡ Some (key, leaf) → (bits : List Bool)
        → below (map_of H insertions) (prefix ++ byte_bits s) bits
        ≡ cond (same_bits (prefix ++ byte_bits s ++ bits) (last_bits key 256)) (Some leaf) None }
{}

/// Beside each bit of a slot's byte, the page's peer is that of the map, and nothing exactly where the map holds nothing
/// there.
pub fn half_peer()
    ensures { (H : List ℕ → List ℕ) (insertions : List (List ℕ × List ℕ))
        (prefix before after : List Bool) (b : Bool) (depth s : ℕ) → depth < 32
        → length prefix ≡ 8 * depth → s < 256 → byte_bits s ≡ before ++ b ∷ after
        → IsPeer H None (length after + slot_height depth)
        (λ bits. get (map_of H insertions) (prefix ++ (before ++ not b ∷ bits)))
        (optional_peer H depth (page_of H insertions prefix) s (length after)) }
{}

/// The digest of a slot is that of the page at its prefix, be it kept or not.
pub fn page_below()
    ensures { (H : List ℕ → List ℕ) (insertions : List (List ℕ × List ℕ)) (prefix : List Bool)
        (depth s : ℕ) (x : SlotAt) → depth < 31 → length prefix ≡ 8 * depth
        → slot_of H insertions prefix s ≡ Some x
        → x.digest ≡ page_digest H (depth + 1) (page_of H insertions (prefix ++ byte_bits s)) }
{}

/// The digest of a page at a prefix of bytes.
pub fn page_at_bytes()
    ensures { (H : List ℕ → List ℕ) (insertions : List (List ℕ × List ℕ)) (bytes : List ℕ) → length bytes < 32
        → page_digest H (length bytes) (page_of H insertions (bits_of_bytes bytes))
        ≡ root_of_levels H (256 - 8 * length bytes) (below (map_of H insertions) (bits_of_bytes bytes)) }
{}

/// A page that anyone gave, with the digest of the tree below its prefix, has the digests of the map's page at every
/// byte, or else what the digest function takes at one of its branches differs in both pages and has one digest.
pub fn given_page()
    ensures { (H : List ℕ → List ℕ) (insertions : List (List ℕ × List ℕ)) (prefix : List Bool)
        (depth : ℕ) (slots : List SlotAt) → GivesHashes H → depth < 32 → length prefix ≡ 8 * depth → IsPage slots
        → page_digest H depth slots ≡ root_of_levels H (256 - 8 * depth) (below (map_of H insertions) prefix)
        → HaveSameDigests H depth slots (page_of H insertions prefix)
        ⊎ SomeCollision H (AreInputsAt H depth slots (page_of H insertions prefix)) }
{}

/// A root is that of the map in the pages that it leads to: of each lone key the leaf digest under the key digest, and
/// nothing else.
pub fn pages_hold_root()
    ensures { (H : List ℕ → List ℕ) (root : List ℕ) (version : ℕ) (all : List ChangedPageAt)
        → AreAllPages H IsAnyPage root version all
        → root ≡ root_of_levels H 256 (held_by (lone_keys all)) }
{}

/// A root is that of the map of insertions, where each of these is in the pages that the root leads to, and as many of
/// them are the last ones of their keys as the pages have lone keys.
pub fn audited_map()
    ensures { (H : List ℕ → List ℕ) (root : List ℕ) (version : ℕ) (insertions : List (List ℕ × List ℕ))
        (all : List ChangedPageAt) (versions : List ℕ) → AreAllPages H IsAnyPage root version all
        → AreInPages H all 0 insertions versions → count_last 0 versions ≡ length (lone_slots all)
        → root ≡ sparse_root H 256 (map_of H insertions) }
{}
