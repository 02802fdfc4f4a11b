//! What the premises of [`given_page`](crate::laws::given_page), [`pages_hold_root`](crate::laws::pages_hold_root) and
//! [`audited_map`](crate::laws::audited_map) are for: the contract of each function is the law, and it has no effect.
//! Without any one of these premises the law is false.

ghost use Rattle.std.specs.Prelude.{◌≡◌, ◌*◌, ◌-◌, ◌<◌, ℕ, List, Bool, ◌⊎◌, length};
ghost use Rattle.warg_crypto.specs.Collisions.{GivesHashes, SomeCollision};
ghost use Rattle.warg_map.specs.Sparse.{root_of_levels, sparse_root, map_of};
ghost use Rattle.warg_pages.specs.Audits.{AreInPages, count_last};
ghost use Rattle.warg_pages.specs.ChangedPages.{ChangedPageAt};
ghost use Rattle.warg_pages.specs.GivenPages.{HaveSameDigests, AreInputsAt};
ghost use Rattle.warg_pages.specs.Pages.{page_digest};
ghost use Rattle.warg_pages.specs.Prefixes.{below};
ghost use Rattle.warg_pages.specs.Slots.{SlotAt, IsPage, page_of};
ghost use Rattle.warg_pages.specs.Visits.{AreAllPages, IsAnyPage, held_by, lone_keys, lone_slots};

/// A page of the digest of the tree below its prefix may have other digests than the map's page, without a collision, where
/// digests have any length.
pub fn page_hashes_are_needed()
    ensures { ¬ ((H : List ℕ → List ℕ) (insertions : List (List ℕ × List ℕ)) (prefix : List Bool)
        (depth : ℕ) (slots : List SlotAt) → depth < 32 → length prefix ≡ 8 * depth → IsPage slots
        → page_digest H depth slots ≡ root_of_levels H (256 - 8 * depth) (below (map_of H insertions) prefix)
        → HaveSameDigests H depth slots (page_of H insertions prefix)
        ⊎ SomeCollision H (AreInputsAt H depth slots (page_of H insertions prefix))) }
{}

/// And where those of its slots have.
pub fn page_slots_are_needed()
    ensures { (H : List ℕ → List ℕ) → GivesHashes H → ¬ ((insertions : List (List ℕ × List ℕ))
        (prefix : List Bool) (depth : ℕ) (slots : List SlotAt) → depth < 32 → length prefix ≡ 8 * depth
        → page_digest H depth slots ≡ root_of_levels H (256 - 8 * depth) (below (map_of H insertions) prefix)
        → HaveSameDigests H depth slots (page_of H insertions prefix)
        ⊎ SomeCollision H (AreInputsAt H depth slots (page_of H insertions prefix))) }
{}

/// And where it stands below a whole key digest.
pub fn page_depth_is_needed()
    ensures { ¬ ((H : List ℕ → List ℕ) (insertions : List (List ℕ × List ℕ)) (prefix : List Bool)
        (depth : ℕ) (slots : List SlotAt) → GivesHashes H → length prefix ≡ 8 * depth → IsPage slots
        → page_digest H depth slots ≡ root_of_levels H (256 - 8 * depth) (below (map_of H insertions) prefix)
        → HaveSameDigests H depth slots (page_of H insertions prefix)
        ⊎ SomeCollision H (AreInputsAt H depth slots (page_of H insertions prefix))) }
{}

/// And where its prefix hasn't eight bits for each byte of the depth.
pub fn page_prefix_is_needed()
    ensures { ¬ ((H : List ℕ → List ℕ) (insertions : List (List ℕ × List ℕ)) (prefix : List Bool)
        (depth : ℕ) (slots : List SlotAt) → GivesHashes H → depth < 32 → IsPage slots
        → page_digest H depth slots ≡ root_of_levels H (256 - 8 * depth) (below (map_of H insertions) prefix)
        → HaveSameDigests H depth slots (page_of H insertions prefix)
        ⊎ SomeCollision H (AreInputsAt H depth slots (page_of H insertions prefix))) }
{}

/// And where it has another digest.
pub fn page_digest_is_needed()
    ensures { ¬ ((H : List ℕ → List ℕ) (insertions : List (List ℕ × List ℕ)) (prefix : List Bool)
        (depth : ℕ) (slots : List SlotAt) → GivesHashes H → depth < 32 → length prefix ≡ 8 * depth → IsPage slots
        → HaveSameDigests H depth slots (page_of H insertions prefix)
        ⊎ SomeCollision H (AreInputsAt H depth slots (page_of H insertions prefix))) }
{}

/// Pages need not hold the map of a root that doesn't lead to them.
pub fn visited_pages_are_needed()
    ensures { (H : List ℕ → List ℕ) → ¬ ((root : List ℕ) (version : ℕ) (all : List ChangedPageAt)
        → root ≡ root_of_levels H 256 (held_by (lone_keys all))) }
{}

/// A root need not be that of insertions in pages, if it doesn't lead to these.
pub fn audited_pages_are_needed()
    ensures { (H : List ℕ → List ℕ) → ¬ ((root : List ℕ) (version : ℕ) (insertions : List (List ℕ × List ℕ))
        (all : List ChangedPageAt) (versions : List ℕ) → AreInPages H all 0 insertions versions
        → count_last 0 versions ≡ length (lone_slots all) → root ≡ sparse_root H 256 (map_of H insertions)) }
{}

/// And if one of the insertions isn't in the pages.
pub fn audited_insertions_are_needed()
    ensures { ¬ ((H : List ℕ → List ℕ) (root : List ℕ) (version : ℕ) (insertions : List (List ℕ × List ℕ))
        (all : List ChangedPageAt) (versions : List ℕ) → AreAllPages H IsAnyPage root version all
        → count_last 0 versions ≡ length (lone_slots all) → root ≡ sparse_root H 256 (map_of H insertions)) }
{}

/// And if the pages have another lone key.
pub fn audited_count_is_needed()
    ensures { ¬ ((H : List ℕ → List ℕ) (root : List ℕ) (version : ℕ) (insertions : List (List ℕ × List ℕ))
        (all : List ChangedPageAt) (versions : List ℕ) → AreAllPages H IsAnyPage root version all
        → AreInPages H all 0 insertions versions → root ≡ sparse_root H 256 (map_of H insertions)) }
{}
