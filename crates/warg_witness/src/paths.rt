//! Witnesses for paths.

ghost use Rattle.std.specs.Prelude.{◌≡◌, ◌<◌, ◌≤◌, length, map, None, Some, Ok, IfOk};
ghost use Rattle.warg_crypto.specs.Tree.{leaf_digest};
ghost use Rattle.warg_log.specs.Cut.{old_over};
ghost use Rattle.warg_log.specs.Tree.{own_digest};
ghost use Rattle.warg_paths.specs.Paths.{inclusion_of, inclusion_root};
ghost use Rattle.warg_witness.specs.Findings.{Finds};
ghost use Rattle.warg_witness.specs.PathClaims.{IsRecord, IsRecordMet};
ghost use Rattle.warg_witness.specs.PathPlaced.{IsRecordPlaced};

mod agreement;
mod climbing;
mod growth;
mod tree;

use crate::collision::Finding;
use crate::plain::{entry_at, plain_tree};
pub use agreement::agree_record;
use std::alloc::{AllocError, Allocator};
pub(crate) use tree::find_difference;
pub use tree::witness_tree;
use warg_crypto::{Hash, SupportedDigest, VisitBytes, hash_leaf};
use warg_log::{GREATEST_LENGTH, VecLog};
use warg_paths::{inclusion_path, root_of_inclusion};

// The most leaves that a tree has.
const MOST_LEAVES: usize = GREATEST_LENGTH;

/// Whether a path's claim about a record is true of the entries: the entry at `index`, from 0, has the value's
/// bytes.
///
/// `NotMet` exactly if the path doesn't lead from the value's leaf digest to the root of the tree over the
/// entries; where it leads to no root, as where it has another length than that of this place or `index` is no
/// place of the entries, before allocating. `Holds` exactly if it leads there, and the claim is true. Else a
/// collision: what the digest function takes in the evaluation of the path (first; RFC 6962, section 2.1.1) and in
/// the tree over the entries (second) at one range on the way to the leaf.
///
/// It hashes each leaf and branch of the tree over the entries once, and besides the value twice, the entry once more, and
/// at most as many branches as three times the path's length. It fails only if allocation fails. A value or an entry of
/// more than `usize::MAX` bytes counts as that, and so do more than 2^63 entries.
#[tactic(auto, using(warg_paths::proofs::ForCallers::leads_inside, crate::proofs::HashLemmas::entries_count, crate::proofs::CutLemmas::leaves_count))]
pub fn witness_record<D: SupportedDigest, V: VisitBytes, A: Allocator + Copy>(
    alloc: A,
    index: usize,
    path: &[Hash<D>],
    value: &V,
    entries: &[V],
) -> Result<Finding<D, A>, AllocError>
    ensures leads { inclusion_root D.digest index (length entries.now)
        (leaf_digest D.digest (V.bytes value.now)) path.now ≡ None
        → result ≡ Ok Finding.NotMet }
    ensures found { IfOk result (Finds
        (IsRecordMet D.digest index path.now (V.bytes value.now) (map V.bytes entries.now))
        (IsRecord index (V.bytes value.now) (map V.bytes entries.now))
        (IsRecordPlaced D.digest index path.now (V.bytes value.now)
        (map V.bytes entries.now))) }
{
    let leaf = hash_leaf::<D, V>(value);
    if root_of_inclusion(index, entries.len(), &leaf, path).is_none() {
        return Ok(Finding::NotMet);
    }
    if entries.len() > MOST_LEAVES {
        return Err(AllocError);
    }
    let tree = plain_tree(alloc, entries)?;
    let own = own_path(alloc, index, &tree)?;
    let entry = entry_at(entries, index);
    agree_record(alloc, index, entries.len(), value, path, entry, &own)
}

// The tree's own path of a place.
fn own_path<D: SupportedDigest, V: VisitBytes, A: Allocator>(
    alloc: A,
    index: usize,
    tree: &VecLog<D, V, A>,
) -> Result<Vec<Hash<D>, A>, AllocError>
    requires inside { index < length tree.now }
    requires fits { length tree.now ≤ GREATEST_LENGTH }
    ensures { IfOk result (λ path. inclusion_of (old_over D.digest (own_digest D.digest tree.now)) index
        (length tree.now) ≡ Some path.items) }
{
    match inclusion_path(alloc, tree, index, tree.length()) {
        Ok(path) => Ok(path),
        // Out of memory: the tree has each digest that it takes.
        Err(_) => Err(AllocError),
    }
}
