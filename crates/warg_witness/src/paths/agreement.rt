//! The agreement of two paths that lead to one root.

ghost use Rattle.std.specs.Prelude.{◌≡◌, Ok, IfOk};
ghost use Rattle.warg_witness.specs.Findings.{Finds};
ghost use Rattle.warg_witness.specs.PathClaims.{IsRecordAgreement};
ghost use Rattle.warg_witness.specs.PathPlaced.{IsRecordAgreementPlaced};

use super::climbing::meet_paths;
use crate::collision::Finding;
use crate::divergence::compare_values;
use std::alloc::{AllocError, Allocator};
use warg_crypto::{Hash, SupportedDigest, VisitBytes, hash_leaf};

/// Whether two paths of the place `index`, from 0, of `length` entries, from two values, that lead to one root,
/// whichever it is, are of the same value: for a client that holds no entries.
///
/// `NotMet` exactly if one path leads to no root, as where it has another length than that of this place or `index`
/// isn't below `length`, or both lead to different roots, which does not allocate. `Holds` exactly if both lead to one
/// root, and the values have the same bytes. Else a collision: what the digest function takes in the evaluation of the
/// first path and in that of the second (RFC 6962, section 2.1.1) at one range on the way to the leaf.
///
/// It hashes both values, and each branch of both evaluations once. It fails only if allocation fails. A value of more
/// than `usize::MAX` bytes counts as that.
pub fn agree_record<D: SupportedDigest, V: VisitBytes, A: Allocator + Copy>(
    alloc: A,
    index: usize,
    length: usize,
    first_value: &V,
    first_path: &[Hash<D>],
    second_value: &V,
    second_path: &[Hash<D>],
) -> Result<Finding<D, A>, AllocError>
    ensures unmet { ¬ (IsRecordAgreement D.digest index length first_path.now
        (V.bytes first_value.now)
        second_path.now (V.bytes second_value.now)) → result ≡ Ok Finding.NotMet }
    ensures found { IfOk result (Finds
        (IsRecordAgreement D.digest index length first_path.now (V.bytes first_value.now)
        second_path.now (V.bytes second_value.now))
        (V.bytes first_value.now ≡ V.bytes second_value.now)
        (IsRecordAgreementPlaced D.digest index length (first_path.now, V.bytes first_value.now)
        (second_path.now, V.bytes second_value.now))) }
{
    let first_leaf = hash_leaf::<D, V>(first_value);
    let second_leaf = hash_leaf::<D, V>(second_value);
    let met = meet_paths(
        index,
        length,
        &first_leaf,
        first_path,
        &second_leaf,
        second_path,
    );
    compare_values(alloc, &met, first_value, second_value)
}
