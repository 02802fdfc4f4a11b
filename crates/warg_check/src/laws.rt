//! What verdicts say, stated over the definitions alone: the contract of each function is the law, and it has
//! no effect.
//!
//! They join the verdicts with the laws of `warg_witness`: where a verdict is true under the checkpoint of
//! given entries, or under the root of given insertions, its claim is met there, and so it is true of them or
//! a collision is computed (`value_or_collision`, `consistency_or_collision`, `key_or_collision`,
//! `absence_or_collision` and `update_or_collision` there). That the bundle's digests have 32 bytes (`hashes`) is more
//! than those laws ask for.

ghost use Rattle.std.specs.Prelude.{◌≡◌, ℕ, List, Ok, true};
ghost use Rattle.warg_check.specs.Verdicts.{key_verdict, absent_verdict, IsKeyShown, IsAbsenceShown};
ghost use Rattle.warg_check.specs.CheckpointVerdicts.{entry_verdict, growth_verdict, IsEntryShown, IsGrowthShown};
ghost use Rattle.warg_check.specs.UpdateVerdicts.{update_verdict, insertion_verdict, IsUpdateShown, IsInsertionShown};

/// Where the verdict on an entry is true, the bundle's digests lead from the value at its leaf to the root.
pub fn entry_is_shown()
    ensures { (H : List ℕ → List ℕ) (bytes : List ℕ) (at index : ℕ) (value : List ℕ) (length : ℕ)
        (root : List ℕ) → entry_verdict H bytes at index value length root ≡ Ok true
        → IsEntryShown H bytes index value length root }
{}

/// Where the verdict on two checkpoints is true, the bundle's digests lead to both roots.
pub fn growth_is_shown()
    ensures { (H : List ℕ → List ℕ) (bytes : List ℕ) (at old_length : ℕ) (old : List ℕ)
        (new_length : ℕ) (new : List ℕ) → growth_verdict H bytes at old_length old new_length new
        ≡ Ok true → IsGrowthShown H bytes old_length old new_length new }
{}

/// Where the verdict on a key is true, the bundle has at the place peers of 32 bytes that lead from the
/// value under the key to the root.
pub fn key_is_shown()
    ensures { (H : List ℕ → List ℕ) (bytes : List ℕ) (at : ℕ) (key value root : List ℕ)
        → key_verdict H bytes at key value root ≡ Ok true → IsKeyShown H bytes at key value root }
{}

/// Where the verdict on an absence is true, the bundle has at the place peers of 32 bytes that lead from an
/// empty leaf under the key to the root.
pub fn absence_is_shown()
    ensures { (H : List ℕ → List ℕ) (bytes : List ℕ) (at : ℕ) (key root : List ℕ)
        → absent_verdict H bytes at key root ≡ Ok true → IsAbsenceShown H bytes at key root }
{}

/// Where the verdict on an update is true, the bundle has at the place peers of 32 bytes that lead from both
/// values under the key to the two roots.
pub fn update_is_shown()
    ensures { (H : List ℕ → List ℕ) (bytes : List ℕ) (at : ℕ)
        (key old_value new_value old_root new_root : List ℕ)
        → update_verdict H bytes at key old_value new_value old_root new_root ≡ Ok true
        → IsUpdateShown H bytes at key old_value new_value old_root new_root }
{}

/// Where the verdict on an insertion is true, the bundle has at the place peers of 32 bytes that lead under the
/// key from an empty leaf to the old root, and from the value to the new one.
pub fn insertion_is_shown()
    ensures { (H : List ℕ → List ℕ) (bytes : List ℕ) (at : ℕ) (key value old_root new_root : List ℕ)
        → insertion_verdict H bytes at key value old_root new_root ≡ Ok true
        → IsInsertionShown H bytes at key value old_root new_root }
{}
