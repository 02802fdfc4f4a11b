//! Laws of the definitions in `specs/`: the contract of each function is the law, and it has no effect.

ghost use Rattle.std.specs.Prelude.{◌≡◌, ℕ, ◌^◌, ◌<◌, ◌≤◌, List, [], ◌∷◌, map, Option, Ok};
ghost use Rattle.std.specs.List.{AllByRecursion};
ghost use Rattle.warg_log.specs.Claims.{ConsistencyClaim, InclusionClaim, leaf_claim};
ghost use Rattle.warg_log.specs.Sparse.{IsAscending};
ghost use Rattle.warg_bundle.specs.LogBundles.{Bundle, NodesFit};
ghost use Rattle.warg_bundle.specs.Bundling.{bundled, HoldsNeeded, IncludesAs, IsConsistentAs};

/// The bundle of some proofs has their one length, their old lengths, their nodes, and digests for exactly the
/// nodes that they need, ascending, each as the source has it.
pub fn bundled_parts()
    ensures new_lengths { (F : ℕ → Option (List ℕ)) (cs : List ConsistencyClaim)
        (ps : List InclusionClaim) (b : Bundle)
        → bundled F cs ps ≡ Ok b → AllByRecursion (λ p. p.new_length ≡ b.log_length) cs }
    ensures log_lengths { (F : ℕ → Option (List ℕ)) (cs : List ConsistencyClaim)
        (ps : List InclusionClaim) (b : Bundle)
        → bundled F cs ps ≡ Ok b → AllByRecursion (λ p. p.log_length ≡ b.log_length) ps }
    ensures old_lengths { (F : ℕ → Option (List ℕ)) (cs : List ConsistencyClaim)
        (ps : List InclusionClaim) (b : Bundle)
        → bundled F cs ps ≡ Ok b → b.consistent_lengths ≡ map (λ p. p.old_length) cs }
    ensures nodes { (F : ℕ → Option (List ℕ)) (cs : List ConsistencyClaim)
        (ps : List InclusionClaim) (b : Bundle)
        → bundled F cs ps ≡ Ok b → b.included_nodes ≡ map (λ p. p.leaf) ps }
    ensures ascending { (F : ℕ → Option (List ℕ)) (cs : List ConsistencyClaim)
        (ps : List InclusionClaim) (b : Bundle)
        → bundled F cs ps ≡ Ok b → IsAscending b.hashes }
    ensures exactly { (F : ℕ → Option (List ℕ)) (cs : List ConsistencyClaim)
        (ps : List InclusionClaim) (b : Bundle)
        → bundled F cs ps ≡ Ok b → HoldsNeeded b }
    ensures source { (F : ℕ → Option (List ℕ)) (cs : List ConsistencyClaim)
        (ps : List InclusionClaim) (b : Bundle)
        → bundled F cs ps ≡ Ok b → AllByRecursion (λ p. F p.0.0 ≡ Some p.1) b.hashes }
{}

/// A bundle's proofs evaluate over its own digests as over those that it was made from.
pub fn bundled_as_source()
    ensures inclusions { (H : List ℕ → List ℕ) (F : ℕ → Option (List ℕ))
        (cs : List ConsistencyClaim) (ps : List InclusionClaim) (b : Bundle)
        → bundled F cs ps ≡ Ok b → IncludesAs H F b }
    ensures consistencies { (H : List ℕ → List ℕ) (F : ℕ → Option (List ℕ))
        (cs : List ConsistencyClaim) (ps : List InclusionClaim) (b : Bundle)
        → bundled F cs ps ≡ Ok b → IsConsistentAs H F b }
{}

/// The bundle of a proof at a length above 2^31 never has a message: the number of one of its nodes doesn't fit in 32 bits.
/// Up to that length it always has (`inclusion_bytes` and `growth_bytes` are `TooLarge` exactly above it).
#[tactic(auto, using(crate::proofs::LargeLemmas::leaf_never_fits, crate::proofs::LargeLemmas::growth_never_fits))]
pub fn large_bundles_never_fit()
    ensures inclusion { (F : ℕ → Option (List ℕ)) (index n : ℕ) (b : Bundle) → index < n → 2 ^ 31 < n
        → bundled F [] (leaf_claim index n ∷ []) ≡ Ok b → NodesFit b → ⊥ }
    ensures growth { (F : ℕ → Option (List ℕ)) (m n : ℕ) (b : Bundle) → 0 < m → m ≤ n → 2 ^ 31 < n
        → bundled F (record { old_length = m; new_length = n } ∷ []) [] ≡ Ok b → NodesFit b → ⊥ }
{}
