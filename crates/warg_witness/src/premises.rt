//! What the premises of the laws that end in a collision are for. Each function has no effect, and says of laws that they are
//! false without any one of their premises.

ghost use Rattle.std.specs.Prelude.{ℕ, true, false, List};
ghost use Rattle.warg_crypto.specs.Collisions.{GivesHashes};
ghost use Rattle.warg_witness.specs.Asked.{but_hashes, but_meeting, but_untruth, meeting_alone, untruth_alone, Fails, FailsEverywhere, NeedsEach, MapNeedsEach, ValueLaw, HashLaw, AgreementLaw, ConsistencyLaw, RecordLaw, RecordAgreementLaw, TreeLaw, KeyAgreementLaw, KeyLaw, AbsenceLaw, UpdateLaw, EqualMapsLaw, StepsLaw};

/// Of a log: a function to 32 bytes, that the claim is met, and that it isn't true.
#[tactic(auto, using(crate::proofs::PremiseLemmas::log_needs))]
pub fn log_premises_are_needed()
    ensures value { NeedsEach ValueLaw }
    ensures agreement { NeedsEach AgreementLaw }
    ensures consistency { NeedsEach ConsistencyLaw }
    ensures record { NeedsEach RecordLaw }
    ensures tree { NeedsEach TreeLaw }
{}

/// Of a hash's claim: the same, and that the hash has 32 bytes.
#[tactic(auto, using(crate::proofs::PremiseLemmas::hash_needs))]
pub fn hash_premises_are_needed()
    ensures hashes { Fails (HashLaw true but_hashes) }
    ensures size { (H : List ℕ → List ℕ) → GivesHashes H → ¬ (HashLaw false but_hashes H) }
    ensures meeting { FailsEverywhere (HashLaw true untruth_alone) }
    ensures untruth { (H : List ℕ → List ℕ) → GivesHashes H → ¬ (HashLaw true meeting_alone H) }
{}

/// Of two values along two paths: digests of 32 bytes, that both lead to one root, and that they differ.
#[tactic(auto, using(crate::proofs::PremiseLemmas::record_agreement_needs))]
pub fn record_agreement_premises_are_needed()
    ensures sizes { Fails (RecordAgreementLaw but_hashes) }
    ensures meeting { FailsEverywhere (RecordAgreementLaw but_meeting) }
    ensures difference { FailsEverywhere (RecordAgreementLaw but_untruth) }
{}

/// Of a map, or of two of one root: a function to 32 bytes, that the claim is met, and that it isn't true.
#[tactic(auto, using(crate::proofs::MapPremiseLemmas::map_needs))]
pub fn map_premises_are_needed()
    ensures agreement { MapNeedsEach KeyAgreementLaw }
    ensures key { MapNeedsEach KeyLaw }
    ensures absence { MapNeedsEach AbsenceLaw }
    ensures update { MapNeedsEach UpdateLaw }
    ensures equal_maps { MapNeedsEach EqualMapsLaw }
{}

/// Of steps: a function to 32 bytes, and that they lead from the empty map's root.
#[tactic(auto, using(crate::proofs::MapPremiseLemmas::steps_needs))]
pub fn steps_premises_are_needed()
    ensures hashes { Fails (StepsLaw but_hashes) }
    ensures leading { FailsEverywhere (StepsLaw untruth_alone) }
{}
