//! Maps compared and hashed, and what stands after a refusal.

use refusing::Refusing;
use std::alloc::{Allocator, Global};
use std::cell::Cell;
use std::hash::{DefaultHasher, Hasher};
use std::process::Abort;
use warg_bundle::{MapProofBundle, key_bytes};
use warg_check::{check_absent, check_key};
use warg_crypto::Sha256;
use warg_crypto::weak::Sum;
use warg_map::{KeyProof, Map, MapError, Proof};
use warg_protobuf::EncodeError;

// Whether all of these are true. Each of them is looked at.
fn all(kept: &[bool]) -> bool {
    !kept.contains(&false)
}

type Text = &'static str;

type TextMap<A = Global> = Map<Sha256, Text, Text, A>;

type SumMap = Map<Sum, &'static [u8], &'static [u8]>;

fn grown(rt: &(impl AllocGlobal + Abort), pairs: &[(Text, Text)]) -> TextMap {
    let mut map = TextMap::default(rt.alloc());
    for (key, value) in pairs {
        map = map.insert(*key, *value).expect(rt, "memory");
    }
    map
}

fn hashed<A: Allocator>(map: &TextMap<A>) -> u64 {
    let mut hasher = DefaultHasher::new();
    std::hash::Hash::hash(map, &mut hasher);
    hasher.finish()
}

// Equal roots make equal maps: a value without bytes, and insertions in any order.
#[test]
fn equal_maps(rt: HostRuntime) {
    let (nothing, empty_value) = (grown(&rt, &[]), grown(&rt, &[("foo", "")]));
    assert!(rt; empty_value == nothing && hashed(&empty_value) == hashed(&nothing));
    assert!(rt; empty_value.len() == 1 && nothing.is_empty());
}

#[test]
fn equal_maps_in_any_order(rt: HostRuntime) {
    let up = grown(&rt, &PAIRS);
    let down = TextMap::default(rt.alloc()).extend(PAIRS.iter().rev().copied());
    let down = down.expect(&rt, "memory");
    assert!(rt; up == down && hashed(&up) == hashed(&down) && down.len() == 2);
}

static OTHERS: [&[(Text, Text)]; 3] = [&[], &[("foo", "baz")], &[("foo", "bar"), ("baz", "bat")]];

#[test]
fn other_maps(rt: HostRuntime) {
    let map = grown(&rt, &[("foo", "bar")]);
    for pairs in &OTHERS {
        assert!(rt; grown(&rt, pairs) != map);
    }
}

// The map of these pairs under sums.
fn sums(rt: &(impl AllocGlobal + Abort), pairs: &[(&'static [u8], &'static [u8])]) -> SumMap {
    let mut map = SumMap::default(rt.alloc());
    for (key, value) in pairs {
        map = map.insert(*key, *value).expect(rt, "memory");
    }
    map
}

// Maps of other counts are equal where their roots are.
#[test]
fn equal_roots_of_weak_digests(rt: HostRuntime) {
    let lone = sums(&rt, &[(&[3], &[9])]);
    let two = sums(&rt, &[(&[1, 2], &[8]), (&[4], &[1])]);
    assert!(rt; lone == two && lone.len() == 1 && two.len() == 2);
}

type TextProof = Proof<Sha256, Text, Text>;

type LentProof<A> = Proof<Sha256, Text, Text, A>;

fn proven(rt: &(impl AllocGlobal + Abort), pairs: &[(Text, Text)], key: Text) -> TextProof {
    let proof = grown(rt, pairs).prove(key).expect(rt, "memory");
    proof.expect(rt, "held")
}

// Lists of no proofs.
type Lists<A> = (Vec<LentProof<A>, A>, Vec<LentProof<A>, A>);

// Two lists of no proofs that were a bundle's.
fn unbundled<A: Allocator + Copy>(held: A, absent: A) -> Lists<A> {
    MapProofBundle::bundle_with(Vec::new(held), Vec::new(absent)).unbundle_all()
}

// A bundle's lists stay in the allocators that they lie in, and bundling does not allocate.
#[test]
fn lists_of_a_bundle_stay_where_they_lie(rt: HostRuntime) {
    let held = Refusing::after(rt.alloc(), 1);
    let absent = Refusing::after(rt.alloc(), 1);
    let (mut proofs, mut absences) = unbundled(&held, &absent);
    assert!(rt; [held.left(), absent.left()] == [1, 1]);
    proofs.reserve(1).expect(&rt, "one growth");
    assert!(rt; [held.left(), absent.left()] == [0, 1]);
    absences.reserve(1).expect(&rt, "one growth");
    assert!(rt; absent.left() == 0);
    assert!(rt; !held.has_refused() && !absent.has_refused());
}

static PAIRS: [(Text, Text); 2] = [("foo", "bar"), ("baz", "bat")];

static BACK: [(Text, Text); 2] = [("baz", "bat"), ("foo", "bar")];

// Proofs are equal exactly if their peers are.
#[test]
fn equal_proofs(rt: HostRuntime) {
    let proof = proven(&rt, &PAIRS, "foo");
    assert!(rt; proof == proven(&rt, &BACK, "foo"));
    assert!(rt; proof != proven(&rt, &PAIRS, "baz"));
    assert!(rt; proof != proven(&rt, &[("foo", "bar")], "foo"));
}

// A list of the proof of "foo".
fn lone(rt: &(impl AllocGlobal + Abort), pairs: &[(Text, Text)]) -> Vec<TextProof> {
    vec![in rt.alloc(); proven(rt, pairs, "foo")].expect(rt, "memory")
}

// Bundles are equal exactly if their proofs and their absences are.
#[test]
fn equal_bundles(rt: HostRuntime) {
    let bundle = MapProofBundle::bundle(lone(&rt, &PAIRS));
    assert!(rt; bundle == MapProofBundle::bundle(lone(&rt, &BACK)));
    let absences = lone(&rt, &BACK);
    assert!(rt; bundle != MapProofBundle::bundle_with(Vec::new(rt.alloc()), absences));
}

// Whether a held key's proof leads to the root from its value.
fn is_present(map: &TextMap, key: Text, value: Text) -> bool {
    match map.prove_key(&key) {
        Ok(KeyProof::Presence(proof)) => proof.evaluate(&key, &value) == *map.root(),
        _ => false,
    }
}

// Whether an absent key's proof leads to the root from nothing.
fn is_missing(map: &TextMap, key: Text) -> bool {
    match map.prove_key(&key) {
        Ok(KeyProof::Absence(proof)) => proof.evaluate_absent(&key) == *map.root(),
        _ => false,
    }
}

// A key that is held is proved by its value, and another one by nothing.
#[test]
fn keys_proved_held_or_absent(rt: HostRuntime) {
    let map = grown(&rt, &PAIRS);
    assert!(rt; is_present(&map, "baz", "bat") && is_missing(&map, "qux"));
}

static THREE: [(Text, Text); 3] = [("foo", "bar"), ("baz", "bat"), ("nil", "")];

// Whether the bytes of a key's proof pass the verdict on the key.
fn passes(rt: &(impl AllocGlobal + Abort), map: &TextMap, key: Text, value: Text) -> bool {
    let bytes = key_bytes(rt.alloc(), map, &key).expect(rt, "bytes");
    check_key(rt.alloc(), bytes.as_slice(), 0, &key, &value, map.root()) == Ok(true)
}

// Whether they pass the verdict on its absence.
fn passes_as_absent(rt: &(impl AllocGlobal + Abort), map: &TextMap, key: Text) -> bool {
    let bytes = key_bytes(rt.alloc(), map, &key).expect(rt, "bytes");
    check_absent(rt.alloc(), bytes.as_slice(), 0, &key, map.root()) == Ok(true)
}

// The bytes of a key's proof pass the verdict on the key, or that on its absence.
#[test]
fn proofs_of_keys_as_bytes(rt: HostRuntime) {
    let map = grown(&rt, &THREE);
    for (key, value) in &THREE {
        assert!(rt; passes(&rt, &map, key, value));
    }
    assert!(rt; passes_as_absent(&rt, &map, "bar"));
    assert!(rt; passes_as_absent(&rt, &grown(&rt, &[]), "foo"));
}

// Whether there are bytes; where there are none, memory ran out.
fn are_there<A: Allocator>(rt: &impl Abort, bytes: &Result<Vec<u8, A>, EncodeError>) -> bool {
    match bytes {
        Ok(bytes) => bytes.len() > 2,
        Err(fault) => {
            assert!(rt; *fault == EncodeError::Memory);
            false
        }
    }
}

// Whether so few growths suffice for the proofs of a key that is held and of one that isn't. Else the latter is refused.
fn are_written(rt: &(impl AllocGlobal + Abort), growths: u64) -> bool {
    let memory = Refusing::after(rt.alloc(), 90);
    let map = foo(&memory)
        .expect(rt, "memory")
        .insert("baz", "bat")
        .expect(rt, "memory");
    memory.exhaust();
    memory.grant(growths);
    let is_held = are_there(rt, &key_bytes(&memory, &map, &"foo"));
    let is_absent = are_there(rt, &key_bytes(&memory, &map, &"bar"));
    assert!(rt; is_absent != memory.has_refused() && (is_held || !is_absent));
    is_absent
}

// Each growth of the bytes of a proof is refused in turn, until none is.
#[test]
fn bytes_of_a_key_with_each_growth_refused(rt: HostRuntime) {
    for growths in 0..90 {
        if are_written(&rt, growths) {
            return;
        }
    }
    panic!(rt; "all growths were refused");
}

// Whether the proof leads to the map's root from this key and value.
fn leads(map: &TextMap, proof: &TextProof, key: Text, value: Text) -> bool {
    proof.evaluate(&key, &value) == *map.root()
}

// A proof leads to the root from the value that is held, and from no other one.
#[test]
fn values_of_a_proof(rt: HostRuntime) {
    let map = grown(&rt, &PAIRS);
    let proof = map.prove("baz").expect(&rt, "memory").expect(&rt, "held");
    assert!(rt; leads(&map, &proof, "baz", "bat"));
    assert!(rt; !leads(&map, &proof, "other", "bar") && !leads(&map, &proof, "baz", ""));
    assert!(rt; proof.evaluate_absent(&"baz") != *map.root());
    assert!(rt; map.prove("qux") == Ok(None));
}

type Scarce<'a> = TextMap<&'a Refusing<Global>>;

fn foo<A: Allocator + Copy>(alloc: A) -> Result<TextMap<A>, MapError> {
    TextMap::default(alloc).insert("foo", "bar")
}

// Whether a map is the same as its clone.
fn are_same<A: Allocator + Copy>(map: &TextMap<A>, clone: &TextMap<A>) -> bool {
    all(&[
        clone == map,
        hashed(clone) == hashed(map),
        clone.root() == map.root(),
        clone.len() == 1,
        !clone.is_empty(),
        clone.node_count() == 2,
    ])
}

// Whether the proofs of "foo" and of an absent key lead to the map's root.
fn lead_to_root<A: Allocator + Copy>(
    map: &TextMap<A>,
    proof: &LentProof<A>,
    absence: &LentProof<A>,
) -> bool {
    all(&[
        proof.peers().len() == 1,
        proof.evaluate(&"foo", &"bar") == *map.root(),
        absence.evaluate_absent(&"qux") == *map.root(),
    ])
}

#[test]
fn calls_without_memory(rt: HostRuntime) {
    let memory = Refusing::after(rt.alloc(), 99);
    let map = foo(&memory).expect(&rt, "memory");
    let proof = map.prove("foo").expect(&rt, "memory").expect(&rt, "held");
    let absence = map
        .prove_absence("qux")
        .expect(&rt, "memory")
        .expect(&rt, "absent");
    memory.exhaust();
    assert!(rt; are_same(&map, &map.clone().expect(&rt, "a clone")));
    assert!(rt; lead_to_root(&map, &proof, &absence));
    assert!(rt; Vec::from(proof).len() == 1 && Scarce::default(&memory).is_empty());
    assert!(rt; memory.left() == 0 && !memory.has_refused());
}

static MORE: [(Text, Text); 3] = [("baz", "bat"), ("bar", "x"), ("foo", "qux")];

// The pairs from a place on. When they are dropped, they say at which place.
struct Pairs<'a> {
    place: usize,
    dropped_at: &'a Cell<Option<usize>>,
}

impl Drop for Pairs<'_> {
    fn drop(self) {
        self.dropped_at.set(Some(self.place));
        let Pairs {
            place: _,
            dropped_at: _,
        } = self;
    }
}

impl Iterator for Pairs<'_> {
    type Item = (Text, Text);

    ghost use Rattle.std.specs.Prelude.{◌-◌};
    ghost use Rattle.std.specs.Iterator.{at_most};

    ghost remaining = { λ s. at_most (3 - s.place) };

    fn next(&mut self) -> Option<(Text, Text)> {
        let pair = MORE.get(self.place)?;
        self.place += 1;
        Some(*pair)
    }
}

// Whether a map of "foo" proves what it holds.
fn proves_foo<A: Allocator + Copy>(map: &TextMap<A>) -> bool {
    match map.prove("foo") {
        Ok(Some(proof)) => all(&[
            proof.evaluate(&"foo", &"bar") == *map.root(),
            map.len() == 1,
            map.node_count() == 2,
        ]),
        _ => false,
    }
}

// Whether an extension was refused. Then the map is what it was, and what is left of the iterator is dropped.
fn is_refused(rt: &impl Abort, map: &Scarce<'_>, memory: &Refusing<Global>) -> bool {
    let dropped_at = Cell::new(None);
    let pairs = Pairs {
        place: 0,
        dropped_at: &dropped_at,
    };
    let extended = map.extend(pairs);
    let place = dropped_at.get().expect(rt, "the iterator is dropped");
    match extended {
        Ok(all) => {
            assert!(rt; all.len() == 3 && place == 3);
            false
        }
        Err(fault) => {
            assert!(rt; fault == MapError::Memory && place > 0 && memory.has_refused());
            memory.grant(99);
            assert!(rt; proves_foo(map));
            true
        }
    }
}

#[test]
fn an_extension_with_each_growth_refused(rt: HostRuntime) {
    let mut refusals = 0usize;
    for growths in 0..60u64 {
        let memory = Refusing::after(rt.alloc(), 99);
        let map = foo(&memory).expect(&rt, "memory");
        memory.exhaust();
        memory.grant(growths);
        if !is_refused(&rt, &map, &memory) {
            break;
        }
        refusals = refusals.saturating_add(1);
    }
    assert!(rt; refusals > 3 && refusals < 60);
}

#[test]
fn a_map_as_text(rt: HostRuntime) {
    let map = TextMap::default(rt.alloc());
    let text = format!(in rt.alloc(); "{map:?}").expect(&rt, "memory");
    assert!(rt; text.as_str().starts_with("Map("));
}
