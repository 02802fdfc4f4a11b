//! A run of commands: the log that they push to, the map that they insert into, and the text that answers them.

ghost use Rattle.std.specs.Prelude.{◌≡◌, ◌≢◌, ◌≤◌, [], ◌∷◌, ◌++◌, Ok, IfOk, IfErr, OnOk, codes, string_bytes};
ghost use Rattle.std.specs.Fmt.{decimal};
ghost use Rattle.hex.specs.Hex.{encode_lower};
ghost use Rattle.warg_crypto.specs.Digests.{sha256};
ghost use Rattle.warg_log.specs.Tree.{own_digest};
ghost use Rattle.warg_protobuf.specs.Reading.{Answers};
ghost use Rattle.warg_bundle.specs.Bundling.{bundled};
ghost use Rattle.warg_bundle.specs.LogBundles.{bundle_message};
ghost use Rattle.warg_program.specs.Words.{lines_of};
ghost use Rattle.warg_program.specs.Orders.{line_of, good_or_bad, push_in, log_in, include_in, consistent_in, bundle_in, verify_in, insert_in, map_in, prove_in, absent_in, good, include, consistent, bundle, verify, insert, prove, absent};
ghost use Rattle.warg_program.specs.States.{start};
ghost use Rattle.warg_program.specs.Private.Errors.{IsRefusal};
ghost use Rattle.warg_program.specs.Text.{refusal, roots_or_refusal, bytes_or_refusal, bundle_refusal, text_of, all_good, MeetsFull};
ghost use Rattle.warg_log.specs.declared.log.TheConstants.{GREATEST_LENGTH};

use crate::line_error::LineError;
use crate::program::RunError;
use crate::words::{Words, is_same, split_first};
use std::alloc::{AllocError, Allocator};
use std::fmt::Write;
use warg_bundle::{BundleError, LogProofBundle};
use warg_check::{CheckError, check_inclusion};
use warg_crypto::{Hash, Sha256};
use warg_log::{
    ConsistencyProofError, GREATEST_LENGTH, InclusionProofError, LogBuilder, LogData, Node, VecLog,
};
use warg_map::Map;
use warg_protobuf::EncodeError;

// What a run keeps from line to line.
#[derive(Drop)]
struct Session<A: Allocator> {
    alloc: A,
    log: VecLog<Sha256, Vec<u8, A>, A>,
    map: Map<Sha256, Vec<u8, A>, Vec<u8, A>, A>,
    text: String<A>,
}

impl<A: Allocator + Copy> Session<A> {
    ghost use Rattle.warg_program.specs.Private.Sessions.{IsInState, Takes, Says};

    // Answers an input's lines up to the first bad one, and says whether there is none.
    fn answer_all(&mut self, input: &[u8]) -> Result<bool, RunError>
        requires state { IsInState self.old start }
        requires no_text { string_bytes self.old.text ≡ [] }
        ensures text { OnOk result (string_bytes self.new.text ≡ text_of input.now) }
        ensures good { IfOk result (λ good. good ≡ all_good (lines_of input.now)) }
        ensures room { OnOk result (¬ MeetsFull input.now) }
        ensures errors { IfErr result (IsRefusal (MeetsFull input.now)) }
    {
        let mut rest = input;
        let mut number = 0usize;
        while !rest.is_empty() {
            let (line, after) = split_first(rest, b'\n');
            rest = after.unwrap_or(&[]);
            number += 1;
            match self.answer(line) {
                Ok(()) => {}
                Err(LineError::BadLine) => {
                    writeln!(self.text, "bad line {number}")?;
                    return Ok(false);
                }
                Err(LineError::Memory) => return Err(RunError::Memory),
                Err(LineError::Full) => return Err(RunError::Full),
            }
        }
        Ok(true)
    }

    #[tactic(auto, unfolding(crate::specs::Orders::line_of))]
    // Answers a line: its first word is the name of a command, which reads the others.
    fn answer(&mut self, line: &[u8]) -> Result<(), LineError>
        ensures { Takes self.old self.new (line_of line.now) result }
    {
        if line.is_empty() {
            return Ok(());
        }
        let (name, rest) = split_first(line, b' ');
        let words = Words { rest };
        if is_same(name, b"push") {
            self.push(words)
        } else if is_same(name, b"log") {
            self.checkpoint(words)
        } else if is_same(name, b"include") {
            self.include(words)
        } else if is_same(name, b"consistent") {
            self.consistent(words)
        } else if is_same(name, b"bundle") {
            self.bundle(words)
        } else if is_same(name, b"verify") {
            self.verify(words)
        } else if is_same(name, b"insert") {
            self.insert(words)
        } else if is_same(name, b"map") {
            self.map_root(words)
        } else if is_same(name, b"prove") {
            self.prove(words)
        } else if is_same(name, b"absent") {
            self.absent(words)
        } else {
            Err(LineError::BadLine)
        }
    }

    fn push(&mut self, words: Words<'_>) -> Result<(), LineError>
        ensures { Takes self.old self.new (good_or_bad (push_in words.entry)) result }
    {
        let entry = words.last_bytes(self.alloc)?;
        if self.log.length() == GREATEST_LENGTH {
            return Err(LineError::Full);
        }
        let node = self.log.push(&entry)?;
        self.say_number("node", node.0)
    }

    fn checkpoint(&mut self, words: Words<'_>) -> Result<(), LineError>
        ensures { Takes self.old self.new (good_or_bad (log_in words.entry)) result }
    {
        words.end()?;
        let length = self.log.length();
        let root = self.log.root();
        writeln!(self.text, "log {length} {root}")?;
        Ok(())
    }

    fn include(&mut self, mut words: Words<'_>) -> Result<(), LineError>
        ensures { Takes self.old self.new (good_or_bad (include_in words.entry)) result }
    {
        let node = Node(words.number()?);
        let length = words.log_length()?;
        let value = words.last_bytes(self.alloc)?;
        self.say_included(node, length, &value)
    }

    // Answers by the root that the log's own digests give with a value at a node, or by why there is none.
    fn say_included(
        &mut self,
        node: Node,
        length: usize,
        value: &Vec<u8, A>,
    ) -> Result<(), LineError>
        requires { length ≤ GREATEST_LENGTH }
        ensures { Takes self.old self.new (good (include node.0 length value.now.items)) result }
    {
        let proof = self.log.prove_inclusion(node, length);
        match proof.evaluate_value(&self.log, value) {
            Ok(root) => self.say_root("root", &root),
            Err(InclusionProofError::LeafTooNew) => self.say("refused leaf too new"),
            Err(InclusionProofError::HashNotKnown) => self.say("refused hash not known"),
            Err(InclusionProofError::Memory) => Err(LineError::Memory),
        }
    }

    fn consistent(&mut self, mut words: Words<'_>) -> Result<(), LineError>
        ensures { Takes self.old self.new (good_or_bad (consistent_in words.entry)) result }
    {
        let old = words.log_length()?;
        let new = words.log_length()?;
        words.end()?;
        self.say_consistent(old, new)
    }

    // Answers by the roots of two lengths, or by why the log's own digests give none.
    fn say_consistent(&mut self, old: usize, new: usize) -> Result<(), LineError>
        requires old { old ≤ GREATEST_LENGTH }
        requires new { new ≤ GREATEST_LENGTH }
        ensures { Takes self.old self.new (good (consistent old new)) result }
    {
        let proof = self.log.prove_consistency(old, new);
        match proof.evaluate(&self.log) {
            Ok((old_root, new_root)) => self.say_roots(&old_root, &new_root),
            Err(fault) => self.say(refusal(&fault)?),
        }
    }

    fn bundle(&mut self, mut words: Words<'_>) -> Result<(), LineError>
        ensures { Takes self.old self.new (good_or_bad (bundle_in words.entry)) result }
    {
        let node = Node(words.number()?);
        let length = words.log_length()?;
        words.end()?;
        self.say_bundle(node, length)
    }

    // Answers by the bundle of an inclusion proof, or by why the log's own digests give none.
    fn say_bundle(&mut self, node: Node, length: usize) -> Result<(), LineError>
        requires { length ≤ GREATEST_LENGTH }
        ensures { Takes self.old self.new (good (bundle node.0 length)) result }
    {
        match self.bundle_of(node, length) {
            Ok(bundle) => self.encode(&bundle),
            Err(fault) => self.say(bundle_refusal(&fault)?),
        }
    }

    // The bundle of an inclusion proof.
    fn bundle_of(
        &self,
        node: Node,
        length: usize,
    ) -> Result<LogProofBundle<Sha256, Vec<u8, A>, A>, BundleError>
        requires { length ≤ GREATEST_LENGTH }
        ensures { Answers BundleError.Memory result (bundled (own_digest sha256 self.now.log)
            [] (record { leaf = node; log_length = length } ∷ [])) }
    {
        let proofs = Vec::from_slice(self.alloc, &[self.log.prove_inclusion(node, length)])?;
        LogProofBundle::bundle(self.alloc, Vec::new(self.alloc), proofs, &self.log)
    }

    // Answers a bundle by its bytes.
    fn encode(&mut self, bundle: &LogProofBundle<Sha256, Vec<u8, A>, A>) -> Result<(), LineError>
        ensures { Says self.old self.new
            (bytes_or_refusal (bundle_message bundle.now) ++ 10 ∷ []) result }
    {
        match bundle.encode(self.alloc) {
            Ok(bytes) => self.say_bytes(bytes.as_slice()),
            Err(EncodeError::TooLarge) => self.say("refused too large"),
            Err(EncodeError::Memory) => Err(LineError::Memory),
        }
    }

    // Answers by a bundle's bytes, in hexadecimal digits.
    fn say_bytes(&mut self, bytes: &[u8]) -> Result<(), LineError>
        ensures { Says self.old self.new
            (codes "bundle " ++ (encode_lower bytes.now ++ 10 ∷ [])) result }
    {
        let digits = hex::encode(self.alloc, bytes)?;
        writeln!(self.text, "bundle {digits}")?;
        Ok(())
    }

    fn verify(&mut self, mut words: Words<'_>) -> Result<(), LineError>
        ensures { Takes self.old self.new (good_or_bad (verify_in words.entry)) result }
    {
        let root = words.root(self.alloc)?;
        let value = words.bytes(self.alloc)?;
        let bundle = words.last_bytes(self.alloc)?;
        self.say_verdict(&root, &value, bundle.as_slice())
    }

    // Answers by the verdict on the first inclusion proof of a bundle's bytes, or by why there is none.
    fn say_verdict(
        &mut self,
        root: &Hash<Sha256>,
        value: &Vec<u8, A>,
        bundle: &[u8],
    ) -> Result<(), LineError>
        ensures { Takes self.old self.new (good (verify root.now value.now.items bundle.now)) result }
    {
        match check_inclusion(self.alloc, bundle, 0, value, root) {
            Ok(verdict) => {
                writeln!(self.text, "{verdict}")?;
                Ok(())
            }
            Err(CheckError::Decode(_)) => self.say("refused not decoded"),
            Err(CheckError::NoSuchProof) => self.say("refused no such proof"),
            Err(CheckError::Memory) => Err(LineError::Memory),
        }
    }

    fn insert(&mut self, mut words: Words<'_>) -> Result<(), LineError>
        ensures { Takes self.old self.new (good_or_bad (insert_in words.entry)) result }
    {
        let key = words.bytes(self.alloc)?;
        let value = words.last_bytes(self.alloc)?;
        self.insert_entry(key, value)
    }

    // Inserts an entry, and answers by the count of keys.
    #[tactic(auto, using(crate::proofs::MapLemmas::map_after_insert))]
    fn insert_entry(&mut self, key: Vec<u8, A>, value: Vec<u8, A>) -> Result<(), LineError>
        ensures { Takes self.old self.new (good (insert key.items value.items)) result }
    {
        self.map = self.map.insert(key, value)?;
        let len = self.map.len();
        self.say_number("len", len)
    }

    fn map_root(&mut self, words: Words<'_>) -> Result<(), LineError>
        ensures { Takes self.old self.new (good_or_bad (map_in words.entry)) result }
    {
        words.end()?;
        let len = self.map.len();
        let root = self.map.root();
        writeln!(self.text, "map {len} {root}")?;
        Ok(())
    }

    fn prove(&mut self, mut words: Words<'_>) -> Result<(), LineError>
        ensures { Takes self.old self.new (good_or_bad (prove_in words.entry)) result }
    {
        let key = words.bytes(self.alloc)?;
        let value = words.last_bytes(self.alloc)?;
        self.say_proved(&key, &value)
    }

    // Answers by the root to which a key's proof leads from a value, or that there is no proof.
    fn say_proved(&mut self, key: &Vec<u8, A>, value: &Vec<u8, A>) -> Result<(), LineError>
        ensures { Takes self.old self.new (good (prove key.now.items value.now.items)) result }
    {
        let copy = Vec::from_slice(self.alloc, key.as_slice())?;
        match self.map.prove(copy)? {
            Some(proof) => self.say_root("root", &proof.evaluate(key, value)),
            None => self.say("absent"),
        }
    }

    fn absent(&mut self, words: Words<'_>) -> Result<(), LineError>
        ensures { Takes self.old self.new (good_or_bad (absent_in words.entry)) result }
    {
        let key = words.last_bytes(self.alloc)?;
        self.say_absent(&key)
    }

    // Answers by the root to which a key's absence leads, or that it is present.
    fn say_absent(&mut self, key: &Vec<u8, A>) -> Result<(), LineError>
        ensures { Takes self.old self.new (good (absent key.now.items)) result }
    {
        let copy = Vec::from_slice(self.alloc, key.as_slice())?;
        match self.map.prove_absence(copy)? {
            Some(absence) => self.say_root("empty", &absence.evaluate_absent(key)),
            None => self.say("refused present"),
        }
    }

    // Answers by a word and a root.
    fn say_root(&mut self, word: &str, root: &Hash<Sha256>) -> Result<(), LineError>
        ensures { Says self.old self.new
            (word.now ++ 32 ∷ (encode_lower root.now ++ 10 ∷ [])) result }
    {
        writeln!(self.text, "{word} {root}")?;
        Ok(())
    }

    // Answers by two roots.
    fn say_roots(&mut self, old: &Hash<Sha256>, new: &Hash<Sha256>) -> Result<(), LineError>
        ensures { Says self.old self.new
            (roots_or_refusal (Ok (old.now, new.now)) ++ 10 ∷ []) result }
    {
        writeln!(self.text, "roots {old} {new}")?;
        Ok(())
    }

    // Answers by a word and a number.
    fn say_number(&mut self, word: &str, number: usize) -> Result<(), LineError>
        ensures { Says self.old self.new (word.now ++ 32 ∷ (decimal number ++ 10 ∷ [])) result }
    {
        writeln!(self.text, "{word} {number}")?;
        Ok(())
    }

    // Answers by a line of text.
    fn say(&mut self, text: &str) -> Result<(), LineError>
        ensures { Says self.old self.new (text.now ++ 10 ∷ []) result }
    {
        writeln!(self.text, "{text}")?;
        Ok(())
    }
}

// Why there is no bundle, unless memory was refused.
fn bundle_refusal(fault: &BundleError) -> Result<&'static str, AllocError>
    ensures text { IfOk result (λ text. text.now ≡ bundle_refusal fault.now) }
    ensures named { OnOk result (fault.now ≢ BundleError.Memory) }
{
    match fault {
        BundleError::Consistency(fault) => refusal(fault),
        BundleError::Inclusion(_) => Ok("refused leaf too new"),
        BundleError::DifferentRoots => Ok("refused different roots"),
        BundleError::NoProofs => Ok("refused no proofs"),
        BundleError::TooLarge => Ok("refused too large"),
        BundleError::HashNotFound => Ok("refused hash not known"),
        BundleError::Memory => Err(AllocError),
    }
}

// Why a consistency proof leads to no roots, unless memory was refused.
fn refusal(fault: &ConsistencyProofError) -> Result<&'static str, AllocError>
    ensures { IfOk result (λ text. text.now ≡ refusal fault.now) }
{
    match fault {
        ConsistencyProofError::PointsOutOfOrder => Ok("refused points out of order"),
        ConsistencyProofError::HashNotKnown | ConsistencyProofError::InclusionError(_) => {
            Ok("refused hash not known")
        }
        ConsistencyProofError::DivergingRoots => Ok("refused diverging roots"),
        ConsistencyProofError::OldLengthZero => Ok("refused old length zero"),
        ConsistencyProofError::Memory => Err(AllocError),
    }
}

/// The text for an input, and whether every line was good.
pub(super) fn answers<A: Allocator + Copy>(
    alloc: A,
    input: &[u8],
) -> Result<(String<A>, bool), RunError>
    ensures text { IfOk result (λ answers. string_bytes answers.0 ≡ text_of input.now) }
    ensures good { IfOk result (λ answers. answers.1 ≡ all_good (lines_of input.now)) }
    ensures room { OnOk result (¬ MeetsFull input.now) }
    ensures errors { IfErr result (IsRefusal (MeetsFull input.now)) }
{
    let mut session = Session {
        alloc,
        log: VecLog::default(alloc),
        map: Map::default(alloc),
        text: String::new(alloc),
    };
    let good = session.answer_all(input)?;
    Ok((session.text, good))
}
