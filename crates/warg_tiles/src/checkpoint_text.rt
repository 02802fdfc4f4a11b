//! Checkpoint texts.

ghost use Rattle.std.specs.Prelude.{◌≡◌, ◌≢◌, ℕ, ◌<◌, ◌≤◌, ◌↔◌, List, [], ◌∷◌, ◌++◌, length, map, Option, Ok, Err, IfOk, IfErr, OnOk, OnErr, MatchOption, IsTrue};
ghost use Rattle.std.specs.Fmt.{decimal};
ghost use Rattle.std.specs.List.{AllByRecursion};
ghost use Rattle.std.specs.Option.{option_copied};
ghost use Rattle.base64.specs.Engines.{standard};
ghost use Rattle.base64.specs.GeneralPurpose.{encode_of};
ghost use Rattle.warg_crypto.specs.Digests.{IsDigest};
ghost use Rattle.warg_tiles.specs.CheckpointText.{Said, HasNoNewline, IsLine, CanBeSaid, line, length_line, root_line, lines, behind, text_of, text_before};
ghost use Rattle.warg_tiles.specs.Private.Texts.{IsExtensionFault};
ghost use Rattle.warg_tiles.specs.CheckpointFaults.{HasOrigin, IsFirstFault};

use crate::error::CheckpointTextError;
use base64::engine::general_purpose::STANDARD;
use std::alloc::{AllocError, Allocator, Global};
use std::marker::Model;
use warg_crypto::Hash;
use warg_log::{Checkpoint, GREATEST_LENGTH, decimal_in};

/// What a log says of its length and its root, as a text (C2SP tlog-checkpoint): the origin, which names the log, the
/// length in decimal and the root in base64 with padding, each on a line, and then further lines.
///
/// The origin and the further lines are bytes, at least one, with no newline in them; the length is at most 2^63.
#[derive(Drop)]
pub struct CheckpointText<D, A: Allocator = Global> {
    origin: Vec<u8, A>,
    checkpoint: Checkpoint<D>,
    extensions: Vec<Vec<u8, A>, A>,
}

// Contracts see a text as what it says.
impl<D, A: Allocator> Model for CheckpointText<D, A> {
    ghost use Rattle.warg_log.specs.declared.log.TheConstants.{GREATEST_LENGTH};
    ghost use Rattle.std.specs.Prelude.{◌≤◌, map};
    ghost use Rattle.std.specs.List.{AllByRecursion};
    ghost use Rattle.warg_tiles.specs.CheckpointText.{Said, IsLine};

    ghost Value = { Said };

    ghost view = { λ t. record {
      origin = t.origin.items;
      length = t.checkpoint.length;
      root = t.checkpoint.root;
      extensions = map (λ l. l.items) t.extensions.items;
    } };

    ghost invariant = { λ t. IsLine t.origin.items × (t.checkpoint.length ≤ GREATEST_LENGTH)
        × AllByRecursion IsLine (map (λ l. l.items) t.extensions.items) };
}

impl<D, A: Allocator + Copy> CheckpointText<D, A> {
    /// The text that says this checkpoint of the log with this origin, with no further lines. `Origin` exactly if the
    /// origin is empty or has a newline; `Length` exactly if the length is above 2^63 and the origin is none; both
    /// before allocating, else it fails only if allocation fails.
    pub fn new(
        alloc: A,
        origin: &[u8],
        checkpoint: Checkpoint<D>,
    ) -> Result<Self, CheckpointTextError>
        ensures ok { IfOk result (λ text. text
            ≡ record {
              origin = origin.now;
              length = checkpoint.length;
              root = checkpoint.root;
              extensions = [];
            }) }
        ensures line { OnOk result (IsLine origin.now) }
        ensures origin { (result ≡ Err CheckpointTextError.Origin) ↔ (IsLine origin.now → ⊥) }
        ensures length { (result ≡ Err CheckpointTextError.Length)
            ↔ (IsLine origin.now × (GREATEST_LENGTH < checkpoint.length)) }
        ensures only { (result ≡ Err CheckpointTextError.Root → ⊥)
            × (result ≡ Err CheckpointTextError.Extension → ⊥) }
    {
        if !is_line(origin) {
            return Err(CheckpointTextError::Origin);
        }
        if checkpoint.length() > GREATEST_LENGTH {
            return Err(CheckpointTextError::Length);
        }
        Ok(CheckpointText {
            origin: Vec::from_slice(alloc, origin)?,
            checkpoint,
            extensions: Vec::new(alloc),
        })
    }

    /// Adds a further line. `Extension` exactly if it is empty or has a newline, before allocating; else it fails only
    /// if allocation fails. A refused call leaves the text as it was.
    pub fn push_extension(&mut self, extension: &[u8]) -> Result<(), CheckpointTextError>
        ensures ok { OnOk result
            (self.new
            ≡ record self.old { extensions = self.old.extensions ++ extension.now ∷ [] }) }
        ensures extension { (result ≡ Err CheckpointTextError.Extension)
            ↔ (IsLine extension.now → ⊥) }
        ensures only { IfErr result (λ e. (e ≡ CheckpointTextError.Extension → ⊥)
            → e ≡ CheckpointTextError.Memory) }
        ensures err { OnErr result (self.new ≡ self.old) }
    {
        if !is_line(extension) {
            return Err(CheckpointTextError::Extension);
        }
        let line = Vec::from_slice(*self.origin.allocator(), extension)?;
        self.extensions.push(line)?;
        Ok(())
    }

    /// The text that bytes begin with, and what is behind the empty line that ends it; none where the text goes up to
    /// the end. What stands there, as the signatures of a signed note, is the caller's to read.
    ///
    /// The first fault by name: `Origin`, `Length`, `Root`, `Extension`; a line that has no newline counts as a fault
    /// of its kind. Else it fails only if allocation fails. What is written is read as the same, and nothing else is
    /// read as it.
    pub fn read(
        alloc: A,
        bytes: &[u8],
    ) -> Result<(CheckpointText<D, A>, Option<&[u8]>), CheckpointTextError>
        ensures ok { IfOk result (λ read. CanBeSaid read.0
            × (bytes.now ≡ text_before read.0 (option_copied read.1))) }
        ensures err { IfErr result (IsFirstFault bytes.now) }
    {
        let Some((origin, rest)) = first_line(bytes) else {
            return Err(CheckpointTextError::Origin);
        };
        let Some((length, rest)) = length_in(rest) else {
            return Err(CheckpointTextError::Length);
        };
        let Some((root, rest)) = root_in(rest) else {
            return Err(CheckpointTextError::Root);
        };
        let mut text = CheckpointText::new(alloc, origin, Checkpoint::new(root, length))?;
        let behind = text.read_extensions(rest)?;
        Ok((text, behind))
    }

    // Adds the lines that bytes begin with, up to an empty one, and gives what is behind that.
    fn read_extensions<'a>(
        &mut self,
        bytes: &'a [u8],
    ) -> Result<Option<&'a [u8]>, CheckpointTextError>
        ensures ok { IfOk result (λ rest. (more : List (List ℕ)) × AllByRecursion IsLine more
            × (self.new ≡ record self.old { extensions = self.old.extensions ++ more })
            × (bytes.now ≡ lines more (behind (option_copied rest)))) }
        ensures err { IfErr result (IsExtensionFault bytes.now) }
    {
        let mut rest = bytes;
        'lines: while !rest.is_empty() {
            let Some((line, behind)) = split_line(rest) else {
                return Err(CheckpointTextError::Extension);
            };
            if line.is_empty() {
                return Ok(Some(behind));
            }
            self.push_extension(line)?;
            rest = behind;
        }
        Ok(None)
    }
}

impl<D, A: Allocator> CheckpointText<D, A> {
    /// The text's bytes. It fails only if allocation fails.
    pub fn write<B: Allocator + Copy>(&self, alloc: B) -> Result<Vec<u8, B>, AllocError>
        ensures { IfOk result (λ bytes. bytes.items ≡ text_of self.now) }
    {
        let mut bytes = Vec::new(alloc);
        push_line(&mut bytes, self.origin.as_slice())?;
        push_length(&mut bytes, alloc, self.checkpoint.length())?;
        push_root(&mut bytes, alloc, &self.checkpoint.root())?;
        push_lines(&mut bytes, self.extensions.as_slice())?;
        Ok(bytes)
    }

    /// The log's origin, at least one byte, with no newline.
    pub fn origin(&self) -> &[u8]
        ensures value { result.now ≡ self.now.origin }
        ensures line { IsLine result.now }
    {
        self.origin.as_slice()
    }

    /// The log's root and length.
    pub fn checkpoint(&self) -> Checkpoint<D>
        ensures root { result.root ≡ self.now.root }
        ensures length { result.length ≡ self.now.length }
        ensures fits { result.length ≤ GREATEST_LENGTH }
    {
        Checkpoint::new(self.checkpoint.root(), self.checkpoint.length())
    }

    /// The further lines, each at least one byte, with no newline.
    pub fn extensions(&self) -> &[Vec<u8, A>]
        ensures value { map (λ l. l.items) result.now ≡ self.now.extensions }
        ensures lines { AllByRecursion IsLine self.now.extensions }
    {
        self.extensions.as_slice()
    }
}

// Whether bytes can be a line: there is one, and none is a newline.
fn is_line(bytes: &[u8]) -> bool
    ensures { IsTrue result ↔ IsLine bytes.now }
{
    !bytes.is_empty() && bytes.iter().all(|byte| *byte != b'\n')
}

// The bytes before the first newline, and those behind it.
fn split_line(bytes: &[u8]) -> Option<(&[u8], &[u8])>
    ensures { MatchOption result (HasNoNewline bytes.now)
        (λ parts. HasNoNewline parts.0.now × (bytes.now ≡ line parts.0.now parts.1.now)) }
{
    let end = bytes.iter().position(|byte| *byte == b'\n')?;
    Some((&bytes[..end], &bytes[end + 1..]))
}

// The first line of bytes, if it isn't empty, and the bytes behind it.
fn first_line(bytes: &[u8]) -> Option<(&[u8], &[u8])>
    ensures { MatchOption result (HasOrigin bytes.now → ⊥)
        (λ parts. IsLine parts.0.now × (bytes.now ≡ line parts.0.now parts.1.now)) }
{
    let (line, rest) = split_line(bytes)?;
    if line.is_empty() {
        None
    } else {
        Some((line, rest))
    }
}

// The length that the first line of bytes says, and the bytes behind it.
fn length_in(bytes: &[u8]) -> Option<(usize, &[u8])>
    ensures { MatchOption result ((n : ℕ) (rest : List ℕ) → n ≤ GREATEST_LENGTH
        → bytes.now ≢ length_line n rest) (λ parts. (parts.0 ≤ GREATEST_LENGTH)
        × (bytes.now ≡ length_line parts.0 parts.1.now)) }
{
    let (line, rest) = split_line(bytes)?;
    let length = decimal_in(str::from_utf8(line).ok()?)?;
    if length > GREATEST_LENGTH {
        None
    } else {
        Some((length, rest))
    }
}

// The root that the first line of bytes says, and the bytes behind it.
fn root_in<D>(bytes: &[u8]) -> Option<(Hash<D>, &[u8])>
    ensures { MatchOption result ((root rest : List ℕ) → IsDigest root
        → bytes.now ≢ root_line root rest) (λ parts. IsDigest parts.0
        × (bytes.now ≡ root_line parts.0 parts.1.now)) }
{
    let (line, rest) = split_line(bytes)?;
    if line.len() > 44 {
        return None;
    }
    let mut decoded = [0; 33];
    let Ok(count) = STANDARD.decode_slice_unchecked(line, &mut decoded) else {
        return None;
    };
    let root = Hash::try_from(&decoded[..count]).ok()?;
    let _digest = root.bytes();
    Some((root, rest))
}

// Writes the line of a length.
fn push_length<A: Allocator + Copy>(
    bytes: &mut Vec<u8, A>,
    alloc: A,
    length: usize,
) -> Result<(), AllocError>
    ensures { OnOk result (bytes.new.items ≡ bytes.old.items ++ (decimal length ++ 10 ∷ [])) }
{
    let length = length.to_string(alloc)?;
    push_line(bytes, length.as_bytes())
}

// Writes the line of a root.
fn push_root<D, A: Allocator + Copy>(
    bytes: &mut Vec<u8, A>,
    alloc: A,
    root: &Hash<D>,
) -> Result<(), AllocError>
    ensures { OnOk result (bytes.new.items
        ≡ bytes.old.items ++ (encode_of standard root.now ++ 10 ∷ [])) }
{
    let root = STANDARD.encode(alloc, root.bytes())?;
    push_line(bytes, root.as_bytes())
}

// Writes a line and its newline.
fn push_line<A: Allocator>(bytes: &mut Vec<u8, A>, line: &[u8]) -> Result<(), AllocError>
    ensures { OnOk result (bytes.new.items ≡ bytes.old.items ++ (line.now ++ 10 ∷ [])) }
{
    bytes.extend_from_slice(line)?;
    bytes.push(b'\n')?;
    Ok(())
}

// Writes lines and their newlines.
#[tactic(auto, unfolding(crate::specs::CheckpointText::lines))]
fn push_lines<A: Allocator, B: Allocator>(
    bytes: &mut Vec<u8, A>,
    extensions: &[Vec<u8, B>],
) -> Result<(), AllocError>
    ensures { OnOk result (bytes.new.items ≡ bytes.old.items ++ lines
        (map (λ l. l.items) extensions.now) []) }
{
    'extensions: for extension in extensions {
        push_line(bytes, extension.as_slice())?;
    }
    Ok(())
}
