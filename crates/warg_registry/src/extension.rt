//! The line of a checkpoint's text that names the map's root.

ghost use Rattle.std.specs.Prelude.{◌≡◌, ◌≢◌, ℕ, ◌↔◌, List, [], ◌∷◌, Ok, None, IfOk, IfSome, OnErr, MatchOption};
ghost use Rattle.warg_crypto.specs.Digests.{IsDigest};
ghost use Rattle.warg_registry.specs.Registry.{line_of};

use crate::error::BadMapLine;
use base64::engine::general_purpose::STANDARD;
use std::alloc::{AllocError, Allocator};
use warg_crypto::Hash;
use warg_tiles::CheckpointText;

/// The further line that a registry's checkpoint has, for a map with this root: `map `, and the root in base64 with
/// padding. It fails only if allocation fails.
pub fn map_line<D, A: Allocator + Copy>(alloc: A, root: &Hash<D>) -> Result<Vec<u8, A>, AllocError>
    ensures { IfOk result (λ line. line.items ≡ line_of root.now) }
{
    let root = STANDARD.encode(alloc, root.bytes())?;
    let mut line = Vec::from_slice(alloc, b"map ")?;
    line.extend_from_slice(root.as_bytes())?;
    Ok(line)
}

/// The map's root that a checkpoint's text names: in the one further line of a registry. `None` exactly if the text has
/// no further lines, as that of a log without a map. `BadMapLine` exactly if it has others than that one line.
pub fn map_root<D, A: Allocator>(text: &CheckpointText<D, A>) -> Result<Option<Hash<D>>, BadMapLine>
    ensures none { (result ≡ Ok None) ↔ (text.now.extensions ≡ []) }
    ensures some { IfOk result (λ found. IfSome found (λ root. text.now.extensions
        ≡ line_of root ∷ [])) }
    ensures err { OnErr result ((root : List ℕ) → IsDigest root
        → text.now.extensions ≢ line_of root ∷ []) }
{
    match text.extensions() {
        [] => Ok(None),
        [line] => match root_in(line.as_slice()) {
            Some(root) => Ok(Some(root)),
            None => Err(BadMapLine),
        },
        _ => Err(BadMapLine),
    }
}

// The root that a line names.
fn root_in<D>(line: &[u8]) -> Option<Hash<D>>
    ensures { MatchOption result ((root : List ℕ) → IsDigest root → line.now ≢ line_of root)
        (λ root. line.now ≡ line_of root) }
{
    let digits = line.strip_prefix(b"map ")?;
    if digits.len() > 44 {
        return None;
    }
    let mut decoded = [0; 33];
    let Ok(count) = STANDARD.decode_slice_unchecked(digits, &mut decoded) else {
        return None;
    };
    match Hash::try_from(&decoded[..count]) {
        Ok(root) => Some(root),
        Err(_) => None,
    }
}
