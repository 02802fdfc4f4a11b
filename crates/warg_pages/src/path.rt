//! The paths under which pages are served.

ghost use Rattle.std.specs.Prelude.{◌≡◌, IfOk, string_bytes};
ghost use Rattle.warg_pages.specs.PagePaths.{page_path};

use std::alloc::{AllocError, Allocator};

/// The path under which the page at a prefix is served, of a version: `map/`, for each byte of the prefix `x`, its two
/// hexadecimal digits and a slash, and the version in decimal, as `map/xa0/x3f/69120`. It fails only if allocation fails.
pub fn page_path<A: Allocator>(
    alloc: A,
    prefix: &[u8],
    version: u64,
) -> Result<String<A>, AllocError>
    ensures { IfOk result (λ path. string_bytes path ≡ page_path prefix.now version) }
{
    let mut path = String::from_str(alloc, "map/")?;
    'bytes: for byte in prefix {
        write!(path, "x{byte:02x}/")?;
    }
    write!(path, "{version}")?;
    Ok(path)
}
