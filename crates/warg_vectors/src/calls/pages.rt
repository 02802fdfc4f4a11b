//! Pages of a map: their bytes, digests and paths, and what stands under a key by way of them.

use crate::call::Call;
use crate::calls::maps::Pair;
use crate::calls::page_commits::Kept;
use crate::fault::{Answered, Fault, Promise};
use crate::memory::Memory;
use warg_crypto::{Sha256, SupportedDigest};
use warg_pages::{KeyInPages, MapPage, ProveError, prove_by_pages};

pub(super) fn page_path<M: Memory>(
    call: &mut Call<'_, M>,
    (prefix, version): &(Vec<u8>, usize),
) -> Answered {
    let path = call.made(warg_pages::page_path(call.memory, prefix, *version as u64))?;
    call.to.bytes(path.as_bytes())
}

/// The number of a page's slots. The page is written as its bytes, and each slot is found by its byte.
pub(super) fn read_page<M: Memory>(call: &mut Call<'_, M>, bytes: &Vec<u8>) -> Answered {
    let page: MapPage<Sha256, M> = call.made(MapPage::read(call.memory, bytes))?;
    expect_its_bytes(call, &page, bytes)?;
    Fault::unless(finds_its_slots(&page), Promise::Answer)?;
    call.to.show(&page.slots().len())
}

fn expect_its_bytes<M: Memory>(
    call: &Call<'_, M>,
    page: &MapPage<Sha256, M>,
    bytes: &[u8],
) -> Answered {
    let written = call.made(page.write(call.memory))?;
    Fault::unless(written.as_slice() == bytes, Promise::SameValue)
}

fn finds_its_slots<D, M: Memory>(page: &MapPage<D, M>) -> bool {
    for slot in page.slots() {
        if page.slot(slot.byte).is_none() {
            return false;
        }
    }
    true
}

pub(super) fn page_digest<D: SupportedDigest, M: Memory>(call: &mut Call<'_, M>) -> Answered {
    let (depth, bytes): (usize, Vec<u8>) = call.read()?;
    if depth >= 32 {
        return call.to.word("no page's depth");
    }
    let page: MapPage<D, M> = call.made(MapPage::read(call.memory, bytes.as_slice()))?;
    call.to.show(&page.digest(depth))
}

/// The index of the last insertion under a key's digest, if there is one, and the proof, by way of the pages of the
/// insertions.
pub(super) fn get<D: SupportedDigest, M: Memory>(call: &mut Call<'_, M>) -> Answered {
    let (insertions, key): (Vec<Pair>, Vec<u8>) = call.read()?;
    let mut kept: Kept<D, M> = Kept::new(call);
    kept.commit(insertions.as_slice())?;
    let (root, version) = (kept.map.root.copied(), kept.map.version);
    let found = prove_by_pages(call.memory, &mut kept.pages, &root, version, &key);
    write_found(call, found)
}

fn write_found<D, M: Memory>(
    call: &mut Call<'_, M>,
    found: Result<KeyInPages<D, M>, ProveError<Fault>>,
) -> Answered {
    match found {
        Ok(KeyInPages::Held(index, _, peers)) => {
            call.to.show(&index)?;
            call.to.list(peers.as_slice())
        }
        Ok(KeyInPages::Absent(peers)) => {
            call.to.word("absent")?;
            call.to.list(peers.as_slice())
        }
        Err(ProveError::Pages(fault)) => Err(fault),
        Err(ProveError::Way(fault)) => call.made(Err(fault)),
    }
}
