//! The pages that insertions write, as a map kept in pages alone hands them out.

ghost use Rattle.std.specs.Prelude.{◌≤◌, length};

use crate::answer::{Item, digits_of};
use crate::call::Call;
use crate::calls::maps::{BytesMap, Pair, grown};
use crate::fault::{Answered, Fault, Promise};
use crate::memory::Memory;
use std::alloc::{AllocError, Global};
use warg_crypto::SupportedDigest;
use warg_pages::{ChangedPage, PagedMap, Pages, ProveError, WayError};

/// The version and the bytes of the page at a prefix, or `none`.
pub(super) fn page<D: SupportedDigest, M: Memory>(call: &mut Call<'_, M>) -> Answered {
    let (pairs, prefix): (Vec<Pair>, Vec<u8>) = call.read()?;
    let mut kept: Kept<D, M> = Kept::new(call);
    kept.commit(pairs.as_slice())?;
    match kept.pages.newest(prefix.as_slice()) {
        Some(page) => write(call, page),
        None => call.to.word("none"),
    }
}

fn write<D, M: Memory>(call: &mut Call<'_, M>, page: &ChangedPage<D, M>) -> Answered {
    let bytes = call.made(page.page.write(call.memory))?;
    call.to.show(&page.version)?;
    call.to.bytes(bytes.as_slice())
}

/// The pages that a commit behind the first insertions writes, ascending by their prefixes. The root is then the map's.
pub(super) fn pages<D: SupportedDigest, M: Memory>(call: &mut Call<'_, M>) -> Answered {
    let (pairs, old): (Vec<Pair>, usize) = call.read()?;
    let changed = changed_pages::<D, M>(call, pairs.as_slice(), old)?;
    call.to.list(changed.as_slice())
}

fn changed_pages<D: SupportedDigest, M: Memory>(
    call: &Call<'_, M>,
    pairs: &[Pair],
    old: usize,
) -> Result<Vec<ChangedPage<D, M>>, Fault> {
    let mut kept: Kept<D, M> = Kept::new(call);
    let changed = kept.commit_both(pairs, old)?;
    let map: BytesMap<'_, D, _> = grown(call.alloc(), pairs)?;
    Fault::unless(kept.map.root == *map.root(), Promise::SameRoot)?;
    Ok(changed)
}

/// The name of a page: its prefix and its version.
impl<D, M: Memory> Item for ChangedPage<D, M> {
    fn item(&self, alloc: Global) -> Result<String, AllocError> {
        let prefix = digits_of(alloc, self.prefix.as_slice())?;
        let version = self.version;
        format!(in alloc; "{prefix}:{version}")
    }
}

/// A map with all pages that it has handed out.
#[derive(Drop)]
pub(super) struct Kept<D: SupportedDigest, M: Memory> {
    pub(super) map: PagedMap<D>,
    pub(super) pages: Stock<D, M>,
}

/// The pages, which are lent in a call's memory.
#[derive(Drop)]
pub(super) struct Stock<D, M: Memory> {
    pages: Vec<ChangedPage<D, M>>,
    memory: M,
}

impl<D, M: Memory> Pages<M> for Stock<D, M> {
    ghost use Rattle.std.specs.Prelude.{None};

    type Error = Fault;

    // The vectors say which pages these are.
    ghost Known = { Unit {0} };

    ghost IsKnown = { λ _ _. Unit {0} };

    ghost bytes_at = { λ _ _ _. None };

    ghost tells_all = { λ _. ⊥ };

    fn page(&mut self, prefix: &[u8], version: u64) -> Result<Vec<u8, M>, Fault> {
        for page in &self.pages {
            if page.prefix.as_slice() == prefix && page.version == version {
                return Ok(page.page.write(self.memory)?);
            }
        }
        Err(Fault::Broken(Promise::Answer))
    }
}

impl<D, M: Memory> Stock<D, M> {
    // The newest page at a prefix.
    fn newest(&self, prefix: &[u8]) -> Option<&ChangedPage<D, M>> {
        let mut newest = None;
        for page in &self.pages {
            if page.prefix.as_slice() == prefix {
                newest = Some(page);
            }
        }
        newest
    }
}

impl<D: SupportedDigest, M: Memory> Kept<D, M> {
    pub(super) fn new(call: &Call<'_, M>) -> Kept<D, M> {
        Kept {
            map: PagedMap::new(),
            pages: Stock {
                pages: Vec::new(call.alloc()),
                memory: call.memory,
            },
        }
    }

    // Inserts the first pairs, and then the others, and gives the pages that these change.
    fn commit_both(&mut self, pairs: &[Pair], old: usize) -> Result<Vec<ChangedPage<D, M>>, Fault> {
        let (front, rest) = pairs.split_at(old.min(pairs.len()));
        self.commit(front)?;
        in_order(*self.pages.pages.allocator(), self.insert(rest)?)
    }

    /// Inserts pairs, and keeps the pages that change.
    pub(super) fn commit(&mut self, pairs: &[Pair]) -> Answered {
        for page in self.insert(pairs)? {
            self.pages.pages.push(page)?;
        }
        Ok(())
    }

    // Inserts pairs, and gives the pages that change.
    fn insert(&mut self, pairs: &[Pair]) -> Result<Vec<ChangedPage<D, M>, M>, Fault> {
        if pairs.len() as u64 > u64::MAX - self.map.version {
            return Err(Fault::BadCall);
        }
        let memory = self.pages.memory;
        match self.map.insert_all(memory, &mut self.pages, pairs) {
            Ok(changed) => Ok(changed),
            Err(ProveError::Pages(fault)) => Err(fault),
            Err(ProveError::Way(WayError::Memory)) => Err(Fault::Memory),
            Err(ProveError::Way(_)) => Err(Fault::Broken(Promise::Answer)),
        }
    }
}

// The pages, ascending by their prefixes.
fn in_order<D, M: Memory>(
    alloc: Global,
    pages: Vec<ChangedPage<D, M>, M>,
) -> Result<Vec<ChangedPage<D, M>>, Fault> {
    let mut sorted = Vec::new(alloc);
    for page in pages {
        let at = place_of(sorted.as_slice(), page.prefix.as_slice());
        sorted.insert(at, page)?;
    }
    Ok(sorted)
}

// Where the first page of a greater prefix stands.
fn place_of<D, M: Memory>(pages: &[ChangedPage<D, M>], prefix: &[u8]) -> usize
    ensures { result ≤ length pages.now }
{
    for at in 0..pages.len() {
        let page = &pages[at];
        if prefix < page.prefix.as_slice() {
            return at;
        }
    }
    pages.len()
}
