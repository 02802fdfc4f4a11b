//! The pages of a map.

ghost use Rattle.std.specs.Prelude.{◌≡◌, ◌≢◌, ◌<◌, ◌++◌, ◌↔◌, [], List, Err, IfOk, IfErr, IfSome, IsTrue, OnOk};
ghost use Rattle.std.specs.List.{All, cons_option};
ghost use Rattle.std.specs.Option.{option_copied};
ghost use Rattle.warg_pages.specs.Slots.{SlotAt, Ascends, IsPage};
ghost use Rattle.warg_pages.specs.Pages.{page_digest, slot_at};
ghost use Rattle.warg_pages.specs.PageBytes.{page_bytes};

use crate::bytes::{first_slot, write_slot};
use crate::error::{PageError, WayError};
use crate::root::page_root;
use crate::slot::Slot;
use std::alloc::{AllocError, Allocator, Global};
use std::marker::Model;
use warg_crypto::{Hash, SupportedDigest};

/// A page of a sparse map: the eight levels of its tree below a prefix of whole bytes.
///
/// It has a slot for each byte with which a held key digest goes on behind the prefix, and the slots ascend by their
/// bytes.
pub struct MapPage<D, A: Allocator = Global> {
    slots: Vec<Slot<D>, A>,
}

// Contracts see the list of the slots.
impl<D, A: Allocator> Model for MapPage<D, A> {
    ghost use Rattle.std.specs.Prelude.{List};
    ghost use Rattle.warg_pages.specs.Slots.{SlotAt, IsPage};

    ghost Value = { List SlotAt };

    ghost view = { λ p. p.slots.items };

    ghost invariant = { λ p. IsPage p.slots.items };
}

impl<D, A: Allocator> Drop for MapPage<D, A> {
    fn drop(self) {
        let MapPage { slots: _ } = self;
    }
}

impl<D, A: Allocator> MapPage<D, A> {
    /// The page with these bytes. `BadPage` exactly if they are no page's: a slot is cut, slots don't ascend, or a kind
    /// isn't 0 or 1. Else it fails only if allocation fails. What was read is written as the same bytes.
    pub fn read(alloc: A, bytes: &[u8]) -> Result<MapPage<D, A>, PageError>
        ensures ok { IfOk result (λ page. bytes.now ≡ page_bytes page) }
        ensures bad { result ≡ Err PageError.BadPage → (slots : List SlotAt) → IsPage slots
            → bytes.now ≢ page_bytes slots }
    {
        let mut slots = Vec::new(alloc);
        let mut rest = bytes;
        'slots: while !rest.is_empty() {
            let Some((slot, behind)) = first_slot(rest) else {
                return Err(PageError::BadPage);
            };
            if !goes_on(slots.as_slice(), slot.byte) {
                return Err(PageError::BadPage);
            }
            slots.push(slot)?;
            rest = behind;
        }
        Ok(MapPage { slots })
    }

    /// The page's bytes. It fails only if allocation fails.
    pub fn write<B: Allocator>(&self, alloc: B) -> Result<Vec<u8, B>, AllocError>
        ensures { IfOk result (λ bytes. bytes.items ≡ page_bytes self.now) }
    {
        let mut bytes = Vec::new(alloc);
        'slots: for slot in &self.slots {
            write_slot(&mut bytes, slot)?;
        }
        Ok(bytes)
    }

    /// A page without slots.
    pub(crate) fn new(alloc: A) -> MapPage<D, A>
        ensures { result ≡ [] }
    {
        MapPage {
            slots: Vec::new(alloc),
        }
    }

    /// Puts a slot, if there is one, behind those of lower bytes.
    pub(crate) fn put_behind(&mut self, slot: Option<Slot<D>>) -> Result<(), WayError>
        requires { IfSome slot (λ x. All (λ y. y.byte < x.byte) self.old) }
        ensures ok { OnOk result (self.new ≡ self.old ++ cons_option slot []) }
        ensures err { IfErr result (λ e. e ≡ WayError.Memory) }
    {
        if let Some(slot) = slot {
            self.slots.push(slot)?;
        }
        Ok(())
    }

    /// The slots, ascending by their bytes.
    pub fn slots(&self) -> &[Slot<D>]
        ensures value { result.now ≡ self.now }
        ensures page { IsPage result.now }
    {
        self.slots.as_slice()
    }
}

impl<D, A: Allocator> MapPage<D, A> {
    /// The slot of a byte, or `None` if no held key digest goes on with it.
    pub fn slot(&self, byte: u8) -> Option<&Slot<D>>
        ensures { option_copied result ≡ slot_at self.now byte }
    {
        self.slots().iter().find(|slot| slot.byte == byte)
    }
}

impl<D: SupportedDigest, A: Allocator> MapPage<D, A> {
    /// The digest of the page, if it stands at a prefix of `depth` bytes: the root over its 256 slots.
    ///
    /// It hashes one branch for each node of the eight levels that has a slot below it.
    pub fn digest(&self, depth: usize) -> Hash<D>
        requires { depth < 32 }
        ensures { result ≡ page_digest D.digest depth self.now }
    {
        page_root(depth, self.slots())
    }
}

// Whether a slot with this byte goes behind ascending slots.
fn goes_on<D>(slots: &[Slot<D>], byte: u8) -> bool
    requires { Ascends slots.now }
    ensures { IsTrue result ↔ All (λ x. x.byte < byte) slots.now }
{
    match slots.last() {
        Some(last) => last.byte < byte,
        None => true,
    }
}
