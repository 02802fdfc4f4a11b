//! Paths of a log in digests, and the roots to which they lead.

use crate::call::Call;
use crate::fault::Answered;
use crate::memory::Memory;
use crate::words::{Data, Length};
use warg_crypto::{Hash, SupportedDigest};

// The index of an entry, or an old length, and the length of the log.
type Place = (usize, usize);

pub(super) fn inclusion_path<D: SupportedDigest, M: Memory>(
    call: &mut Call<'_, M>,
    (index, length, data): &(usize, Length, Data<D>),
) -> Answered {
    let path = warg_paths::inclusion_path(call.memory, &data.held, *index, length.value);
    data.unless_changed()?;
    call.write_list(path)
}

pub(super) fn consistency_path<D: SupportedDigest, M: Memory>(
    call: &mut Call<'_, M>,
    (old, new, data): &(usize, Length, Data<D>),
) -> Answered {
    let path = warg_paths::consistency_path(call.memory, &data.held, *old, new.value);
    data.unless_changed()?;
    call.write_list(path)
}

pub(super) fn root_of_inclusion<D: SupportedDigest, M: Memory>(
    call: &mut Call<'_, M>,
    ((index, length), leaf, path): &(Place, Hash<D>, Vec<Hash<D>>),
) -> Answered {
    match warg_paths::root_of_inclusion(*index, *length, leaf, path) {
        Some(root) => call.to.show(&root),
        None => call.to.word("none"),
    }
}

pub(super) fn roots_of_consistency<D: SupportedDigest, M: Memory>(
    call: &mut Call<'_, M>,
    ((old, new), old_root, path): &(Place, Hash<D>, Vec<Hash<D>>),
) -> Answered {
    match warg_paths::roots_of_consistency(*old, *new, old_root, path) {
        Some((old_root, new_root)) => {
            let pair = format!(in call.alloc(); "{old_root}:{new_root}")?;
            call.to.word(pair.as_str())
        }
        None => call.to.word("none"),
    }
}
