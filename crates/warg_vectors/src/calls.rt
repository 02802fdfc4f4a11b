//! The calls, by their names.

mod bundles;
mod checks;
mod logs;
mod map_proofs;
mod map_witnesses;
mod maps;
mod messages;
mod nodes;
mod page_commits;
mod pages;
mod paths;
mod proofs;
mod stored;
mod texts;
mod tiles;
mod witnesses;

use crate::call::Call;
use crate::fault::{Answered, Fault};
use crate::memory::Memory;
use warg_crypto::weak::{Flat, Own32, Sum};
use warg_crypto::{Sha256, SupportedDigest};
use warg_log::{StackLog, VecLog};

/// Answers a call. Its first word is its name.
pub(crate) fn answer<M: Memory>(call: &mut Call<'_, M>) -> Answered {
    match call.word()? {
        "broots" => call.with(nodes::broots),
        "exists" => call.with(nodes::exists),
        "next" => call.with(nodes::next),
        "first" => call.with(nodes::first),
        "walk" => call.with(proofs::walk),
        "inclusions" => call.with(proofs::inclusions),
        name => of_node(name, call),
    }
}

// Answers a call that takes a node alone.
fn of_node<M: Memory>(name: &str, call: &mut Call<'_, M>) -> Answered {
    match name {
        "height" => call.with(nodes::height),
        "side" => call.with(nodes::side),
        "children" => call.with(nodes::children),
        "parent" | "sibling" | "left_sibling" | "right_sibling" => nodes::other(name, call),
        "leftmost" | "rightmost" => nodes::other(name, call),
        _ => of_text(name, call),
    }
}

// Answers a call on messages and texts.
fn of_text<M: Memory>(name: &str, call: &mut Call<'_, M>) -> Answered {
    match name {
        "wire" => wire(call),
        "read" => read(call),
        "run" => call.with(messages::run),
        "checkpoint_text" => call.with(texts::checkpoint_text),
        "read_checkpoint_text" => call.with(texts::read_checkpoint_text),
        "page_path" => call.with(pages::page_path),
        "read_page" => call.with(pages::read_page),
        _ => of_tile(name, call),
    }
}

fn of_tile<M: Memory>(name: &str, call: &mut Call<'_, M>) -> Answered {
    match name {
        "tile_over" => call.with(tiles::tile_over),
        "tile_path" => call.with(tiles::tile_path),
        "entries_path" => call.with(tiles::entries_path),
        "read_tile_path" => call.with(tiles::read_tile_path),
        "tiles_between" => call.with(tiles::tiles_between),
        "entry_bundle" => call.with(tiles::entry_bundle),
        "read_entry_bundle" => call.with(tiles::read_entry_bundle),
        _ => check(name, call),
    }
}

// Answers a call on a message of the wire.
fn wire<M: Memory>(call: &mut Call<'_, M>) -> Answered {
    match call.word()? {
        "LogProofBundle" => call.with(messages::wire::<M, warg_protobuf::LogProofBundle<M>>),
        "MapProofBundle" => call.with(messages::wire::<M, warg_protobuf::MapProofBundle<M>>),
        "StackLog" => call.with(messages::wire::<M, warg_protobuf::StackLog<M>>),
        "VecLog" => call.with(messages::wire::<M, warg_protobuf::VecLog<M>>),
        _ => Err(Fault::BadCall),
    }
}

// Answers a call on a value's bytes, under SHA-256.
fn read<M: Memory>(call: &mut Call<'_, M>) -> Answered {
    match call.word()? {
        "LogProofBundle" => call.with(stored::read::<M, stored::LogBundle<Sha256, M>>),
        "MapProofBundle" => call.with(stored::read::<M, stored::MapBundle<Sha256, M>>),
        "StackLog" => call.with(stored::read::<M, StackLog<Sha256, Vec<u8>, M>>),
        "VecLog" => call.with(stored::read::<M, VecLog<Sha256, Vec<u8>, M>>),
        _ => Err(Fault::BadCall),
    }
}

// Answers a call for a verdict, under SHA-256.
fn check<M: Memory>(name: &str, call: &mut Call<'_, M>) -> Answered {
    match name {
        "check_inclusion" => call.with(checks::inclusion),
        "check_consistency" => call.with(checks::consistency),
        "check_entry" => call.with(checks::entry),
        "check_growth" => call.with(checks::growth),
        "check_record" => call.with(checks::record),
        "check_tree" => call.with(checks::tree),
        _ => check_key(name, call),
    }
}

// Answers a call for a verdict on a key.
fn check_key<M: Memory>(name: &str, call: &mut Call<'_, M>) -> Answered {
    match name {
        "check_key" => call.with(checks::key),
        "check_absent" => call.with(checks::absent),
        "check_update" => call.with(checks::update),
        "check_insertion" => call.with(checks::insertion),
        _ => by_digest(name, call),
    }
}

// Answers a call whose first word behind its name is its digest function's.
fn by_digest<M: Memory>(name: &str, call: &mut Call<'_, M>) -> Answered {
    match call.word()? {
        "Sha256" => of_log::<Sha256, M>(name, call),
        "Sum" => of_log::<Sum, M>(name, call),
        "Own32" => of_log::<Own32, M>(name, call),
        "Flat" => of_log::<Flat, M>(name, call),
        _ => Err(Fault::BadCall),
    }
}

fn of_log<D: SupportedDigest, M: Memory>(name: &str, call: &mut Call<'_, M>) -> Answered {
    match name {
        "log" => logs::log::<D, M>(call),
        "evaluate_value" => call.with(proofs::evaluate_value::<D, M>),
        "evaluate_hash" => call.with(proofs::evaluate_hash::<D, M>),
        "consistency" => call.with(proofs::consistency::<D, M>),
        "bundle" => call.with(bundles::bundle::<D, M>),
        "tile_hashes" => tiles::tile_hashes::<D, M>(call),
        "tile_data" => tiles::tile_data::<D, M>(call),
        _ => of_path::<D, M>(name, call),
    }
}

fn of_path<D: SupportedDigest, M: Memory>(name: &str, call: &mut Call<'_, M>) -> Answered {
    match name {
        "inclusion_path" => call.with(paths::inclusion_path::<D, M>),
        "consistency_path" => call.with(paths::consistency_path::<D, M>),
        "root_of_inclusion" => call.with(paths::root_of_inclusion::<D, M>),
        "roots_of_consistency" => call.with(paths::roots_of_consistency::<D, M>),
        _ => witness::<D, M>(name, call),
    }
}

fn witness<D: SupportedDigest, M: Memory>(name: &str, call: &mut Call<'_, M>) -> Answered {
    match name {
        "witness_value" => call.with(witnesses::value::<D, M>),
        "witness_hash" => call.with(witnesses::hash::<D, M>),
        "witness_consistency" => call.with(witnesses::consistency::<D, M>),
        "witness_record" => call.with(witnesses::record::<D, M>),
        "witness_tree" => call.with(witnesses::tree::<D, M>),
        "agree_value" => call.with(witnesses::agree_value::<D, M>),
        "agree_record" => call.with(witnesses::agree_record::<D, M>),
        _ => witness_key::<D, M>(name, call),
    }
}

fn witness_key<D: SupportedDigest, M: Memory>(name: &str, call: &mut Call<'_, M>) -> Answered {
    match name {
        "witness_key" => call.with(map_witnesses::key::<D, M>),
        "witness_absent" => call.with(map_witnesses::absent::<D, M>),
        "witness_update" => call.with(map_witnesses::update::<D, M>),
        "agree_key" => call.with(map_witnesses::agree::<D, M>),
        _ => of_map::<D, M>(name, call),
    }
}

fn of_map<D: SupportedDigest, M: Memory>(name: &str, call: &mut Call<'_, M>) -> Answered {
    match name {
        "map" => maps::map::<D, M>(call),
        "insert_with_proof" => maps::insert_with_proof::<D, M>(call),
        "prove" => maps::prove::<D, M>(call, false),
        "prove_absence" => maps::prove::<D, M>(call, true),
        "map_bundle" => bundles::map_bundle::<D, M>(call),
        "map_proof" => map_proofs::map_proof::<D, M>(call),
        "evaluate" => call.with(map_proofs::evaluate::<D, M>),
        "evaluate_absent" => call.with(map_proofs::evaluate_absent::<D, M>),
        _ => of_page::<D, M>(name, call),
    }
}

fn of_page<D: SupportedDigest, M: Memory>(name: &str, call: &mut Call<'_, M>) -> Answered {
    match name {
        "page" => page_commits::page::<D, M>(call),
        "pages" => page_commits::pages::<D, M>(call),
        "page_digest" => pages::page_digest::<D, M>(call),
        "get" => pages::get::<D, M>(call),
        _ => Err(Fault::BadCall),
    }
}
