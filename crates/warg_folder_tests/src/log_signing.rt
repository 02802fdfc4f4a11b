//! Signed checkpoints of a log in a folder in memory: what is served beside what is kept.

ghost use Rattle.warg_store.specs.Growing.{IsReady};

use crate::log_folder::{checkpoint_of, commit_some, new_log, opened, reader_of, with_log};
use std::process::Abort;
use warg_store::{Folder, LogFolder, LogReader, MemoryFolder, SignError};

// The checkpoint's text of a log, signed.
fn signed_text<F: Folder + Drop>(rt: &impl Abort, reader: &mut LogReader<F>) -> Vec<u8> {
    let mut note = reader.checkpoint_text().expect(rt, "a text");
    note.extend_from_slice(b"\nsigned\n").expect(rt, "memory");
    note
}

// Signs a log's text, and commits two entries more.
fn sign_and_grow<F: Folder + Drop>(rt: &impl Abort, log: &mut LogFolder<F>, note: &[u8])
    requires { F.IsFaithful → IsReady F.seen F.may_leave log.old }
{
    log.sign(note).expect(rt, "a signature");
    commit_some(rt, log, 1, 3);
}

// The folder, which was empty, with a log of three entries that serves a signed note of its first one; and the note.
fn with_signature<F: Folder + Drop>(
    rt: &(impl AllocGlobal + Abort),
    folder: F,
) -> (LogFolder<F>, Vec<u8>) {
    let mut reader = reader_of(rt, with_log(rt, folder, 1));
    let note = signed_text(rt, &mut reader);
    let mut log = LogFolder::open(rt.alloc(), reader.into_folder()).expect(rt, "a log");
    sign_and_grow(rt, &mut log, note.as_slice());
    (log, note)
}

// A text that is signed is served until another one is. It isn't signed again, and nothing is spare then.
#[test]
fn a_signed_checkpoint_stays_until_another_is_signed(rt: HostRuntime) {
    let (log, note) = with_signature(&rt, MemoryFolder::new(rt.alloc()));
    let reader = reader_of(&rt, log.into_folder());
    assert!(rt; reader.checkpoint() == checkpoint_of(&rt, 1));
    let mut log = opened(&rt, reader.into_folder());
    assert!(rt; log.checkpoint() == checkpoint_of(&rt, 3));
    assert!(rt; log.sign(note.as_slice()) == Err(SignError::Text) && log.prune() == Ok(0));
    let mut newest = log.text().write(rt.alloc()).expect(&rt, "memory");
    newest
        .extend_from_slice(b"\nsigned\n")
        .expect(&rt, "memory");
    assert!(rt; log.sign(newest.as_slice()) == Ok(()));
    assert!(rt; reader_of(&rt, log.into_folder()).checkpoint() == checkpoint_of(&rt, 3));
}

#[test]
fn what_is_served_is_told_beside_what_is_kept(rt: HostRuntime) {
    let (mut log, _) = with_signature(&rt, MemoryFolder::new(rt.alloc()));
    let first = checkpoint_of(&rt, 1);
    assert!(rt; log.served().expect(&rt, "a text").checkpoint() == first);
    assert!(rt; log.text().checkpoint() == checkpoint_of(&rt, 3));
    let reader = reader_of(&rt, log.into_folder());
    assert!(rt; reader.text().checkpoint() == first);
}

#[test]
fn a_text_without_a_signature_is_not_served(rt: HostRuntime) {
    let mut log = new_log(&rt, MemoryFolder::new(rt.alloc()));
    let text = log.text().write(rt.alloc()).expect(&rt, "memory");
    assert!(rt; log.sign(text.as_slice()) == Err(SignError::Text));
}
