//! What is pushed and discarded, and what stays of older lengths.

use crate::log_damage::audit_names;
use crate::log_folder::{checkpoint_of, count, passes_audit, two_commits};
use std::process::Abort;
use warg_store::{Folder, LogFolder};

// The log of a folder, once two entries more were pushed and discarded.
fn discarded<F: Folder + Drop>(rt: &(impl AllocGlobal + Abort), folder: F) -> LogFolder<F> {
    let mut log = LogFolder::open(rt.alloc(), folder).expect(rt, "a log");
    log.push(b"third").expect(rt, "a push");
    log.push(b"fourth").expect(rt, "a push");
    log.discard().expect(rt, "a log")
}

#[test]
fn what_is_discarded_was_never_pushed(rt: HostRuntime) {
    let mut log = discarded(&rt, two_commits(&rt, 1, 2).0);
    assert!(rt; log.checkpoint() == checkpoint_of(&rt, 2));
    assert!(rt; passes_audit(&rt, &mut log));
    assert!(rt; count(&rt, &mut log.into_folder(), ".log/staged/") == 0);
}

// The audit of a log of five entries names a file that it had at three, and that was changed.
#[test]
fn an_audit_reads_what_stays_of_older_lengths(rt: HostRuntime) {
    for name in ["tile/0/000.p/3", "tile/entries/000.p/3"] {
        let (mut folder, _) = two_commits(&rt, 3, 5);
        folder.replace(name, b"no file").expect(&rt, "a change");
        assert!(rt; audit_names(&rt, folder, name));
    }
}
