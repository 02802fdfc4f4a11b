//! A log as it is read by the served checkpoint alone, beside one that is compared with the log's state.

use crate::crashes::crashed;
use crate::log_damage::{names, rolled_back};
use crate::log_folder::{Steps, checkpoint_of, two_commits};
use std::process::Abort;
use warg_store::{Folder, LogError, LogReader};

// The log by the served checkpoint alone.
fn served<F: Folder + Drop>(rt: &(impl AllocGlobal + Abort), folder: F) -> LogReader<F> {
    LogReader::open_served(rt.alloc(), folder).expect(rt, "a log")
}

#[test]
fn an_older_checkpoint_is_noticed_beside_the_state_alone(rt: HostRuntime) {
    let mut reader = served(&rt, rolled_back(&rt));
    assert!(rt; reader.checkpoint() == checkpoint_of(&rt, 2));
    assert!(rt; reader.audit(&mut Steps(0)) == Ok(reader.checkpoint()));
    let compared = LogReader::open(rt.alloc(), reader.into_folder());
    assert!(rt;
        matches!(
            compared,
            Err(LogError::RolledBack {
                found: 2,
                newest: 4
            })
        )
    );
}

#[test]
fn the_state_is_not_read(rt: HostRuntime) {
    let (mut folder, _) = two_commits(&rt, 2, 4);
    folder
        .replace(".log/state", b"no text")
        .expect(&rt, "a change");
    let reader = served(&rt, folder);
    assert!(rt; reader.checkpoint() == checkpoint_of(&rt, 4));
    let compared = LogReader::open(rt.alloc(), reader.into_folder());
    assert!(rt; matches!(compared, Err(LogError::Damaged(_))));
}

// Why a folder serves no log.
fn refusal<F: Folder + Drop>(rt: &impl AllocGlobal, folder: F) -> Option<LogError> {
    LogReader::open_served(rt.alloc(), folder).err()
}

#[test]
fn a_checkpoint_is_needed(rt: HostRuntime) {
    let (mut folder, _) = two_commits(&rt, 2, 4);
    folder
        .replace("checkpoint", b"no text")
        .expect(&rt, "a change");
    assert!(rt; names(&refusal(&rt, folder).expect(&rt, "an error"), "checkpoint"));
    let (mut folder, _) = two_commits(&rt, 2, 4);
    folder.remove("checkpoint").expect(&rt, "a change");
    assert!(rt; refusal(&rt, folder) == Some(LogError::NoLog));
}

#[test]
fn one_log_or_the_next_is_read_at_each_moment(rt: HostRuntime) {
    let (folder, first) = two_commits(&rt, 2, 4);
    let logs = [checkpoint_of(&rt, 2), checkpoint_of(&rt, 4)];
    for moment in first..folder.calls().len() + 1 {
        let left = crashed(&rt, &folder.calls()[..moment], 0);
        let found = served(&rt, left)
            .audit(&mut Steps(0))
            .expect(&rt, "an audit");
        assert!(rt; logs.contains(&found));
    }
}
