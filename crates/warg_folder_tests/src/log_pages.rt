//! Pages and further lines of a log in a folder in memory: what was put is read, listed and removed.

ghost use Rattle.warg_tiles.specs.CheckpointText.{IsLine};
ghost use Rattle.warg_store.specs.Growing.{IsReady};

use crate::log_folder::{
    ORIGIN, checkpoint_of, is_file, keeps, new_log, opened, passes_audit, push_some, reader_of,
    with_more,
};
use std::process::Abort;
use warg_store::{Folder, LogFolder, LogReader, MemoryFolder};

// A further line of a checkpoint's text.
fn line(rt: &(impl AllocGlobal + Abort)) -> Vec<u8>
    ensures { IsLine result.items }
{
    Vec::from_slice(rt.alloc(), b"further").expect(rt, "memory")
}

// Pushes three entries and two pages, and commits them with a further line.
fn commit_pages<F: Folder + Drop>(rt: &(impl AllocGlobal + Abort), log: &mut LogFolder<F>)
    requires { F.IsFaithful → IsReady F.seen F.may_leave log.old }
{
    push_some(rt, log, 0, 3);
    log.put_page("a", b"first page").expect(rt, "a page");
    log.put_page("b/1", b"second").expect(rt, "a page");
    log.commit_with(&[line(rt)]).expect(rt, "a commit");
}

// The folder, which was empty, with a log of such pages.
fn with_pages<F: Folder + Drop>(rt: &(impl AllocGlobal + Abort), folder: F) -> LogFolder<F> {
    let mut log = new_log(rt, folder);
    commit_pages(rt, &mut log);
    log
}

// Whether the checkpoint's text ends in a further line.
fn has_line<F: Folder>(rt: &(impl AllocGlobal + Abort), folder: &mut F) -> bool {
    let text = folder
        .read(rt.alloc(), "checkpoint", 999)
        .expect(rt, "a file");
    text.expect(rt, "a text")
        .as_slice()
        .ends_with(b"\nfurther\n")
}

#[test]
fn pages_and_a_line_are_kept(rt: HostRuntime) {
    let folder = with_pages(&rt, MemoryFolder::new(rt.alloc())).into_folder();
    let mut folder = with_more(&rt, folder, 3, 5);
    assert!(rt; is_file(&rt, &mut folder, "map/a", 99, b"first page"));
    assert!(rt; is_file(&rt, &mut folder, "map/b/1", 9, b"second"));
    assert!(rt; has_line(&rt, &mut folder));
    assert!(rt; keeps(&rt, folder, 5));
}

// Whether a log has a page, whose front has these bytes.
fn has_page<F: Folder + Drop>(
    log: &mut LogFolder<F>,
    path: &str,
    most: usize,
    front: &[u8],
) -> bool {
    match log.page(path, most) {
        Ok(Some(page)) => page.as_slice() == front,
        _ => false,
    }
}

// Whether a reader finds a page with these bytes.
fn serves_page<F: Folder + Drop>(reader: &mut LogReader<F>, path: &str, bytes: &[u8]) -> bool {
    match reader.page(path, 9) {
        Ok(Some(page)) => page.as_slice() == bytes,
        _ => false,
    }
}

// A page is read by its path; there is none at another path, and a tile is none.
#[test]
fn a_page_is_read_by_its_path(rt: HostRuntime) {
    let mut log = with_pages(&rt, MemoryFolder::new(rt.alloc()));
    assert!(rt; log.page("b", 9) == Ok(None));
    assert!(rt; has_page(&mut log, "b/1", 9, b"second"));
    assert!(rt; has_page(&mut log, "a", 3, b"firs"));
    let mut reader = reader_of(&rt, log.into_folder());
    assert!(rt; serves_page(&mut reader, "b/1", b"second"));
    assert!(rt; reader.page("tile/0/000.p/3", 9) == Ok(None));
}

const EMPTY: &str = "example.com/log\n0\n47DEQpj8HBSa+/TImW+5JCeuQeRkm5NMpJWZG3hSuFU=\nfurther\n";

// The folder, which was empty, with a log of no entries and a further line.
fn with_line<F: Folder + Drop>(rt: &(impl AllocGlobal + Abort), folder: F) -> F {
    let log = LogFolder::create_with(rt.alloc(), folder, ORIGIN, &[line(rt)]);
    log.expect(rt, "a new log").into_folder()
}

#[test]
fn a_log_is_made_with_a_line(rt: HostRuntime) {
    let mut folder = with_line(&rt, MemoryFolder::new(rt.alloc()));
    assert!(rt; is_file(&rt, &mut folder, "checkpoint", 999, EMPTY.as_bytes()));
    let log = opened(&rt, folder);
    assert!(rt; log.length() == 0 && log.text().extensions().len() == 1);
}

// Whether one of the names is this one.
fn has(names: &[&str], name: &str) -> bool {
    for each in names {
        if *each == name {
            return true;
        }
    }
    false
}

// Whether these are the names of a log's pages, in whichever order.
fn are_pages<F: Folder + Drop>(rt: &impl Abort, log: &mut LogFolder<F>, wanted: &[&str]) -> bool {
    let names = log.pages().expect(rt, "names");
    for name in &names {
        if !has(wanted, name.as_str()) {
            return false;
        }
    }
    names.len() == wanted.len()
}

// Removes a page by its name, and a tile, which stays.
fn remove_page<F: Folder + Drop>(rt: &(impl AllocGlobal + Abort), log: &mut LogFolder<F>) {
    let page = String::from_str(rt.alloc(), "map/a").expect(rt, "memory");
    let tile = String::from_str(rt.alloc(), "tile/0/000.p/3").expect(rt, "memory");
    log.remove_pages(&[page, tile]).expect(rt, "a removal");
}

#[test]
fn pages_are_listed_and_removed(rt: HostRuntime) {
    let mut log = with_pages(&rt, MemoryFolder::new(rt.alloc()));
    assert!(rt; are_pages(&rt, &mut log, &["map/a", "map/b/1"]));
    remove_page(&rt, &mut log);
    assert!(rt; are_pages(&rt, &mut log, &["map/b/1"]));
    assert!(rt; passes_audit(&rt, &mut log));
    assert!(rt; log.checkpoint() == checkpoint_of(&rt, 3));
}
