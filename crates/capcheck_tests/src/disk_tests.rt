use cap_bytes::Part;
use cap_files::{DirFolder, Folder, LoadEnd, OutSink, Sink};
use std::alloc::Global;
use std::fs;
use std::test::Fail;

const CUSTOM: Part = Part(200);

/// Whether a load says that the part is there, and gives these bytes.
fn is_loaded<F: Folder>(
    folder: &mut F,
    alloc: Global,
    dir: &str,
    bytes: &[u8],
    to: &mut Vec<u8>,
) -> bool {
    matches!(folder.load(alloc, dir, CUSTOM, to), Ok(true)) && to.as_slice() == bytes
}

/// Whether bytes are stored, and loaded again.
fn is_kept<F: Folder>(folder: &mut F, alloc: Global, bytes: &[u8], to: &mut Vec<u8>) -> bool {
    folder.store(".", CUSTOM, bytes).is_ok() && is_loaded(folder, alloc, "./.", bytes, to)
}

/// Whether a load and a store both fail, and the load leaves no bytes.
fn is_failed<F: Folder>(folder: &mut F, alloc: Global, dir: &str, to: &mut Vec<u8>) -> bool {
    matches!(folder.load(alloc, dir, CUSTOM, to), Err(LoadEnd::Failed))
        && to.is_empty()
        && folder.store(dir, CUSTOM, &[1]).is_err()
}

/// Longer than the room for a path, no name of a folder, and the name of a file.
static NO_FOLDERS: [&str; 3] = ["././././././..", "a\0b", "Custom200.cap"];

/// What goes wrong first in a folder that has no such part yet, or the empty text.
fn first_wrong<F: Folder>(
    folder: &mut F,
    alloc: Global,
    long: &[u8],
    to: &mut Vec<u8>,
) -> &'static str {
    if !matches!(folder.load(alloc, ".", CUSTOM, to), Ok(false)) || !to.is_empty() {
        return "absent";
    }
    if !is_kept(folder, alloc, &[7, 0, 1, 9], to)
        || !is_kept(folder, alloc, long.get(..65_538).unwrap_or(long), to)
        || !is_kept(folder, alloc, &[5], to)
    {
        return "kept";
    }
    if folder.store(".", CUSTOM, long).is_err()
        || !matches!(folder.load(alloc, ".", CUSTOM, to), Err(LoadEnd::TooLong))
        || to.len() != 65_539
    {
        return "too long";
    }
    for dir in NO_FOLDERS.iter() {
        if !is_failed(folder, alloc, dir, to) {
            return "failed";
        }
    }
    ""
}

#[test]
fn a_part_is_written_and_read_in_a_folder(rt: HostRuntime) -> Result<(), Fail> {
    let mut folder = DirFolder::new(&rt, rt.alloc(), 13)?;
    let long = vec![in rt.alloc(); 3u8; 65_539]?;
    let mut to = vec![in rt.alloc(); 1, 2, 3]?;
    let wrong = first_wrong(&mut folder, rt.alloc(), &long, &mut to);
    fs::remove_file(&rt, "./Custom200.cap")?;
    assert_eq!(rt; wrong, "");
    Ok(())
}

#[test]
fn text_goes_to_the_output(rt: HostRuntime) {
    let mut out = OutSink::new(rt.stdout());
    assert!(rt; out.put(b"").is_ok() && out.put(b"put\n").is_ok());
}
