use cap_bytes::Part;
use cap_files::{Folder, LoadEnd, MemFolder, MemSink, Sink, SureFolder, SureSink};
use std::alloc::{AllocError, Global};

const CUSTOM: Part = Part(200);

/// Whether a load says that the part is there, and gives these bytes.
fn is_there<F: Folder>(
    folder: &mut F,
    alloc: Global,
    dir: &str,
    part: Part,
    bytes: &[u8],
    to: &mut Vec<u8>,
) -> bool {
    matches!(folder.load(alloc, dir, part, to), Ok(true)) && to.as_slice() == bytes
}

/// Whether a load says that the part is absent, and gives no bytes.
fn is_absent<F: Folder>(
    folder: &mut F,
    alloc: Global,
    dir: &str,
    part: Part,
    to: &mut Vec<u8>,
) -> bool {
    matches!(folder.load(alloc, dir, part, to), Ok(false)) && to.is_empty()
}

/// Parts for a folder that has room for two of them and for ten bytes, and whether each fits after those
/// before it: two parts of folder `d` with four bytes each take ten bytes.
static PUT: [(u8, &[u8], bool); 5] = [
    (1, b"1234", true),
    (2, b"5678", true),
    (3, b"", false),
    (1, b"12345", false),
    (1, b"abcd", true),
];

/// Whether the folder then holds the parts that fitted, and no others.
fn has_fitted<F: Folder>(folder: &mut F, alloc: Global, to: &mut Vec<u8>) -> bool {
    is_there(folder, alloc, "d", Part(1), b"abcd", to)
        && is_there(folder, alloc, "d", Part(2), b"5678", to)
        && is_absent(folder, alloc, "d", Part(3), to)
        && is_absent(folder, alloc, "", Part(1), to)
}

fn sure_room(alloc: Global) -> Result<bool, AllocError> {
    let mut folder = SureFolder::new(alloc, 2, 10)?;
    let mut to = Vec::new(alloc);
    for (part, bytes, fits) in PUT.iter() {
        if folder.set("d", Part(*part), bytes) != *fits {
            return Ok(false);
        }
    }
    Ok(has_fitted(&mut folder, alloc, &mut to) && folder.store("d", Part(3), b"").is_ok())
}

fn failing_room(alloc: Global) -> Result<bool, AllocError> {
    let mut folder = MemFolder::new(alloc, 2, 10)?;
    let mut to = Vec::new(alloc);
    for (part, bytes, fits) in PUT.iter() {
        if folder.set("d", Part(*part), bytes) != *fits {
            return Ok(false);
        }
    }
    Ok(has_fitted(&mut folder, alloc, &mut to) && folder.store("d", Part(3), b"").is_err())
}

#[test]
fn a_folder_in_memory_has_the_room_that_it_took(rt: HostRuntime) -> Result<(), AllocError> {
    assert!(rt; sure_room(rt.alloc())? && failing_room(rt.alloc())?);
    Ok(())
}

/// Whether the load, the store and the put of one turn fail where they are to fail.
fn is_turn(
    folder: &mut MemFolder,
    sink: &mut MemSink,
    alloc: Global,
    fails: bool,
    to: &mut Vec<u8>,
) -> bool {
    let loaded = folder.load(alloc, "d", CUSTOM, to);
    let as_told = if fails {
        matches!(loaded, Err(LoadEnd::Failed))
    } else {
        matches!(loaded, Ok(true))
    };
    as_told
        && to.is_empty() == fails
        && folder.store("d", CUSTOM, b"new").is_err() == fails
        && sink.put(b"ab").is_err() == fails
}

/// A call that fails, what the sink then received in three turns, and what the folder holds after them.
static FAILING: [(u32, &[u8], &[u8]); 3] = [
    (1, b"aabab", b"new"),
    (2, b"abaab", b"new"),
    (3, b"ababa", b"n"),
];

fn fails_in_turn(alloc: Global, row: &(u32, &[u8], &[u8])) -> Result<bool, AllocError> {
    let mut folder = MemFolder::new(alloc, 1, 10)?;
    let mut sink = MemSink::new(alloc, 6)?;
    let mut to = Vec::new(alloc);
    let listed = folder.set("d", CUSTOM, b"old")
        && folder.fail_load(row.0)
        && folder.fail_store(row.0, 1)
        && sink.fail_put(row.0, 1);
    let turns = is_turn(&mut folder, &mut sink, alloc, row.0 == 1, &mut to)
        && is_turn(&mut folder, &mut sink, alloc, row.0 == 2, &mut to)
        && is_turn(&mut folder, &mut sink, alloc, row.0 == 3, &mut to);
    Ok(
        listed
            && turns
            && sink.received() == row.1
            && is_there(&mut folder, alloc, "d", CUSTOM, row.2, &mut to),
    )
}

#[test]
fn each_call_fails_in_turn(rt: HostRuntime) -> Result<(), AllocError> {
    assert!(rt;
        fails_in_turn(rt.alloc(), &FAILING[0])?
            && fails_in_turn(rt.alloc(), &FAILING[1])?
            && fails_in_turn(rt.alloc(), &FAILING[2])?
    );
    Ok(())
}

fn lists_failures(alloc: Global) -> Result<bool, AllocError> {
    let mut folder = MemFolder::new(alloc, 1, 10)?;
    let mut sink = MemSink::new(alloc, 2)?;
    for n in 1..=33 {
        if folder.fail_load(n + 1) != (n <= 32)
            || folder.fail_store(n + 1, 0) != (n <= 32)
            || sink.fail_put(n + 1, 0) != (n <= 32)
        {
            return Ok(false);
        }
    }
    Ok(sink.put(b"abc").is_err() && sink.received().is_empty())
}

fn sure_sink(alloc: Global) -> Result<bool, AllocError> {
    let mut sink = SureSink::new(alloc, 2)?;
    Ok(sink.put(b"ab").is_ok() && sink.received() == b"ab".as_slice() && sink.put(b"c").is_ok())
}

#[test]
fn thirty_two_failures_are_listed(rt: HostRuntime) -> Result<(), AllocError> {
    assert!(rt; lists_failures(rt.alloc())? && sure_sink(rt.alloc())?);
    Ok(())
}
