use crate::mem_disk::{Held, MemDisk, Trouble};
use cap_bytes::Part;
use cap_files::{DirFolder, Folder, LoadEnd, OutSink, Sink};
use std::alloc::{AllocError, Global};

const CUSTOM: Part = Part(200);

/// What is asked of a folder over the disk, or of a sink over its file.
#[derive(Clone, Copy)]
enum Ask {
    Load,
    Store(&'static [u8]),
    Put(&'static [u8]),
}

#[derive(Clone, Copy)]
enum Answer {
    /// The part is there, with these bytes.
    Loaded(&'static [u8]),
    Absent,
    /// A load failed, and gives no bytes.
    LoadFailed,
    /// The bytes were stored, or put.
    Done,
    Failed,
}

/// What the file holds before, how the disk misbehaves, what is asked, and the answer. Then how many calls the disk had, and
/// what the file holds afterwards.
struct Row {
    before: Option<&'static [u8]>,
    trouble: Trouble,
    ask: Ask,
    answer: Answer,
    calls: u32,
    after: Option<&'static [u8]>,
}

static ROWS: [Row; 17] = [
    // one call finds that there is no file
    Row {
        before: None,
        trouble: Trouble::Never,
        ask: Ask::Load,
        answer: Answer::Absent,
        calls: 1,
        after: None,
    },
    // one opens it, each byte takes one, and one more finds its end
    Row {
        before: Some(&[7, 0, 9]),
        trouble: Trouble::Never,
        ask: Ask::Load,
        answer: Answer::Loaded(&[7, 0, 9]),
        calls: 5,
        after: Some(&[7, 0, 9]),
    },
    Row {
        before: Some(&[]),
        trouble: Trouble::Never,
        ask: Ask::Load,
        answer: Answer::Loaded(&[]),
        calls: 2,
        after: Some(&[]),
    },
    // it is not opened; it is opened and cannot be read, as a folder; a read in its middle and the last one fail
    Row {
        before: Some(&[7, 0, 9]),
        trouble: Trouble::Fails(1),
        ask: Ask::Load,
        answer: Answer::LoadFailed,
        calls: 1,
        after: Some(&[7, 0, 9]),
    },
    Row {
        before: Some(&[7, 0, 9]),
        trouble: Trouble::Fails(2),
        ask: Ask::Load,
        answer: Answer::LoadFailed,
        calls: 2,
        after: Some(&[7, 0, 9]),
    },
    Row {
        before: Some(&[7, 0, 9]),
        trouble: Trouble::Fails(4),
        ask: Ask::Load,
        answer: Answer::LoadFailed,
        calls: 4,
        after: Some(&[7, 0, 9]),
    },
    Row {
        before: Some(&[7, 0, 9]),
        trouble: Trouble::Fails(5),
        ask: Ask::Load,
        answer: Answer::LoadFailed,
        calls: 5,
        after: Some(&[7, 0, 9]),
    },
    // one call makes the file, and each byte takes one
    Row {
        before: Some(&[7]),
        trouble: Trouble::Never,
        ask: Ask::Store(&[1, 2, 3]),
        answer: Answer::Done,
        calls: 4,
        after: Some(&[1, 2, 3]),
    },
    Row {
        before: None,
        trouble: Trouble::Never,
        ask: Ask::Store(&[]),
        answer: Answer::Done,
        calls: 1,
        after: Some(&[]),
    },
    // it is not made; a write in its middle fails, and the bytes before are there; the disk has no room for the third byte
    Row {
        before: Some(&[7]),
        trouble: Trouble::Fails(1),
        ask: Ask::Store(&[1, 2, 3]),
        answer: Answer::Failed,
        calls: 1,
        after: Some(&[7]),
    },
    Row {
        before: Some(&[7]),
        trouble: Trouble::Fails(3),
        ask: Ask::Store(&[1, 2, 3]),
        answer: Answer::Failed,
        calls: 3,
        after: Some(&[1]),
    },
    Row {
        before: Some(&[7]),
        trouble: Trouble::TakesNoneAfter(2),
        ask: Ask::Store(&[1, 2, 3]),
        answer: Answer::Failed,
        calls: 4,
        after: Some(&[1, 2]),
    },
    Row {
        before: Some(&[7]),
        trouble: Trouble::FailsAfter(2),
        ask: Ask::Store(&[1, 2, 3]),
        answer: Answer::Failed,
        calls: 4,
        after: Some(&[1, 2]),
    },
    // a sink hands on each byte after those that are there; of no bytes it hands on none
    Row {
        before: Some(&[7]),
        trouble: Trouble::Never,
        ask: Ask::Put(&[1, 2]),
        answer: Answer::Done,
        calls: 2,
        after: Some(&[7, 1, 2]),
    },
    Row {
        before: Some(&[7]),
        trouble: Trouble::Fails(1),
        ask: Ask::Put(&[]),
        answer: Answer::Done,
        calls: 0,
        after: Some(&[7]),
    },
    Row {
        before: Some(&[7]),
        trouble: Trouble::Fails(2),
        ask: Ask::Put(&[1, 2, 3]),
        answer: Answer::Failed,
        calls: 2,
        after: Some(&[7, 1]),
    },
    Row {
        before: Some(&[7]),
        trouble: Trouble::TakesNoneAfter(3),
        ask: Ask::Put(&[1, 2, 3]),
        answer: Answer::Failed,
        calls: 3,
        after: Some(&[7, 1, 2]),
    },
];

fn held(bytes: Option<&[u8]>) -> Held {
    let mut held = Held {
        is_there: bytes.is_some(),
        len: 0,
        bytes: [0; 8],
    };
    for byte in bytes.unwrap_or(&[]) {
        let at = held.len;
        if let Some(place) = held.bytes.get_mut(at) {
            *place = *byte;
            held.len = at.saturating_add(1);
        }
    }
    held
}

fn is_held(held: Held, bytes: Option<&[u8]>) -> bool {
    let wanted = bytes.unwrap_or(&[]);
    held.is_there == bytes.is_some()
        && held.len == wanted.len()
        && held.bytes.get(..held.len) == Some(wanted)
}

fn is_load<F: Folder>(folder: &mut F, alloc: Global, to: &mut Vec<u8>, answer: Answer) -> bool {
    match (folder.load(alloc, ".", CUSTOM, to), answer) {
        (Ok(true), Answer::Loaded(bytes)) => to.as_slice() == bytes,
        (Ok(false), Answer::Absent) => to.is_empty(),
        (Err(LoadEnd::Failed), Answer::LoadFailed) => to.is_empty(),
        _ => false,
    }
}

/// Whether the answer says that it was done, or that it failed.
fn is_done(done: bool, answer: Answer) -> bool {
    match answer {
        Answer::Done => done,
        Answer::Failed => !done,
        _ => false,
    }
}

/// Whether the disk answers so.
fn is_answer(
    alloc: Global,
    disk: &MemDisk,
    to: &mut Vec<u8>,
    row: &Row,
) -> Result<bool, AllocError> {
    let mut folder = DirFolder::new(disk, alloc, 13)?;
    Ok(match row.ask {
        Ask::Load => is_load(&mut folder, alloc, to, row.answer),
        Ask::Store(bytes) => is_done(folder.store(".", CUSTOM, bytes).is_ok(), row.answer),
        Ask::Put(bytes) => {
            let mut sink = OutSink::new(disk.file()?);
            is_done(sink.put(bytes).is_ok(), row.answer)
        }
    })
}

fn is_row(alloc: Global, to: &mut Vec<u8>, row: &Row) -> Result<bool, AllocError> {
    let disk = MemDisk::new(alloc, held(row.before), row.trouble)?;
    let answers = is_answer(alloc, &disk, to, row)?;
    Ok(answers && disk.calls() == row.calls && is_held(disk.held(), row.after))
}

/// The number of the first row that is not as it is told, or the number of all.
fn first_wrong(alloc: Global) -> Result<usize, AllocError> {
    let mut to = vec![in alloc; 1, 2, 3]?;
    for (n, row) in ROWS.iter().enumerate() {
        if !is_row(alloc, &mut to, row)? {
            return Ok(n);
        }
    }
    Ok(ROWS.len())
}

#[test]
fn a_disk_fails_shortens_and_fills_up(rt: HostRuntime) -> Result<(), AllocError> {
    assert_eq!(rt; first_wrong(rt.alloc())?, ROWS.len());
    Ok(())
}
