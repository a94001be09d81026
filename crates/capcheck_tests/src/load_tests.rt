ghost use Rattle.std.specs.Prelude.{◌<◌};

use cap_bytes::Part;
use cap_components::Parts;
use cap_frame::frame;
use cap_load::{FinishEnd, Loader, StreamFault, blocks};
use std::alloc::{AllocError, Global};

/// Room for the contents of the file, and not one byte more.
const ROOM: u32 = 12;

/// A Header of two bytes, an empty Import component and the custom component 200 of one byte, in a block of four bytes,
/// which ends inside the Header, and one of eight.
static FILE: [u8; 15] = [4, 1, 0, 2, 0xAA, 8, 0xBB, 4, 0, 0, 200, 0, 1, 7, 0];

/// Its parts.
static PARTS: [(u8, &[u8]); 3] = [
    (1, &[1, 0, 2, 0xAA, 0xBB]),
    (4, &[4, 0, 0]),
    (200, &[200, 0, 1, 7]),
];

/// What is answered at the end: the number of a fault and what it names, zeros for parts.
type Told = (u32, u32, u32);

/// A fault's number and what it names.
fn told(fault: StreamFault) -> Told {
    match fault {
        StreamFault::NoTag(tag) => (100, tag as u32, 0),
        StreamFault::Order(first, second) => (101, first as u32, second as u32),
        StreamFault::Full(room) => (102, room, 0),
        StreamFault::AfterEnd => (103, 0, 0),
        StreamFault::Unfinished => (104, 0, 0),
    }
}

fn end_of(loader: &Loader, alloc: Global) -> Told {
    match loader.finish(alloc) {
        Ok(_) => (0, 0, 0),
        Err(FinishEnd::Fault(fault)) => told(fault),
        Err(FinishEnd::Memory) => (999, 0, 0),
    }
}

/// Whether a part is held with these bytes.
fn holds(parts: &Parts<'_>, row: &(u8, &[u8])) -> bool {
    match parts.get(Part(row.0)) {
        Some(bytes) => bytes == row.1,
        None => false,
    }
}

/// Whether the loader gives the parts of the file.
fn gives_parts(loader: &Loader, alloc: Global) -> bool {
    match loader.finish(alloc) {
        Ok(parts) => parts.len() == 3 && PARTS.iter().all(|row| holds(&parts, row)),
        Err(_) => false,
    }
}

/// The first place at which the file can't be cut into two pieces, or 16.
fn first_wrong_cut(alloc: Global) -> Result<usize, AllocError> {
    for n in 0..16 {
        let mut loader = Loader::new(alloc, ROOM)?;
        let fed = loader.feed(&FILE[..n]).is_ok() && loader.feed(&FILE[n..]).is_ok();
        if !fed || !gives_parts(&loader, alloc) {
            return Ok(n);
        }
    }
    Ok(16)
}

#[test]
fn every_cut_into_two_pieces_gives_the_parts(rt: HostRuntime) -> Result<(), AllocError> {
    assert_eq!(rt; first_wrong_cut(rt.alloc())?, 16);
    Ok(())
}

/// Feeds the file in pieces of one size.
fn feed_by(loader: &mut Loader, size: usize)
    requires { 0 < size }
{
    for piece in FILE.chunks(size) {
        let _ = loader.feed(piece);
    }
}

/// The first size of pieces that gives other parts, or 16.
fn first_wrong_size(alloc: Global) -> Result<usize, AllocError> {
    for size in 1..16 {
        let mut loader = Loader::new(alloc, ROOM)?;
        feed_by(&mut loader, size);
        if !gives_parts(&loader, alloc) {
            return Ok(size);
        }
    }
    Ok(16)
}

#[test]
fn pieces_of_any_size_give_the_parts(rt: HostRuntime) -> Result<(), AllocError> {
    assert_eq!(rt; first_wrong_size(rt.alloc())?, 16);
    Ok(())
}

/// What is answered with the byte at each place as 0, as 255 and as one more than it is.
static CHANGED: [[Told; 3]; 15] = [
    [(103, 0, 0), (102, 12, 0), (100, 0, 0)],
    [(100, 0, 0), (101, 255, 4), (0, 0, 0)],
    [(0, 0, 0), (104, 0, 0), (104, 0, 0)],
    [(104, 0, 0), (104, 0, 0), (100, 0, 0)],
    [(0, 0, 0), (0, 0, 0), (0, 0, 0)],
    [(103, 0, 0), (100, 0, 0), (100, 0, 0)],
    [(0, 0, 0), (0, 0, 0), (0, 0, 0)],
    [(100, 0, 0), (101, 255, 200), (0, 0, 0)],
    [(0, 0, 0), (104, 0, 0), (104, 0, 0)],
    [(0, 0, 0), (104, 0, 0), (100, 0, 0)],
    [(100, 0, 0), (0, 0, 0), (0, 0, 0)],
    [(0, 0, 0), (104, 0, 0), (104, 0, 0)],
    [(101, 200, 7), (104, 0, 0), (104, 0, 0)],
    [(0, 0, 0), (0, 0, 0), (0, 0, 0)],
    [(0, 0, 0), (104, 0, 0), (104, 0, 0)],
];

/// What is answered for the file with one byte changed.
fn changed(alloc: Global, place: usize, byte: u8) -> Result<Told, AllocError>
    requires { place < 15 }
{
    let mut loader = Loader::new(alloc, ROOM)?;
    let _ = loader.feed(&FILE[..place]);
    let _ = loader.feed(&[byte]);
    let _ = loader.feed(&FILE[place + 1..]);
    Ok(end_of(&loader, alloc))
}

/// The first byte for which a change is answered otherwise, or 15.
fn first_wrong_change(alloc: Global) -> Result<usize, AllocError> {
    for (place, row) in CHANGED.iter().enumerate() {
        let byte = FILE[place];
        let zero = changed(alloc, place, 0)?;
        let all = changed(alloc, place, 255)?;
        let more = changed(alloc, place, byte.wrapping_add(1))?;
        if zero != row[0] || all != row[1] || more != row[2] {
            return Ok(place);
        }
    }
    Ok(15)
}

#[test]
fn a_changed_byte_is_answered_by_the_first_fault(rt: HostRuntime) -> Result<(), AllocError> {
    assert_eq!(rt; first_wrong_change(rt.alloc())?, 15);
    Ok(())
}

/// A room, pieces after the file, and what is answered: a fault is answered again, whatever follows.
static MORE: [(u32, &[u8], Told); 4] = [
    (12, &[], (0, 0, 0)),
    (12, &[0, 1, 2], (103, 0, 0)),
    (11, &[0], (102, 11, 0)),
    (0, &[0], (102, 0, 0)),
];

fn first_wrong_more(alloc: Global) -> Result<usize, AllocError> {
    for (n, row) in MORE.iter().enumerate() {
        let mut loader = Loader::new(alloc, row.0)?;
        let _ = loader.feed(&FILE);
        let _ = loader.feed(row.1);
        if end_of(&loader, alloc) != row.2 {
            return Ok(n);
        }
    }
    Ok(4)
}

#[test]
fn a_fault_stays(rt: HostRuntime) -> Result<(), AllocError> {
    assert_eq!(rt; first_wrong_more(rt.alloc())?, 4);
    Ok(())
}

/// A Method component with an info of 304 bytes makes a block of 255 bytes and one of 52.
fn is_packed(file: &[u8]) -> bool {
    file.len() == 310 && file[0] == 255 && file[1] == 7 && file[256] == 52 && file[309] == 0
}

fn packs(alloc: Global) -> Result<bool, AllocError> {
    let mut method = [0; 307];
    method[0] = 7;
    method[1] = 1;
    method[2] = 48;
    if frame(&method, Part(7)).is_err() {
        return Ok(false);
    }
    let mut parts = Parts::new(alloc);
    parts.push(Part(7), &method)?;
    match blocks(alloc, &parts) {
        Ok(file) => Ok(is_packed(&file)),
        Err(_) => Ok(false),
    }
}

#[test]
fn blocks_are_of_255_bytes_and_a_last_shorter_one(rt: HostRuntime) -> Result<(), AllocError> {
    assert!(rt; packs(rt.alloc())?);
    Ok(())
}
