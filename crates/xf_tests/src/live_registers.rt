use std::alloc::{AllocError, Global};
use xf_live::{Edge, RegisterSet, Uses, live_before};

fn of(registers: &[u8]) -> RegisterSet {
    let mut set = RegisterSet::new();
    for register in registers {
        set = set.with(*register);
    }
    set
}

/// Whether these nodes have these registers live, each with the registers that it reads and those that it writes.
fn are_live(sets: &[RegisterSet], wanted: &[&[u8]]) -> bool {
    if sets.len() != wanted.len() {
        return false;
    }
    for (set, registers) in sets.iter().zip(wanted.iter()) {
        if !set.is(of(registers)) {
            return false;
        }
    }
    true
}

/// 1 is written, then read in a loop that writes 2 and reads it.
fn in_a_loop(alloc: Global) -> Result<bool, AllocError> {
    let uses = [
        Uses {
            reads: of(&[]),
            writes: of(&[1]),
        },
        Uses {
            reads: of(&[1]),
            writes: of(&[2]),
        },
        Uses {
            reads: of(&[2]),
            writes: of(&[]),
        },
    ];
    let edges = [
        Edge { from: 0, to: 1 },
        Edge { from: 1, to: 2 },
        Edge { from: 2, to: 1 },
    ];
    let sets = live_before(alloc, &uses, &edges)?;
    Ok(are_live(sets.as_slice(), &[&[], &[1], &[1, 2]]))
}

/// An increment reads what it writes.
fn at_an_increment(alloc: Global) -> Result<bool, AllocError> {
    let uses = [Uses {
        reads: of(&[7]),
        writes: of(&[7]),
    }];
    let sets = live_before(alloc, &uses, &[])?;
    Ok(are_live(sets.as_slice(), &[&[7]]))
}

/// Each node leads to the one before; the first reads a register of each word.
fn along_a_chain(alloc: Global, count: u16) -> Result<bool, AllocError> {
    let read = of(&[0, 63, 64, 127, 128, 200, 255]);
    let mut uses = Vec::new(alloc);
    let mut edges = Vec::new(alloc);
    for number in 0..count {
        let reads = if number == 0 { read } else { of(&[]) };
        uses.push(Uses {
            reads,
            writes: of(&[]),
        })?;
        if number > 0 {
            edges.push(Edge {
                from: number,
                to: number - 1,
            })?;
        }
    }
    let nodes = uses.as_slice();
    if nodes.len() > 65536 {
        return Ok(false);
    }
    let sets = live_before(alloc, nodes, edges.as_slice())?;
    for set in sets.as_slice() {
        if !set.is(read) {
            return Ok(false);
        }
    }
    Ok(sets.len() == usize::from(count))
}

#[test]
fn what_is_live(rt: HostRuntime) -> Result<(), AllocError> {
    let alloc = rt.alloc();
    assert!(rt; in_a_loop(alloc)? && at_an_increment(alloc)? && along_a_chain(alloc, 30000)?);
    Ok(())
}
