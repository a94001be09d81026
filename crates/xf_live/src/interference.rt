ghost use Rattle.std.specs.Prelude.{◌≡◌, ◌≤◌, ◌^◌, length, IfOk, MatchBool};
ghost use Rattle.xf_live.specs.Interference.{AreInterfering, PutsTo, Tells, WritesAt};

use crate::graph::{Edge, Uses, live_before};
use crate::live::set_of;
use crate::set::RegisterSet;
use std::alloc::{AllocError, Global};

/// Which registers of a flow graph interfere.
#[derive(Drop)]
pub struct Interference {
    /// The registers that are live before the first node.
    first: RegisterSet,
    /// For each register those that are live where control may come from a node that writes it.
    after: Vec<RegisterSet>,
}

/// Which registers of a flow graph interfere: one is written where the other is live after it, or both are live before
/// the first node.
pub fn find_interference(
    alloc: Global,
    uses: &[Uses],
    edges: &[Edge],
) -> Result<Interference, AllocError>
    requires { length uses.now ≤ 2 ^ 16 }
    ensures { IfOk result (AreInterfering uses.now edges.now) }
{
    let sets = live_before(alloc, uses, edges)?;
    let mut after = vec![in alloc; RegisterSet::new(); 256]?;
    'edges: for edge in edges {
        let live = set_of(sets.as_slice(), edge.to);
        put(&mut after, written_at(uses, edge.from), live);
    }
    let first = set_of(sets.as_slice(), 0);
    Ok(Interference { first, after })
}

impl Interference {
    /// Whether two registers interfere.
    pub fn has(&self, register: u8, other: u8) -> bool
        ensures { MatchBool result (Tells self.now register other) (¬ (Tells self.now register other)) }
    {
        if set_of(self.after.as_slice(), u16::from(register)).has(other) {
            return true;
        }
        if set_of(self.after.as_slice(), u16::from(other)).has(register) {
            return true;
        }
        self.first.has(register) && self.first.has(other)
    }
}

// The registers that a node writes.
fn written_at(uses: &[Uses], number: u16) -> RegisterSet
    ensures { WritesAt uses.now number result }
{
    match uses.get(number as usize) {
        Some(node) => node.writes,
        None => RegisterSet::new(),
    }
}

// These are live after each of the registers that are written.
fn put(after: &mut Vec<RegisterSet>, written: RegisterSet, live: RegisterSet)
    requires { length after.old.items ≡ 256 }
    ensures { PutsTo written live 256 after.old.items after.new.items }
{
    if written.is(RegisterSet::new()) {
        return;
    }
    'registers: for register in 0..256 {
        if written.has(register as u8) {
            after[register] = after[register].union(live);
        }
    }
}
