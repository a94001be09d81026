ghost use Rattle.std.specs.Prelude.{◌≡◌, ◌<◌, ◌≤◌, ◌^◌, length, IfOk, IfSome, IfNone, OnOk};
ghost use Rattle.xf_live.specs.Live.{AreLive, set_at};
ghost use Rattle.xf_live.specs.Liveness.{Begins, Raises, CarriesAll, TakesUp, IsDone};

use crate::set::RegisterSet;
use std::alloc::{AllocError, Global};

/// A node of a flow graph.
#[derive(Drop)]
pub struct Node {
    /// The registers that it reads, before it writes any.
    pub reads: RegisterSet,
    /// The registers that it writes.
    pub writes: RegisterSet,
    /// The nodes from which control comes to it.
    pub from: Vec<u16>,
}

/// For each node the registers that are live there, as far as they are found.
#[derive(Drop)]
pub(crate) struct Liveness {
    pub(crate) sets: Vec<RegisterSet>,
    /// The nodes whose set is still to be carried to those before them.
    pub(crate) pending: Vec<u16>,
}

/// For each node the registers that are live before it.
pub fn live_sets(alloc: Global, nodes: &[Node]) -> Result<Vec<RegisterSet>, AllocError>
    requires { length nodes.now ≤ 2 ^ 16 }
    ensures { IfOk result (λ sets. AreLive nodes.now sets.items) }
{
    let mut liveness = Liveness::of(alloc, nodes)?;
    'work: while let Some(number) = liveness.take() {
        liveness.visit(nodes, number)?;
    }
    Ok(liveness.sets)
}

impl Liveness {
    // What each node reads, still to be carried.
    fn of(alloc: Global, nodes: &[Node]) -> Result<Liveness, AllocError>
        requires { length nodes.now ≤ 2 ^ 16 }
        ensures { IfOk result (Begins nodes.now) }
    {
        let sets = vec![in alloc; RegisterSet::new(); nodes.len()]?;
        let mut liveness = Liveness {
            sets,
            pending: Vec::new(alloc),
        };
        'nodes: for (number, node) in nodes.iter().enumerate() {
            liveness.raise(number as u16, node.reads)?;
        }
        Ok(liveness)
    }

    // Takes up a pending node.
    fn take(&mut self) -> Option<u16>
        ensures some { IfSome result (λ number. TakesUp number self.old self.new) }
        ensures none { IfNone result (IsDone self.old self.new) }
    {
        self.pending.pop()
    }

    // Carries what is live at a node, and not written there, to those from which control comes to it.
    fn visit(&mut self, nodes: &[Node], number: u16) -> Result<(), AllocError>
        requires sized { length self.old.sets.items ≡ length nodes.now }
        ensures { OnOk result (CarriesAll nodes.now number self.old self.new) }
    {
        let Some(node) = nodes.get(number as usize) else {
            return Ok(());
        };
        let live = self.at(number);
        'from: for before in node.from.as_slice() {
            let Some(node) = nodes.get(*before as usize) else {
                continue;
            };
            self.raise(*before, live.minus(node.writes))?;
        }
        Ok(())
    }

    // The set of a node.
    fn at(&self, number: u16) -> RegisterSet
        ensures { result ≡ set_at self.now.sets.items number }
    {
        set_of(self.sets.as_slice(), number)
    }

    // These too are live at a node.
    fn raise(&mut self, number: u16, more: RegisterSet) -> Result<(), AllocError>
        requires { number < length self.old.sets.items }
        ensures { OnOk result (Raises number more self.old self.new) }
    {
        let old = self.at(number);
        let new = old.union(more);
        if new.is(old) {
            return Ok(());
        }
        self.pending.push(number)?;
        self.sets[number as usize] = new;
        Ok(())
    }
}

// The set of this number, and none past the end.
pub(crate) fn set_of(sets: &[RegisterSet], number: u16) -> RegisterSet
    ensures { result ≡ set_at sets.now number }
{
    match sets.get(number as usize) {
        Some(set) => *set,
        None => RegisterSet::new(),
    }
}
