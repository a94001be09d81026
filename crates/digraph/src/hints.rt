use crate::graph::Digraph;
use std::alloc::{AllocError, Global};

/// What one walk in depth finds. These are hints: nothing is proved of them, and no answer rests on them.
#[derive(Drop)]
pub(crate) struct Hints {
    /// The vertices, each after those to which it leads, but for cycles.
    pub order: Vec<u32>,
    /// A rank for each vertex: that of those to which it leads is less, or the same where they lead back to it.
    pub ranks: Vec<u32>,
}

/// What the walk keeps of a vertex that is open: its number in the order of opening, and how many edges were followed.
#[derive(Clone, Copy)]
struct Open {
    vertex: u32,
    opened: u32,
    followed: u32,
}

/// The walk: by vertex when it was opened, or 0; the open vertices, last the deepest; those without a rank; and the
/// numbers at which groups begin that may lead to each other.
#[derive(Drop)]
struct Walk {
    opened: Vec<u32>,
    count: u32,
    path: Vec<Open>,
    unranked: Vec<u32>,
    starts: Vec<u32>,
    groups: u32,
    hints: Hints,
}

/// Walks over the whole graph in depth, as Gabow's way to find its strong components does.
pub(crate) fn look_over(alloc: Global, graph: &Digraph) -> Result<Hints, AllocError> {
    let mut walk = Walk {
        opened: vec![in alloc; 0; graph.len() as usize]?,
        count: 0,
        path: Vec::new(alloc),
        unranked: Vec::new(alloc),
        starts: Vec::new(alloc),
        groups: 0,
        hints: Hints {
            order: Vec::new(alloc),
            ranks: vec![in alloc; u32::MAX; graph.len() as usize]?,
        },
    };
    for root in 0..graph.len() {
        walk.from(graph, root)?;
    }
    Ok(walk.hints)
}

impl Walk {
    /// Walks from a vertex, if it was not opened.
    fn from(&mut self, graph: &Digraph, root: u32) -> Result<(), AllocError> {
        if self.opened_at(root) == 0 {
            self.open(root)?;
        }
        for _ in 0..u64::MAX {
            match self.path.pop() {
                None => break,
                Some(open) => self.go_on(graph, open)?,
            }
        }
        Ok(())
    }

    /// When a vertex was opened, counted from 1.
    fn opened_at(&self, v: u32) -> u32 {
        self.opened.get(v as usize).copied().unwrap_or(0)
    }

    /// Opens a vertex.
    fn open(&mut self, vertex: u32) -> Result<(), AllocError> {
        self.count = self.count.wrapping_add(1);
        let opened = self.count;
        if let Some(n) = self.opened.get_mut(vertex as usize) {
            *n = opened;
        }
        self.path.push(Open {
            vertex,
            opened,
            followed: 0,
        })?;
        self.unranked.push(vertex)?;
        self.starts.push(opened)?;
        Ok(())
    }

    /// Follows the next edge of an open vertex, or closes it.
    fn go_on(&mut self, graph: &Digraph, open: Open) -> Result<(), AllocError> {
        if open.vertex >= graph.len() {
            return Ok(());
        }
        let Some(to) = graph.row(open.vertex).get(open.followed as usize).copied() else {
            return self.close(open);
        };
        self.path.push(Open {
            followed: open.followed.wrapping_add(1),
            ..open
        })?;
        self.meet(to)
    }

    /// Opens the vertex at the end of an edge; one without a rank, which is open or leads to one that is, joins all
    /// groups from its own on.
    fn meet(&mut self, to: u32) -> Result<(), AllocError> {
        let opened = self.opened_at(to);
        if opened == 0 {
            return self.open(to);
        }
        if self.hints.ranks.get(to as usize).copied().unwrap_or(0) != u32::MAX {
            return Ok(());
        }
        while let Some(start) = self.starts.pop() {
            if start <= opened {
                self.starts.push(start)?;
                return Ok(());
            }
        }
        Ok(())
    }

    /// Closes a vertex. Where a group begins with it, all without a rank from it on are one.
    fn close(&mut self, open: Open) -> Result<(), AllocError> {
        self.hints.order.push(open.vertex)?;
        match self.starts.pop() {
            Some(start) if start == open.opened => self.rank(open.vertex),
            Some(start) => self.starts.push(start)?,
            None => {}
        }
        Ok(())
    }

    /// Ranks the vertices that were opened last, down to this one.
    fn rank(&mut self, first: u32) {
        let rank = self.groups;
        self.groups = self.groups.wrapping_add(1);
        while let Some(v) = self.unranked.pop() {
            if let Some(place) = self.hints.ranks.get_mut(v as usize) {
                *place = rank;
            }
            if v == first {
                return;
            }
        }
    }
}
