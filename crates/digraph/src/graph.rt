ghost use Rattle.std.specs.Prelude.{◌≡◌, ◌<◌, ◌++◌, ◌∷◌, [], ℕ, List, length, All, OnOk};
ghost use Rattle.digraph.specs.Graph.{next, IsGraph};

use std::alloc::AllocError;
use std::marker::Model;

/// The vertices to which edges go from one.
#[derive(Drop)]
pub struct Row {
    to: Vec<u32>,
}

impl Model for Row {
    ghost Value = { List ℕ };

    ghost view = { λ a. a.to.items };
}

impl Row {
    /// The row of these vertices.
    pub fn of(to: Vec<u32>) -> Row
        ensures { result ≡ to.items }
    {
        Row { to }
    }

    /// Adds a vertex.
    pub fn push(&mut self, v: u32) -> Result<(), AllocError>
        ensures { OnOk result (self.new ≡ self.old ++ v ∷ []) }
    {
        self.to.push(v)?;
        Ok(())
    }

    /// Its vertices.
    pub fn as_slice(&self) -> &[u32]
        ensures { result.now ≡ self.now }
    {
        self.to.as_slice()
    }
}

/// A directed graph, whose vertices are the numbers below its length.
#[derive(Drop)]
pub struct Digraph {
    rows: Vec<Row>,
}

impl Model for Digraph {
    ghost use Rattle.std.specs.Prelude.{ℕ, List};
    ghost use Rattle.digraph.specs.Graph.{IsGraph};

    ghost Value = { List (List ℕ) };

    ghost view = { λ a. a.rows.items };

    ghost invariant = { λ a. IsGraph a.rows.items };
}

impl Digraph {
    /// The graph with these rows, each of which names vertices of it.
    pub fn of(rows: Vec<Row>) -> Digraph
        requires { IsGraph rows.items }
        ensures { result ≡ rows.items }
    {
        Digraph { rows }
    }

    /// How many vertices there are.
    pub fn len(&self) -> u32
        ensures is { result ≡ length self.now }
        ensures graph { IsGraph self.now }
    {
        self.rows.len() as u32
    }

    /// The vertices to which edges go from a vertex.
    pub fn row(&self, v: u32) -> &[u32]
        requires { v < length self.now }
        ensures is { result.now ≡ next self.now v }
        ensures inside { All (λ w. w < length self.now) result.now }
        ensures graph { IsGraph self.now }
    {
        self.rows[v as usize].as_slice()
    }
}
