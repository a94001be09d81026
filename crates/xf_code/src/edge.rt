ghost use Rattle.std.specs.Prelude.{◌≡◌, ◌++◌, [], ⊤, All, IsTrue, IfSome, MatchBool, OnOk, flat_map, slice_get};
ghost use Rattle.xf_homes.specs.Home.{argument_types};
ghost use Rattle.xf_homes.specs.Value.{value_in_cells};
ghost use Rattle.xf_homes.specs.PlannedMethod.{source};
ghost use Rattle.xf_code.specs.Quiet.{AsksNothing, IsQuiet};
ghost use Rattle.xf_emission.specs.Edge.{is_stored, home_before, homes_held, copy_new, local_copies, copies, cell_copies};

use crate::emitter::{Emitted, Emitter, Output};
use indexmap::IndexSet;
use jc_base::{Handler, MethodRec, Ty};
use jc_decode::Item;
use jc_ops::{Operation, Sort};
use xf_emission::Origin;
use xf_homes::{Home, has, home_of, is_new, same_value, value_of};

fn is_stored(operation: Operation, x: u16) -> bool
    ensures { result ≡ is_stored operation x }
{
    match operation {
        Operation::Store(Sort::Int, y) => x == u16::from(y) || x == u16::from(y) + 1,
        Operation::Store(_, y) => x == u16::from(y),
        _ => false,
    }
}

/// The type of an argument cell, the receiver's first.
fn argument_cell(rec: &MethodRec, n: usize) -> Option<Ty>
    ensures { result ≡ slice_get (argument_types rec.now) n }
{
    let args = rec.sig.args.as_slice();
    if rec.is_static {
        return args.get(n).copied();
    }
    if n == 0 {
        return Some(Ty::Class(rec.class));
    }
    args.get(n - 1).copied()
}

/// The value of an argument that begins with a cell, if one does.
#[tactic(auto, unfolding(xf_homes::specs::Value::value_in_cells))]
fn argument(rec: &MethodRec, n: u16) -> Option<Ty>
    ensures { result ≡ value_in_cells (argument_types rec.now) n }
{
    let n = n as usize;
    value_of(argument_cell(rec, n), argument_cell(rec, n + 1))
}

impl Emitter<'_> {
    /// The home from which a local is copied.
    fn home_before(&self, from: Origin, x: u16) -> Option<Home>
        ensures { result ≡ home_before (source self.now.plan) from x }
    {
        match from {
            Origin::Start => home_of(x, argument(self.plan.walk.rec, x)),
            Origin::After(place, operation) => {
                if is_stored(operation, x) {
                    None
                } else {
                    self.plan.local(place, x)
                }
            }
            Origin::Entry(place) => self.plan.local(place, x),
        }
    }

    /// Lists the homes in which the local stands already.
    fn hold(&self, from: Origin, x: u16, home: Home, to: &mut IndexSet<Home>) -> Emitted
        ensures { OnOk result (to.new.keys ≡ homes_held (source self.now.plan) from x home) }
    {
        if let Origin::After(place, _) = from {
            return self.plan.needed(place, x, to);
        }
        to.clear();
        to.insert(home)?;
        Ok(())
    }

    /// Appends the copies of a value to those of the homes in which it does not stand yet.
    fn copy_all(
        &self,
        from: Home,
        there: &IndexSet<Home>,
        needed: &[Home],
        items: &mut Vec<Item>,
    ) -> Emitted
        ensures { OnOk result
            (items.new.items ≡ items.old.items ++ flat_map (copy_new (source self.now.plan) from there.now.keys) needed.now) }
    {
        'needed: for home in needed {
            if has(there, *home) {
                continue;
            }
            self.copy(from, *home, items)?;
        }
        Ok(())
    }

    /// Appends the copies of a local on an edge to a place.
    #[tactic(auto, unfolding(xf_emission::specs::Edge::local_copies))]
    fn local_copies(&self, from: Origin, to: u16, x: u16, out: &mut Output) -> Emitted
        ensures { OnOk result (out.new.items.items ≡ out.old.items.items ++ local_copies (source self.now.plan) from to x) }
    {
        let Some(home) = self.home_before(from, x) else {
            return Ok(());
        };
        self.hold(from, x, home, &mut out.held)?;
        self.plan.needed(to, x, &mut out.needed)?;
        self.copy_all(home, &out.held, out.needed.as_slice(), &mut out.items)
    }

    /// Whether a handler comes to cover a place on an edge to it, and its entry has other registers.
    #[tactic(auto, using(crate::proofs::Still::asks_as_before, crate::proofs::Still::asks_by_registers))]
    fn asks_anew(&self, to: u16, place: u16, handler: Handler) -> bool
        ensures { MatchBool result ⊤ (AsksNothing (source self.now.plan) to place handler) }
    {
        if !is_new(handler, to, Some(place)) {
            return false;
        }
        !self.plan.walk.has_same_registers(handler.entry, to)
    }

    /// Whether one of the handlers asks something anew on an edge.
    fn is_any_asking(&self, to: u16, place: u16) -> bool
        ensures { MatchBool result ⊤ (All (AsksNothing (source self.now.plan) to place) self.now.plan.walk.rec.now.handlers) }
    {
        'handlers: for handler in self.plan.walk.rec.handlers.as_slice() {
            if self.asks_anew(to, place, *handler) {
                return true;
            }
        }
        false
    }

    /// Where an edge begins that leads on from an instruction to a place where no handler asks anything anew.
    fn quiet_from(&self, from: Origin, to: u16) -> Option<u16>
        ensures { IfSome result (IsQuiet (source self.now.plan) from to) }
    {
        match from {
            Origin::After(place, _) if !self.is_any_asking(to, place) => Some(place),
            _ => None,
        }
    }

    /// Whether all registers have at the place the types that they have where the quiet edge begins: then nothing is copied.
    fn are_still(&self, from: Origin, quiet: Option<u16>, to: u16) -> bool
        requires { IfSome quiet (IsQuiet (source self.now.plan) from to) }
        ensures { IsTrue result → copies (source self.now.plan) from to ≡ [] }
    {
        match quiet {
            Some(place) => self.plan.walk.has_same_registers(to, place),
            None => false,
        }
    }

    /// Whether a local has at the place the value that it has where the quiet edge begins: then it is not copied.
    fn is_still(&self, from: Origin, quiet: Option<u16>, to: u16, x: u16) -> bool
        requires { IfSome quiet (IsQuiet (source self.now.plan) from to) }
        ensures { IsTrue result → local_copies (source self.now.plan) from to x ≡ [] }
    {
        match quiet {
            Some(place) => same_value(self.plan.walk.local(to, x), self.plan.walk.local(place, x)),
            None => false,
        }
    }

    /// Appends the copies of all locals on an edge to a place.
    #[tactic(auto, unfolding(xf_emission::specs::Edge::copies))]
    pub fn copies(&self, from: Origin, to: u16, out: &mut Output) -> Emitted
        ensures { OnOk result (out.new.items.items ≡ out.old.items.items ++ copies (source self.now.plan) from to) }
    {
        let quiet = self.quiet_from(from, to);
        if self.are_still(from, quiet, to) {
            return Ok(());
        }
        'locals: for x in 0..self.plan.walk.registers() {
            if self.is_still(from, quiet, to, x) {
                continue;
            }
            self.local_copies(from, to, x, out)?;
        }
        Ok(())
    }

    /// Appends the copies of cells that stand in homes of other types than they have to.
    pub fn cell_copies(&self, from: &[Home], to: &[Home], items: &mut Vec<Item>) -> Emitted
        ensures { OnOk result (items.new.items ≡ items.old.items ++ cell_copies (source self.now.plan) from.now to.now) }
    {
        let count = from.len().min(to.len());
        'cells: for n in 0..count {
            if from[n].is(to[n]) {
                continue;
            }
            self.copy(from[n], to[n], items)?;
        }
        Ok(())
    }
}
