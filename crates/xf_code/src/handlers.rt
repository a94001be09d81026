ghost use Rattle.std.specs.Prelude.{◌≡◌, ◌++◌, ◌≤◌, OnOk, IfOk, length};
ghost use Rattle.xf_homes.specs.PlannedMethod.{source};
ghost use Rattle.xf_emission.specs.Emission.{catching_stub, catching_stubs, is_live, range, ranges_from};
ghost use Rattle.xf_emission.specs.Jump.{handler_label};

use crate::emitter::{Emitted, Emitter, Output, put};
use crate::jump::goto;
use jc_base::Handler;
use jc_decode::{Item, Range};
use std::alloc::AllocError;
use xf_emission::Origin;

/// The label of the stub of a handler, by its number.
fn handler_label(n: u16) -> u16
    requires { n ≤ 255 }
    ensures { result ≡ handler_label n }
{
    49152 + n
}

impl Emitter<'_> {
    /// Whether control reaches a place that a handler covers.
    fn is_live(&self, handler: Handler) -> bool
        ensures { result ≡ is_live (source self.now.plan) handler }
    {
        self.first_reached(handler.start) < handler.end
    }

    /// Appends the stub of a handler.
    fn caught(&self, n: u16, handler: Handler, out: &mut Output) -> Emitted
        requires { n ≤ 255 }
        ensures { OnOk result (out.new.items.items ≡ out.old.items.items ++ catching_stub (source self.now.plan) n handler) }
    {
        let entry = handler.entry;
        put(&mut out.items, Item::Label(handler_label(n)))?;
        let cells = self.plan.stack_homes(self.alloc, entry)?;
        self.spill(cells.as_slice(), &mut out.items)?;
        self.copies(Origin::Entry(entry), entry, out)?;
        put(&mut out.items, goto(entry))
    }

    /// Appends the stubs of the live handlers, in the order of the table.
    pub fn handler_stubs(&self, out: &mut Output) -> Emitted
        requires { length self.now.plan.walk.rec.now.handlers ≤ 255 }
        ensures { OnOk result
            (out.new.items.items ≡ out.old.items.items ++ catching_stubs (source self.now.plan) 0 self.now.plan.walk.rec.now.handlers) }
    {
        'handlers: for (n, handler) in self.plan.walk.rec.handlers.as_slice().iter().enumerate() {
            if !self.is_live(*handler) {
                continue;
            }
            self.caught(n as u16, *handler, out)?;
        }
        Ok(())
    }

    fn range(&self, n: u16, handler: Handler) -> Range
        requires { n ≤ 255 }
        ensures { result ≡ range (source self.now.plan) n handler }
    {
        Range {
            from: self.first_reached(handler.start),
            to: self.first_reached(handler.end),
            entry: handler_label(n),
            pool: handler.index,
        }
    }

    /// The ranges of the live handlers, in the order of the table.
    pub fn ranges(&self) -> Result<Vec<Range>, AllocError>
        requires { length self.now.plan.walk.rec.now.handlers ≤ 255 }
        ensures { IfOk result (λ rs. rs.items ≡ ranges_from (source self.now.plan) 0 self.now.plan.walk.rec.now.handlers) }
    {
        let mut ranges = Vec::new(self.alloc);
        'handlers: for (n, handler) in self.plan.walk.rec.handlers.as_slice().iter().enumerate() {
            if !self.is_live(*handler) {
                continue;
            }
            ranges.push(self.range(n as u16, *handler))?;
        }
        Ok(ranges)
    }
}
