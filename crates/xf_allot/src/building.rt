ghost use Rattle.std.specs.Prelude.{◌<◌, IfOk, OnOk};
ghost use Rattle.jc_control.specs.Flags.{Marks};
ghost use Rattle.jc_control.specs.Listing.{IsListingOf};
ghost use Rattle.jc_control.specs.Subject.{method, world_of};
ghost use Rattle.xf_allot.specs.Building.{HasPlace, IsAwaited};
ghost use Rattle.xf_allot.specs.Graph.{IsBound, IsGraphOf, IsGraphTo};
ghost use Rattle.xf_allot.specs.Subject.{IsSubject};

use crate::edges::{catch, leave};
use crate::uses::{no_uses, uses_of};
use jc_control::{Flags, Listing, Subject};
use jc_decode::Placed;
use jc_ops::{Site, resolve};
use std::alloc::{AllocError, Global};
use xf_live::{Edge, Uses};

/// The flow graph of a method, as far as it is built.
#[derive(Drop)]
pub(crate) struct Building {
    pub(crate) uses: Vec<Uses>,
    pub(crate) edges: Vec<Edge>,
}

impl Building {
    /// The flow graph of a method.
    pub(crate) fn of(alloc: Global, subject: &Subject<'_>) -> Result<Building, AllocError>
        requires subject { IsSubject subject.now }
        ensures { IfOk result
            (λ graph. IsGraphOf (world_of subject.now) (method subject.now) graph.uses.items graph.edges.items) }
    {
        let listing = Listing::of(alloc, subject.code)?;
        let bounds = bounds_of(alloc, subject)?;
        let mut graph = Building::blank(alloc, subject)?;
        'places: for place in 0..subject.code.bytes.len() {
            graph.add_instruction(subject, &listing, place as u16)?;
            catch(&mut graph.edges, subject, &bounds, place as u16)?;
        }
        Ok(graph)
    }

    // The nodes alone, which have nothing yet.
    fn blank(alloc: Global, subject: &Subject<'_>) -> Result<Building, AllocError>
        requires subject { IsSubject subject.now }
        ensures { IfOk result
            (λ graph. IsGraphTo (world_of subject.now) (method subject.now) 0 graph.uses.items graph.edges.items) }
    {
        let uses = vec![in alloc; no_uses(); 2 * subject.code.bytes.len() + 1]?;
        Ok(Building {
            uses,
            edges: Vec::new(alloc),
        })
    }

    // What the node of an instruction has, where one begins at the place.
    fn add_instruction(
        &mut self,
        subject: &Subject<'_>,
        listing: &Listing,
        place: u16,
    ) -> Result<(), AllocError>
        requires subject { IsSubject subject.now }
        requires listing { IsListingOf subject.now.code.bytes.now listing.now }
        requires awaited { IsAwaited place self.old }
        ensures { OnOk result (HasPlace (world_of subject.now) (method subject.now) place self.old self.new) }
    {
        if !listing.has(u32::from(place)) {
            return Ok(());
        }
        let Ok(insn) = listing.insn(subject.code, place) else {
            return Ok(());
        };
        let site = Site {
            method: subject.number,
            place,
        };
        match resolve(subject.world, site, insn) {
            Ok(operation) => {
                self.uses[usize::from(place)] = uses_of(subject.world, operation);
                leave(&mut self.edges, subject, Placed { place, insn })
            }
            Err(_) => Ok(()),
        }
    }
}

// The places at which the range of a handler begins or has ended, and the first one.
fn bounds_of(alloc: Global, subject: &Subject<'_>) -> Result<Flags, AllocError>
    requires subject { IsSubject subject.now }
    ensures { IfOk result (Marks (IsBound subject.now.rec.now.handlers)) }
{
    let mut bounds = Flags::new(alloc, subject.code.bytes.len() + 1)?;
    bounds.set(0);
    'handlers: for handler in subject.rec.handlers.as_slice() {
        bounds.set(handler.start);
        bounds.set(handler.end);
    }
    Ok(bounds)
}
