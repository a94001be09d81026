ghost use Rattle.std.specs.Prelude.{◌≡◌, ◌<◌, IsSomeAnd, slice_get};
ghost use Rattle.jc_tests.specs.OneMethod.{classes};

use crate::stores::{
    arrays_keep, cells_reach_their_limit, instance_keeps, objects_reach_their_limit, stack_turns,
    statics_keep,
};
use jc_base::World;
use jc_tests::{Shape, world};
use std::alloc::{AllocError, Global};
use vm_offend::{Counts, WordStore};
use vm_store::{Cell, CellForm, TaggedStore};

/// No frame, no object.
const NOTHING: Counts = Counts {
    frames: 0,
    objects: 0,
    cells: 0,
};

/// `aload_0`, `areturn`.
static CODE: [u8; 2] = [24, 119];

/// What is tried of a store.
#[derive(Clone, Copy)]
enum Trial {
    Objects,
    Cells,
    Arrays,
    Instances,
    Statics,
    Stack,
}

fn is_tagged_right(alloc: Global, world: &World<'_>, trial: Trial) -> Result<bool, AllocError>
    requires code { IsSomeAnd (slice_get world.now.methods 0) (λ m. 0 < m.code_len) }
    requires classes { world.now.classes ≡ classes }
{
    let mut store = TaggedStore::new(alloc, 3)?;
    Ok(match trial {
        Trial::Objects => objects_reach_their_limit(&mut store),
        Trial::Cells => cells_reach_their_limit(&mut store),
        Trial::Arrays => arrays_keep(&mut store),
        Trial::Instances => instance_keeps(&mut store, world),
        Trial::Statics => statics_keep(&mut store),
        Trial::Stack => stack_turns(&mut store, world),
    })
}

fn are_words_right(alloc: Global, world: &World<'_>, trial: Trial) -> Result<bool, AllocError>
    requires code { IsSomeAnd (slice_get world.now.methods 0) (λ m. 0 < m.code_len) }
    requires classes { world.now.classes ≡ classes }
{
    let mut ram = vec![in alloc; 0u16; 32832]?;
    let mut heap = vec![in alloc; 0u16; 45056]?;
    let mut statics = vec![in alloc; 0u16; 3]?;
    let mut store = WordStore::over(
        world,
        ram.as_mut_slice(),
        heap.as_mut_slice(),
        statics.as_mut_slice(),
        NOTHING,
    );
    Ok(match trial {
        Trial::Objects => objects_reach_their_limit(&mut store),
        Trial::Cells => cells_reach_their_limit(&mut store),
        Trial::Arrays => arrays_keep(&mut store),
        Trial::Instances => instance_keeps(&mut store, world),
        Trial::Statics => statics_keep(&mut store),
        Trial::Stack => stack_turns(&mut store, world),
    })
}

static TRIALS: [Trial; 6] = [
    Trial::Objects,
    Trial::Cells,
    Trial::Arrays,
    Trial::Instances,
    Trial::Statics,
    Trial::Stack,
];

/// The number of the first trial that a store fails, of tagged cells or of words, or the number of all.
fn first_wrong(alloc: Global, world: &World<'_>) -> Result<usize, AllocError>
    requires code { IsSomeAnd (slice_get world.now.methods 0) (λ m. 0 < m.code_len) }
    requires classes { world.now.classes ≡ classes }
{
    for (n, trial) in TRIALS.iter().enumerate() {
        if !is_tagged_right(alloc, world, *trial)? || !are_words_right(alloc, world, *trial)? {
            return Ok(n);
        }
    }
    Ok(TRIALS.len())
}

fn first_wrong_call(alloc: Global) -> Result<usize, AllocError> {
    let world = world(alloc, Shape::Thrown, &CODE, &[])?;
    first_wrong(alloc, &world)
}

#[test]
fn stores_of_both_forms_agree(rt: HostRuntime) -> Result<(), AllocError> {
    assert_eq!(rt; first_wrong_call(rt.alloc())?, TRIALS.len());
    Ok(())
}

#[test]
fn bytes_keep_their_sign(rt: HostRuntime) {
    assert!(rt; vm_store::byte_of_word(0x00ff) == -1 && Cell::Short(-1).word() == 0xffff);
}
