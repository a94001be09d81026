ghost use Rattle.std.specs.Prelude.{◌≡◌, IfOk, length};
ghost use Rattle.vm_offend.specs.Sized.{AreSized};

use card_verify::{Accepted, CardRoom, accept};
use jc_base::World;
use jc_tests::{Shape, world};
use std::alloc::{AllocError, Global};
use vm_offend::{sizes, start};
use vm_step::{Arg, Args, Ending, Plain, Value};

/// What a run answers: a short, an object of a class that was thrown, or that it goes on.
#[derive(Clone, Copy)]
enum Answer {
    Short(i16),
    Threw { class: u16, handle: u16 },
    Spent,
}

/// A run of a method of two shorts: its code, its arguments, how many steps it may take, what it answers, and words that it
/// leaves in the memory of frames and of objects, by their numbers.
struct Run {
    code: &'static [u8],
    args: [i32; 2],
    budget: u64,
    answer: Answer,
    ram: &'static [(usize, u16)],
    heap: &'static [(usize, u16)],
}

/// `sload_0`, `sload_1`, `sadd`, `sreturn`.
const SUM: &[u8] = &[28, 29, 65, 120];

/// `sload_0`, `sload_1`, `sdiv`, `sreturn`.
const QUOTIENT: &[u8] = &[28, 29, 71, 120];

/// `sload_0`, `newarray` of shorts, `arraylength`, `sreturn`.
const LENGTH: &[u8] = &[28, 144, 12, 146, 120];

/// Makes an array of one element of booleans, of bytes, of shorts, of ints and of references to class 1, and an instance
/// of that class, each of which it drops; then `sload_0`, `sreturn`.
const EACH_KIND: &[u8] = &[
    28, 144, 10, 59, 28, 144, 11, 59, 28, 144, 12, 59, 28, 144, 13, 59, //
    28, 145, 0, 0, 59, 143, 0, 0, 59, //
    28, 120,
];

static RUNS: [Run; 9] = [
    // before the first step the frame has its method, its place, an empty stack, and the arguments in its registers
    Run {
        code: SUM,
        args: [3, -4],
        budget: 0,
        answer: Answer::Spent,
        ram: &[(0, 0), (1, 0), (2, 0), (3, 3), (4, 65532)],
        heap: &[],
    },
    // the stack begins at word 258, its top is the last
    Run {
        code: SUM,
        args: [3, -4],
        budget: 2,
        answer: Answer::Spent,
        ram: &[(1, 2), (2, 2), (258, 3), (259, 65532)],
        heap: &[],
    },
    Run {
        code: SUM,
        args: [3, -4],
        budget: 4,
        answer: Answer::Short(-1),
        ram: &[],
        heap: &[],
    },
    // the arguments in their order
    Run {
        code: QUOTIENT,
        args: [7, 2],
        budget: 9,
        answer: Answer::Short(3),
        ram: &[],
        heap: &[],
    },
    // an exception is an object of its class
    Run {
        code: QUOTIENT,
        args: [7, 0],
        budget: 9,
        answer: Answer::Threw {
            class: 1,
            handle: 1,
        },
        ram: &[],
        heap: &[(0, 1), (1, 0), (2, 0)],
    },
    // an array has its kind, its first cell and its length, its cells are zero, and a reference to it is its handle
    Run {
        code: LENGTH,
        args: [3, 0],
        budget: 2,
        answer: Answer::Spent,
        ram: &[(1, 3), (2, 1), (258, 1)],
        heap: &[
            (0, 0xF002),
            (1, 0),
            (2, 3),
            (12288, 0),
            (12289, 0),
            (12290, 0),
        ],
    },
    Run {
        code: LENGTH,
        args: [3, 0],
        budget: 4,
        answer: Answer::Short(3),
        ram: &[],
        heap: &[(2, 3)],
    },
    Run {
        code: LENGTH,
        args: [-1, 0],
        budget: 4,
        answer: Answer::Threw {
            class: 1,
            handle: 1,
        },
        ram: &[],
        heap: &[(0, 1)],
    },
    // the word of each kind of object, where its cells begin, and how many elements it has; an int takes two cells
    Run {
        code: EACH_KIND,
        args: [1, 0],
        budget: 40,
        answer: Answer::Short(1),
        ram: &[],
        heap: &[
            (0, 0xF000),
            (3, 0xF001),
            (6, 0xF002),
            (9, 0xF003),
            (11, 1),
            (12, 0x8001),
            (13, 5),
            (14, 1),
            (15, 1),
            (16, 6),
            (17, 0),
        ],
    },
];

fn is_answer(plain: Plain, answer: Answer) -> bool {
    match (plain, answer) {
        (Plain::Returned(Value::Short(found)), Answer::Short(wanted)) => found == wanted,
        (
            Plain::Threw { class, handle },
            Answer::Threw {
                class: kind,
                handle: at,
            },
        ) => { class == kind && handle == at }
        (Plain::Spent, Answer::Spent) => true,
        _ => false,
    }
}

fn has_words(memory: &[u16], words: &[(usize, u16)]) -> bool {
    words
        .iter()
        .all(|(at, word)| *at < memory.len() && memory[*at] == *word)
}

fn args<'a>(alloc: Global, run: &Run) -> Result<Args<'a>, AllocError> {
    let mut args = Args::new(alloc);
    args.push(Arg::Number(run.args[0]))?;
    args.push(Arg::Number(run.args[1]))?;
    Ok(args)
}

/// Memory of so many words, of which none is what a run begins with.
pub(crate) fn memory(alloc: Global, words: usize) -> Result<Vec<u16>, AllocError>
    ensures { IfOk result (λ v. length v.items ≡ words) }
{
    vec![in alloc; 0xA5A5u16; words]
}

/// Whether the machine that tests what it does answers so.
fn is_tested(alloc: Global, accepted: &Accepted<'_>, run: &Run) -> Result<bool, AllocError> {
    let args = args(alloc, run)?;
    Ok(match vm_defend::start(alloc, accepted.world(), 0, &args) {
        Err(_) => false,
        Ok(state) => {
            let mut state = state;
            match vm_defend::run(accepted.world(), &mut state, run.budget) {
                Ending::Plain(plain) => is_answer(plain, run.answer),
                Ending::Faulted(_) => false,
            }
        }
    })
}

/// Whether the machine that tests nothing answers so.
fn is_untested(
    alloc: Global,
    accepted: &Accepted<'_>,
    run: &Run,
    ram: &mut [u16],
    heap: &mut [u16],
    statics: &mut [u16],
) -> Result<bool, AllocError>
    requires { AreSized accepted.now ram.old heap.old statics.old }
{
    let args = args(alloc, run)?;
    Ok(match start(accepted, 0, &args, ram, heap, statics) {
        Err(_) => false,
        Ok(machine) => {
            let mut machine = machine;
            is_answer(
                machine.run(accepted, ram, heap, statics, run.budget),
                run.answer,
            )
        }
    })
}

/// Whether both machines answer so, and the one that tests nothing leaves these words.
fn is_accepted_run(alloc: Global, accepted: &Accepted<'_>, run: &Run) -> Result<bool, AllocError> {
    let sizes = sizes(accepted.world());
    let mut ram = memory(alloc, sizes.ram)?;
    let mut heap = memory(alloc, sizes.heap)?;
    let mut statics = memory(alloc, sizes.statics)?;
    let untested = is_untested(
        alloc,
        accepted,
        run,
        ram.as_mut_slice(),
        heap.as_mut_slice(),
        statics.as_mut_slice(),
    )?;
    let words = has_words(ram.as_slice(), run.ram) && has_words(heap.as_slice(), run.heap);
    Ok(untested && words && is_tested(alloc, accepted, run)?)
}

/// Whether the run of the world's method is as it is told.
fn is_run_in(alloc: Global, world: &World<'_>, run: &Run) -> Result<bool, AllocError> {
    let mut room = CardRoom::new();
    match accept(world, &mut room) {
        Err(_) => Ok(false),
        Ok(accepted) => is_accepted_run(alloc, &accepted, run),
    }
}

fn is_run(alloc: Global, run: &Run) -> Result<bool, AllocError> {
    if run.code.is_empty() || 32767 < run.code.len() {
        return Ok(false);
    }
    let world = world(alloc, Shape::Shorts, run.code, &[])?;
    is_run_in(alloc, &world, run)
}

/// The number of the first run that is not as it is told, or the number of all.
fn first_wrong(alloc: Global) -> Result<usize, AllocError> {
    for (n, run) in RUNS.iter().enumerate() {
        if !is_run(alloc, run)? {
            return Ok(n);
        }
    }
    Ok(RUNS.len())
}

#[test]
fn both_machines_answer_alike_and_words_are_left(rt: HostRuntime) -> Result<(), AllocError> {
    assert_eq!(rt; first_wrong(rt.alloc())?, RUNS.len());
    Ok(())
}
