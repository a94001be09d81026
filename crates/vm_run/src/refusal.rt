//! Why a run does not begin.
ghost use Rattle.std.specs.Prelude.{◌≡◌, ◌<◌, ◌≤◌, length, filter, map, sum_by};
ghost use Rattle.vm_step.specs.Arguments.{argument_of};
ghost use Rattle.vm_step.specs.Start.{can_begin, is_parameter, is_short, fits, first_misfit, first_without_room, method_fault, start_fault};

use jc_base::{MethodRec, Ty, World, is_reference};
use vm_step::{Arg, Args, StartFault};

/// The most objects of a run.
const OBJECTS: usize = 4096;

/// The most cells of all objects of a run.
const CELLS: usize = 32768;

/// Why a run of an entry does not begin with these arguments, where it does not.
pub fn start_fault(world: &World<'_>, entry: u16, args: &Args<'_>) -> Option<StartFault>
    ensures { result ≡ start_fault world.now entry args.now }
{
    if entry < world.method_count() {
        method_fault(world, world.method(entry), args)
    } else {
        Some(StartFault::NoEntry)
    }
}

/// Why a method of the world does not begin a run, where it does not.
fn method_fault(world: &World<'_>, method: &MethodRec, args: &Args<'_>) -> Option<StartFault>
    requires class { method.now.class < length world.now.classes.records }
    requires few { length method.now.sig.args ≤ 255 }
    ensures { result ≡ method_fault world.now method.now args.now }
{
    let types = method.sig.args.as_slice();
    let wanted = parameter_count(types);
    if !can_begin(world, method) {
        Some(StartFault::NotStatic)
    } else if args.len() != wanted {
        Some(StartFault::ArgCount {
            said: args.len(),
            wanted: wanted as u16,
        })
    } else if let Some(n) = first_misfit(args, types) {
        Some(StartFault::ArgKind(n))
    } else {
        first_without_room(world, args).map(StartFault::ArgRoom)
    }
}

/// Whether a method is called without a receiver, and has code.
fn can_begin(world: &World<'_>, method: &MethodRec) -> bool
    requires { method.now.class < length world.now.classes.records }
    ensures { result ≡ can_begin world.now method.now }
{
    method.is_static && !method.is_abstract && !world.classes().is_interface(method.class)
}

/// Whether an argument word begins a parameter: the low half of an int does not.
pub fn is_parameter(ty: Ty) -> bool
    ensures { result ≡ is_parameter ty }
{
    !matches!(ty, Ty::IntLow)
}

fn parameter_count(types: &[Ty]) -> usize
    ensures value { result ≡ length (filter is_parameter types.now) }
    ensures few { result ≤ length types.now }
{
    types.iter().filter(|ty| is_parameter(**ty)).count()
}

/// Whether a number is one of 16 bits.
fn is_short(number: i32) -> bool
    ensures { result ≡ is_short number }
{
    -32768 <= number && number <= 32767
}

/// Whether an argument fits a parameter.
fn fits(arg: Arg<'_>, ty: Ty) -> bool
    ensures { result ≡ fits (argument_of arg.entry) ty }
{
    match arg {
        Arg::Number(number) => match ty {
            Ty::Short => is_short(number),
            _ => matches!(ty, Ty::IntHigh),
        },
        Arg::Null => is_reference(ty),
        Arg::Bytes(_) => matches!(ty, Ty::ArrByte),
    }
}

/// The number of the first argument that does not fit its parameter.
fn first_misfit(args: &Args<'_>, types: &[Ty]) -> Option<u16>
    requires { length types.now ≤ 255 }
    ensures { result ≡ first_misfit 0 args.now (filter is_parameter types.now) }
{
    let mut n = 0;
    'types: for ty in types {
        if !is_parameter(*ty) {
            continue;
        }
        if args.len() <= n as usize {
            return None;
        }
        if !fits(args.at(n as usize), *ty) {
            return Some(n);
        }
        n += 1;
    }
    None
}

/// How many cells the initial arrays have.
fn initial_cells(world: &World<'_>) -> usize
    ensures value { result ≡ sum_by (λ a. length a.initial) world.now.arrays }
    ensures few { result ≤ 32768 }
{
    let _facts = world.classes();
    let mut cells = 0;
    'arrays: for n in 0..world.array_count() {
        cells += world.array(n).initial.len();
    }
    cells
}

/// The number of the first argument whose array has no room.
fn first_without_room(world: &World<'_>, args: &Args<'_>) -> Option<u16>
    requires { length args.now ≤ 255 }
    ensures { result
        ≡ first_without_room 0 (length world.now.arrays) (sum_by (λ a. length a.initial) world.now.arrays) args.now }
{
    let mut objects = world.array_count() as usize;
    let mut cells = initial_cells(world);
    let mut n = 0;
    'each: for arg in args.as_slice() {
        if let Arg::Bytes(bytes) = *arg {
            if OBJECTS <= objects || CELLS - cells < bytes.len() {
                return Some(n);
            }
            objects += 1;
            cells += bytes.len();
        }
        n += 1;
    }
    None
}
