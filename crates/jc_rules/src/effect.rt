ghost use Rattle.std.specs.Prelude.{◌≡◌, ◌+◌, ◌<◌, ◌≤◌, ◌∷◌, ◌++◌, length, map, max, not, All};
ghost use Rattle.jc_base.specs.Order.{IsKnown, IsJoin, is_below};
ghost use Rattle.jc_rules.specs.Stack.{cells};
ghost use Rattle.jc_rules.specs.Effect.{changed, ready, in_stack_order, cells_needed, depth_after, WritesRegister, StoresInRegisters, raises_register};

use jc_base::{Classes, Ty, below, join};

/// What is pushed or stored: nothing, one cell, or both cells of an int.
#[derive(Clone, Copy)]
pub enum Cells {
    Nothing,
    One(Ty),
    Int,
}

/// What becomes of the stack. Numbers count cells from the top.
#[derive(Clone, Copy)]
pub enum Change {
    /// The top cells give place to others.
    Replace {
        taken: u8,
        given: Cells,
    },
    /// A copy of the top cells goes under the first of them, as many as are told, or on top.
    CopyUnder {
        copied: u8,
        under: u8,
    },
    /// The top cells change places with the cells under them.
    Exchange {
        top: u8,
        under: u8,
    },
    /// The top cells give place to others, and every object that the `new` at the place made is ready, of
    /// this class.
    MakeReady {
        taken: u8,
        place: u16,
        class: u16,
        given: Cells,
    },
}

/// What goes into registers, from one on.
#[derive(Clone, Copy)]
pub struct RegisterStore {
    pub register: u8,
    pub cells: Cells,
}

/// What an instruction does to the stack and to the registers.
#[derive(Clone, Copy)]
pub struct Effect {
    pub change: Change,
    pub store: RegisterStore,
}

/// How a store writes: on the card it raises one list of registers, in the dataflow it replaces.
#[derive(Clone, Copy)]
pub enum Mode {
    Card,
    Flow,
}

impl Cells {
    /// How many cells they are: at most two.
    pub fn count(self) -> u8
        ensures { result ≡ length (in_stack_order self) }
    {
        match self {
            Cells::Nothing => 0,
            Cells::One(_) => 1,
            Cells::Int => 2,
        }
    }
}

impl Change {
    /// The number of cells afterwards on a stack of `depth` cells, which has the cells that go.
    pub fn depth_after(self, depth: u8) -> usize
        ensures { result ≡ depth_after self depth }
    {
        let depth = depth as usize;
        match self {
            Change::Replace { taken, given } | Change::MakeReady { taken, given, .. } => {
                depth.saturating_sub(taken as usize) + given.count() as usize
            }
            Change::CopyUnder { copied, .. } => depth + copied as usize,
            Change::Exchange { .. } => depth,
        }
    }
}

/// Changes the stack, which is the first `depth` cells of the slice, and tells how many cells it has then.
#[inline(always)]
pub fn change_stack(stack: &mut [Ty], depth: u8, change: Change) -> u8
    requires depth { depth ≤ length stack.old }
    requires there { cells_needed change ≤ depth }
    requires room { depth_after change depth ≤ length stack.old }
    requires small { length stack.old ≤ 255 }
    ensures depth { result ≡ depth_after change depth }
    ensures stack { cells stack.new result ≡ changed change (cells stack.old depth) }
{
    match change {
        Change::Replace { taken, given } => push(stack, depth - taken, given),
        Change::CopyUnder { copied, under } => copy_under(stack, depth, copied, under),
        Change::Exchange { top, under } => exchange(stack, depth, top, under),
        Change::MakeReady {
            taken,
            place,
            class,
            given,
        } => {
            let left = make_ready(stack, depth - taken, place, class);
            push(stack, left, given)
        }
    }
}

fn push(stack: &mut [Ty], depth: u8, given: Cells) -> u8
    requires room { depth + length (in_stack_order given) ≤ length stack.old }
    requires small { length stack.old ≤ 255 }
    ensures depth { result ≡ depth + length (in_stack_order given) }
    ensures stack { cells stack.new result ≡ in_stack_order given ++ cells stack.old depth }
{
    match given {
        Cells::Nothing => depth,
        Cells::One(ty) => push_one(stack, depth, ty),
        Cells::Int => {
            let above_high = push_one(stack, depth, Ty::IntHigh);
            push_one(stack, above_high, Ty::IntLow)
        }
    }
}

fn push_one(stack: &mut [Ty], depth: u8, ty: Ty) -> u8
    requires room { depth < length stack.old }
    requires small { length stack.old ≤ 255 }
    ensures depth { result ≡ depth + 1 }
    ensures stack { cells stack.new result ≡ ty ∷ cells stack.old depth }
{
    stack[depth as usize] = ty;
    depth + 1
}

fn copy_under(stack: &mut [Ty], depth: u8, copied: u8, under: u8) -> u8
    requires room { depth + copied ≤ length stack.old }
    requires there { max copied under ≤ depth }
    requires small { length stack.old ≤ 255 }
    ensures depth { result ≡ depth + copied }
    ensures stack { cells stack.new result ≡ changed (Change.CopyUnder copied under) (cells stack.old depth) }
{
    let (top, count) = (depth as usize, copied as usize);
    stack.copy_within(top - count..top, top);
    stack[top - under as usize..top + count].rotate_right(count);
    depth + copied
}

fn exchange(stack: &mut [Ty], depth: u8, top: u8, under: u8) -> u8
    requires there { top + under ≤ depth }
    requires inside { depth ≤ length stack.old }
    ensures depth { result ≡ depth }
    ensures stack { cells stack.new result ≡ changed (Change.Exchange top under) (cells stack.old depth) }
{
    let end = depth as usize;
    stack[end - top as usize - under as usize..end].rotate_left(under as usize);
    depth
}

fn make_ready(stack: &mut [Ty], depth: u8, place: u16, class: u16) -> u8
    requires inside { depth ≤ length stack.old }
    ensures depth { result ≡ depth }
    ensures stack { cells stack.new result ≡ map (ready place class) (cells stack.old depth) }
{
    ready_all(&mut stack[..depth as usize], place, class);
    depth
}

fn ready_all(cells: &mut [Ty], place: u16, class: u16)
    ensures { cells.new ≡ map (ready place class) cells.old }
{
    for cell in cells.iter_mut() {
        *cell = ready(*cell, place, class);
    }
}

/// The type of a cell once the objects that the `new` at the place made are ready.
fn ready(ty: Ty, place: u16, class: u16) -> Ty
    ensures { result ≡ ready place class ty }
{
    match ty {
        Ty::Fresh { place: made_at, .. } if made_at == place => Ty::Class(class),
        other => other,
    }
}

/// Writes what is stored into the registers, and tells whether one rose.
pub fn change_regs(classes: &Classes, regs: &mut [Ty], store: RegisterStore, mode: Mode) -> bool
    requires inside { store.register + length (in_stack_order store.cells) ≤ length regs.old }
    requires small { length regs.old ≤ 255 }
    requires regs_known { All (IsKnown classes.now) regs.old }
    requires stored_known { All (IsKnown classes.now) (in_stack_order store.cells) }
    ensures value { StoresInRegisters classes.now mode store regs.old regs.new }
    ensures known { All (IsKnown classes.now) regs.new }
    ensures rose { result ≡ raises_register classes.now mode store regs.old }
{
    match store.cells {
        Cells::Nothing => false,
        Cells::One(ty) => write(classes, regs, store.register, ty, mode),
        Cells::Int => {
            let high = write(classes, regs, store.register, Ty::IntHigh, mode);
            let low = write(classes, regs, store.register + 1, Ty::IntLow, mode);
            high || low
        }
    }
}

fn write(classes: &Classes, regs: &mut [Ty], x: u8, ty: Ty, mode: Mode) -> bool
    requires inside { x < length regs.old }
    requires regs_known { All (IsKnown classes.now) regs.old }
    requires ty_known { IsKnown classes.now ty }
    ensures value { WritesRegister classes.now mode x ty regs.old regs.new }
    ensures regs_known { All (IsKnown classes.now) regs.new }
    ensures rose { result ≡ raises_register classes.now mode (record { register = x; cells = Cells.One ty }) regs.old }
{
    let x = x as usize;
    match mode {
        Mode::Flow => {
            regs[x] = ty;
            false
        }
        Mode::Card => {
            let (now, rose) = over(classes, regs[x], ty);
            regs[x] = now;
            rose
        }
    }
}

/// What a register of the card holds once a value of type `ty` is stored over one of type `held`, and whether
/// it rose.
fn over(classes: &Classes, held: Ty, ty: Ty) -> (Ty, bool)
    requires held_known { IsKnown classes.now held }
    requires ty_known { IsKnown classes.now ty }
    ensures value { IsJoin classes.now held ty result.0 }
    ensures known { IsKnown classes.now result.0 }
    ensures rose { result.1 ≡ not (is_below classes.now ty held) }
{
    if below(classes, ty, held) {
        (held, false)
    } else {
        (join(classes, held, ty), true)
    }
}
