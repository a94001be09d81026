ghost use Rattle.std.specs.Prelude.{◌≡◌, ◌≤◌, ◌<◌, length, take, drop, reverse, sum_by, All, MatchBool, if◌then◌else◌, ◌||◌, ◌↔◌, IsTrue};
ghost use Rattle.jc_base.specs.Order.{IsKnown, rises_left};
ghost use Rattle.jc_rules.specs.Flow.{CellsJoin, IsNotTop};
ghost use Rattle.jc_rules.specs.Held.{IsParted, parted, lent};
ghost use Rattle.jc_rules.specs.Typing.{IsMerged, RaisesOrStays};
ghost use Rattle.jc_rules.specs.Variant.{variant_of, has_names};

use crate::demand::HeldFrame;
use jc_base::{Classes, Ty, below, join, same_type, types_are_ordered};

/// What became of a state that another was merged into.
#[derive(Clone, Copy)]
pub enum Merged {
    /// It was above the other already.
    Same,
    /// It is higher now.
    Risen,
    /// The stacks do not merge: their depths differ, or a cell's join is Top.
    Clashing,
}

impl HeldFrame<'_> {
    /// The types of the registers.
    pub fn regs(&self) -> &[Ty]
        ensures { result.now ≡ (lent self.now).regs }
    {
        self.regs
    }

    /// The stack, with its top last.
    pub fn stack(&self) -> &[Ty]
        ensures is { (lent self.now).stack ≡ reverse result.now }
        ensures few { length result.now ≤ 255 }
    {
        self.stack
    }
}

/// Raises a frame of so many registers to the join with another. Where the stacks do not merge it is left anyhow.
pub(crate) fn merge_cells(
    classes: &Classes,
    cells: &mut [Ty],
    registers: usize,
    regs: &[Ty],
    stack: &[Ty],
) -> Merged
    requires parted { IsParted registers cells.old }
    requires count { length regs.now ≡ registers }
    requires regs_known { All (IsKnown classes.now) regs.now }
    requires stack_known { All (IsKnown classes.now) stack.now }
    requires own_regs_known { All (IsKnown classes.now) (take registers cells.old) }
    requires own_stack_known { All (IsKnown classes.now) (drop registers cells.old) }
    ensures merged { IsMerged classes.now (parted registers cells.old)
        (record { regs = regs.now; stack = reverse stack.now })
        (parted registers cells.new) result }
    ensures len { length cells.new ≡ length cells.old }
{
    if cells.len() - registers != stack.len() {
        return Merged::Clashing;
    }
    let (own_regs, own_stack) = cells.split_at_mut(registers);
    merge_parts(classes, own_regs, own_stack, regs, stack)
}

/// Raises registers and a stack to the joins with others, where the stacks merge.
fn merge_parts(
    classes: &Classes,
    own_regs: &mut [Ty],
    own_stack: &mut [Ty],
    regs: &[Ty],
    stack: &[Ty],
) -> Merged
    requires registers { length own_regs.old ≡ length regs.now }
    requires depth { length own_stack.old ≡ length stack.now }
    requires regs_known { All (IsKnown classes.now) regs.now }
    requires stack_known { All (IsKnown classes.now) stack.now }
    requires own_regs_known { All (IsKnown classes.now) own_regs.old }
    requires own_stack_known { All (IsKnown classes.now) own_stack.old }
    ensures merged { IsMerged classes.now
        (record { regs = own_regs.old; stack = reverse own_stack.old })
        (record { regs = regs.now; stack = reverse stack.now })
        (record { regs = own_regs.new; stack = reverse own_stack.new }) result }
    ensures registers { length own_regs.new ≡ length own_regs.old }
    ensures depth { length own_stack.new ≡ length own_stack.old }
{
    let stack_rises = raise(classes, own_stack, stack);
    if has_top(own_stack) {
        return Merged::Clashing;
    }
    let regs_rise = raise(classes, own_regs, regs);
    risen_if(stack_rises, regs_rise)
}

fn risen_if(stack_rises: bool, regs_rise: bool) -> Merged
    ensures { result ≡ (if stack_rises || regs_rise then Merged.Risen else Merged.Same) }
{
    if stack_rises || regs_rise {
        Merged::Risen
    } else {
        Merged::Same
    }
}

fn is_top(ty: Ty) -> bool
    ensures { MatchBool result (¬ (IsNotTop ty)) (IsNotTop ty) }
{
    matches!(ty, Ty::Top)
}

fn has_top(cells: &[Ty]) -> bool
    ensures { MatchBool result (¬ (All IsNotTop cells.now)) (All IsNotTop cells.now) }
{
    'cells: for cell in cells {
        if is_top(*cell) {
            return true;
        }
    }
    false
}

/// The join of what is held and another type, where the other is not below it. Most cells stay, as is seen before
/// they are copied.
fn raised(classes: &Classes, held: &Ty, other: &Ty) -> Option<Ty>
    requires held_known { IsKnown classes.now held.now }
    requires other_known { IsKnown classes.now other.now }
    ensures { RaisesOrStays classes.now held.now other.now result }
{
    if is_top(*held) || same_type(*other, *held) {
        return None;
    }
    higher(classes, *held, *other)
}

/// The same for cells that are not equal. What is held mostly rises by a step to the other, so that is asked first.
fn higher(classes: &Classes, held: Ty, other: Ty) -> Option<Ty>
    requires held_known { IsKnown classes.now held }
    requires other_known { IsKnown classes.now other }
    requires differ { ¬ (other ≡ held) }
    ensures { RaisesOrStays classes.now held other result }
{
    types_are_ordered(classes);
    if below(classes, held, other) {
        Some(other)
    } else if below(classes, other, held) {
        None
    } else {
        Some(join(classes, held, other))
    }
}

/// Raises each cell to the join with the one beside it, and says whether any rose.
fn raise(classes: &Classes, cells: &mut [Ty], others: &[Ty]) -> bool
    requires count { length cells.old ≡ length others.now }
    requires known { All (IsKnown classes.now) cells.old }
    requires others_known { All (IsKnown classes.now) others.now }
    ensures len { length cells.new ≡ length cells.old }
    ensures joins { CellsJoin classes.now cells.old others.now cells.new }
    ensures rises { MatchBool result
        (sum_by (rises_left classes.now) cells.new < sum_by (rises_left classes.now) cells.old)
        (cells.new ≡ cells.old) }
{
    let mut rises = false;
    'cells: for n in 0..others.len() {
        if let Some(higher) = raised(classes, &cells[n], &others[n]) {
            cells[n] = higher;
            rises = true;
        }
    }
    rises
}

/// The number of a type's variant, in the order in which they are declared.
fn variant_of(ty: &Ty) -> u8
    ensures { result ≡ variant_of ty.now }
{
    match ty {
        Ty::Bottom => 0,
        Ty::Short => 1,
        Ty::IntHigh => 2,
        Ty::IntLow => 3,
        Ty::Null => 4,
        Ty::Class(_) => 5,
        Ty::ArrBool => 6,
        Ty::ArrByte => 7,
        Ty::ArrShort => 8,
        Ty::ArrInt => 9,
        Ty::ArrRef(_) => 10,
        Ty::Fresh { .. } => 11,
        Ty::Top => 12,
    }
}

/// Whether a type names a class or a place.
fn has_names(ty: &Ty) -> bool
    ensures { result ≡ has_names (variant_of ty.now) }
{
    matches!(ty, Ty::Class(_) | Ty::ArrRef(_) | Ty::Fresh { .. })
}

/// Whether two types are the same. Their variants are compared first, since most types have nothing else.
fn is_same(a: &Ty, b: &Ty) -> bool
    ensures { IsTrue result ↔ (a.now ≡ b.now) }
{
    variant_of(a) == variant_of(b) && (!has_names(a) || same_type(*a, *b))
}

/// Whether two lists of types are the same.
pub(crate) fn same_types(a: &[Ty], b: &[Ty]) -> bool
    ensures { IsTrue result ↔ (a.now ≡ b.now) }
{
    if a.len() != b.len() {
        return false;
    }
    'cells: for n in 0..a.len() {
        if !is_same(&a[n], &b[n]) {
            return false;
        }
    }
    true
}
