ghost use Rattle.std.specs.Prelude.{◌≡◌, ◌+◌, ◌≤◌, ◌<◌, reverse};
ghost use Rattle.jc_ops.specs.declared.operation.Sort.TheVariants as sorts;
ghost use Rattle.jc_rules.specs.Demand.{AreKnown, frame, IsChecked, IsJudged};
ghost use Rattle.jc_ops.specs.Sound.{IsMove};
ghost use Rattle.jc_rules.specs.Effect.{reg};
ghost use Rattle.jc_rules.specs.Rule.{cell, or_null, number, number_given, size, replacing, constant_effect, load_demands, load_effect, store_demands, store_effect, increment_demands, increment_effect, move_demands, move_effect, arithmetic_demands, arithmetic_effect, on_stack, storing, a_reference, two_numbers};

use crate::demand::{Before, Demand};
use crate::effect::{Cells, Change, Effect, RegisterStore};
use jc_base::Ty;
use jc_ops::{Arithmetic, Constant, Move, RuleFault, Sort, Want, Width};

pub(crate) const SHORT: Want = Want::Value(Ty::Short);

pub(crate) const INT_LOW: Want = Want::Value(Ty::IntLow);

pub(crate) const INT_HIGH: Want = Want::Value(Ty::IntHigh);

impl Effect {
    /// The top cells give place to others.
    pub(crate) fn replacing(taken: u8, given: Cells) -> Effect
        ensures { result ≡ replacing taken given }
    {
        Effect::on_stack(Change::Replace { taken, given })
    }

    pub(crate) fn on_stack(change: Change) -> Effect
        ensures { result ≡ on_stack change }
    {
        Effect {
            change,
            store: RegisterStore {
                register: 0,
                cells: Cells::Nothing,
            },
        }
    }

    fn storing(taken: u8, register: u8, cells: Cells) -> Effect
        ensures { result ≡ storing taken register cells }
    {
        Effect {
            change: Change::Replace {
                taken,
                given: Cells::Nothing,
            },
            store: RegisterStore { register, cells },
        }
    }
}

pub(crate) fn size(width: Width) -> u8
    ensures { result ≡ size width }
{
    match width {
        Width::Short => 1,
        Width::Int => 2,
    }
}

/// The cells of a number.
fn number_given(width: Width) -> Cells
    ensures { result ≡ number_given width }
{
    match width {
        Width::Short => Cells::One(Ty::Short),
        Width::Int => Cells::Int,
    }
}

/// What a constant pushes.
pub(crate) fn constant(constant: Constant) -> Effect
    ensures { result ≡ constant_effect constant }
{
    let given = match constant {
        Constant::Nothing => Cells::Nothing,
        Constant::Null => Cells::One(Ty::Null),
        Constant::Short(_) => Cells::One(Ty::Short),
        Constant::Int(_) => Cells::Int,
    };
    Effect::replacing(0, given)
}

/// The join of the type of a reference with null's.
fn or_null(ty: Ty) -> Ty
    ensures { result ≡ or_null ty }
{
    match ty {
        Ty::Bottom => Ty::Null,
        other => other,
    }
}

impl Before<'_> {
    /// A reference to an object or an array.
    pub(crate) fn a_reference(&self) -> Want
        ensures { result ≡ a_reference self.now.world.now.classes }
    {
        Want::Value(Ty::Class(self.world.role(0)))
    }

    /// The type of a register, and Top where there is none.
    fn held(&self, x: u8) -> Ty
        ensures { result ≡ reg self.now.regs.now x }
    {
        self.reg(x).unwrap_or(Ty::Top)
    }

    /// The type of the cell under `n` others, and Top where there is none.
    pub(crate) fn found(&self, n: u8) -> Ty
        ensures { result ≡ cell (reverse self.now.stack.now) n }
    {
        self.cell(n).unwrap_or(Ty::Top)
    }

    pub(crate) fn load(&self, sort: Sort, x: u8) -> Result<Effect, RuleFault>
        requires { AreKnown self.now.world.now.classes (frame self.now) }
        ensures { IsJudged self.now.world.now.classes (frame self.now)
            (load_demands self.now.world.now.classes sort x)
            (load_effect sort x (frame self.now)) result }
    {
        match sort {
            Sort::Reference => {
                self.check(&[
                    Demand::Registers(x, 1),
                    Demand::Held(x, Ty::Class(self.world.role(0))),
                ])?;
                Ok(Effect::replacing(0, Cells::One(or_null(self.held(x)))))
            }
            Sort::Short => {
                self.check(&[Demand::Registers(x, 1), Demand::Held(x, Ty::Short)])?;
                Ok(Effect::replacing(0, Cells::One(Ty::Short)))
            }
            Sort::Int => {
                self.check_int(x)?;
                Ok(Effect::replacing(0, Cells::Int))
            }
        }
    }

    /// Checks that an int stands in register `x` and the one after it.
    fn check_int(&self, x: u8) -> Result<(), RuleFault>
        requires { AreKnown self.now.world.now.classes (frame self.now) }
        ensures { IsChecked self.now.world.now.classes (frame self.now)
            (load_demands self.now.world.now.classes sorts.Int x) result }
    {
        if x as usize + 2 > self.regs.len() {
            return Err(RuleFault::NoLocal(x));
        }
        self.check(&[
            Demand::Held(x, Ty::IntHigh),
            Demand::Held(x + 1, Ty::IntLow),
        ])
    }

    pub(crate) fn store(&self, sort: Sort, x: u8) -> Result<Effect, RuleFault>
        requires { AreKnown self.now.world.now.classes (frame self.now) }
        ensures { IsJudged self.now.world.now.classes (frame self.now) (store_demands sort x)
            (store_effect sort x (frame self.now)) result }
    {
        match sort {
            Sort::Reference => {
                self.check(&[Demand::Registers(x, 1), Demand::Cell(0, Want::Storable)])?;
                Ok(Effect::storing(1, x, Cells::One(self.found(0))))
            }
            Sort::Short => {
                self.check(&[Demand::Registers(x, 1), Demand::Cell(0, SHORT)])?;
                Ok(Effect::storing(1, x, Cells::One(Ty::Short)))
            }
            Sort::Int => {
                self.check(&[
                    Demand::Registers(x, 2),
                    Demand::Cell(0, INT_LOW),
                    Demand::Cell(1, INT_HIGH),
                ])?;
                Ok(Effect::storing(2, x, Cells::Int))
            }
        }
    }

    pub(crate) fn increment(&self, width: Width, x: u8) -> Result<Effect, RuleFault>
        requires { AreKnown self.now.world.now.classes (frame self.now) }
        ensures { IsJudged self.now.world.now.classes (frame self.now) (increment_demands width x) (increment_effect width x) result }
    {
        match width {
            Width::Short => self.check(&[Demand::Registers(x, 1), Demand::Held(x, Ty::Short)])?,
            Width::Int => self.check_int(x)?,
        }
        Ok(Effect::storing(0, x, number_given(width)))
    }

    pub(crate) fn moved(&self, cells: Move) -> Result<Effect, RuleFault>
        requires frame { AreKnown self.now.world.now.classes (frame self.now) }
        requires small { IsMove cells }
        ensures { IsJudged self.now.world.now.classes (frame self.now) (move_demands cells) (move_effect cells) result }
    {
        match cells {
            Move::Pop => {
                self.check(&[Demand::Cell(0, Want::Whole)])?;
                Ok(Effect::replacing(1, Cells::Nothing))
            }
            Move::PopTwo => {
                self.check(&[Demand::Depth(2), Demand::Cut(2)])?;
                Ok(Effect::replacing(2, Cells::Nothing))
            }
            Move::Duplicate => {
                self.check(&[Demand::Cell(0, Want::Whole)])?;
                Ok(Effect::on_stack(Change::CopyUnder {
                    copied: 1,
                    under: 0,
                }))
            }
            Move::DuplicateTwo => {
                self.check(&[Demand::Depth(2), Demand::Cut(2)])?;
                Ok(Effect::on_stack(Change::CopyUnder {
                    copied: 2,
                    under: 0,
                }))
            }
            Move::CopyUnder { copied, under } => self.copied_under(copied, under),
            Move::Exchange { top, under } => self.exchanged(top, under),
        }
    }

    /// A copy of the top `m` cells goes under the first `n`.
    fn copied_under(&self, m: u8, n: u8) -> Result<Effect, RuleFault>
        requires { AreKnown self.now.world.now.classes (frame self.now) }
        ensures { IsJudged self.now.world.now.classes (frame self.now)
            (move_demands (Move.CopyUnder m n))
            (move_effect (Move.CopyUnder m n)) result }
    {
        self.check(&[
            Demand::Depth(m),
            Demand::Cut(m),
            Demand::Depth(n),
            Demand::Cut(n),
        ])?;
        Ok(Effect::on_stack(Change::CopyUnder {
            copied: m,
            under: n,
        }))
    }

    /// The top `m` cells change places with the `n` under them.
    fn exchanged(&self, m: u8, n: u8) -> Result<Effect, RuleFault>
        requires frame { AreKnown self.now.world.now.classes (frame self.now) }
        requires small { m + n ≤ 255 }
        ensures { IsJudged self.now.world.now.classes (frame self.now)
            (move_demands (Move.Exchange m n))
            (move_effect (Move.Exchange m n)) result }
    {
        self.check(&[
            Demand::Depth(m),
            Demand::Cut(m),
            Demand::Depth(m + n),
            Demand::Cut(m + n),
        ])?;
        Ok(Effect::on_stack(Change::Exchange { top: m, under: n }))
    }

    /// The effect, if a number is on top of the stack.
    pub(crate) fn on_number(&self, width: Width, effect: Effect) -> Result<Effect, RuleFault>
        requires { AreKnown self.now.world.now.classes (frame self.now) }
        ensures { IsJudged self.now.world.now.classes (frame self.now) (number width 0) effect result }
    {
        match width {
            Width::Short => self.check(&[Demand::Cell(0, SHORT)])?,
            Width::Int => self.check(&[Demand::Cell(0, INT_LOW), Demand::Cell(1, INT_HIGH)])?,
        }
        Ok(effect)
    }

    /// The effect, if two numbers are on top of the stack.
    fn on_two_numbers(&self, width: Width, effect: Effect) -> Result<Effect, RuleFault>
        requires { AreKnown self.now.world.now.classes (frame self.now) }
        ensures { IsJudged self.now.world.now.classes (frame self.now) (two_numbers width) effect result }
    {
        match width {
            Width::Short => self.check(&[Demand::Cell(0, SHORT), Demand::Cell(1, SHORT)])?,
            Width::Int => self.check(&[
                Demand::Cell(0, INT_LOW),
                Demand::Cell(1, INT_HIGH),
                Demand::Cell(2, INT_LOW),
                Demand::Cell(3, INT_HIGH),
            ])?,
        }
        Ok(effect)
    }

    pub(crate) fn computed(&self, arithmetic: Arithmetic) -> Result<Effect, RuleFault>
        requires { AreKnown self.now.world.now.classes (frame self.now) }
        ensures { IsJudged self.now.world.now.classes (frame self.now)
            (arithmetic_demands arithmetic) (arithmetic_effect arithmetic) result }
    {
        let short = Cells::One(Ty::Short);
        match arithmetic {
            Arithmetic::Binary(_, width) => {
                let computed = Effect::replacing(2 * size(width), number_given(width));
                self.on_two_numbers(width, computed)
            }
            Arithmetic::Negate(width) => {
                self.on_number(width, Effect::replacing(size(width), number_given(width)))
            }
            Arithmetic::ShortToByte => self.on_number(Width::Short, Effect::replacing(1, short)),
            Arithmetic::ShortToInt => {
                self.on_number(Width::Short, Effect::replacing(1, Cells::Int))
            }
            Arithmetic::IntToByte | Arithmetic::IntToShort => {
                self.on_number(Width::Int, Effect::replacing(2, short))
            }
            Arithmetic::CompareInts => self.on_two_numbers(Width::Int, Effect::replacing(4, short)),
        }
    }
}
