ghost use Rattle.std.specs.Prelude.{◌≡◌, ◌+◌, ◌<◌, ◌∷◌, [], ◌≤◌, length, reverse, IfSome, All};
ghost use Rattle.jc_base.specs.Class.{IsClass, object, throwable};
ghost use Rattle.jc_base.specs.declared.ty.Ty.TheVariants.{Class};
ghost use Rattle.jc_base.specs.Order.{IsKnown};
ghost use Rattle.jc_ops.specs.declared.operation.Want.TheVariants.{Value};
ghost use Rattle.jc_rules.specs.declared.demand.Demand.TheVariants.{Cell};
ghost use Rattle.jc_rules.specs.Demand.{AreKnown, frame, IsJudged, IsChecked};
ghost use Rattle.jc_ops.specs.Sound.{IsKnownWant, receiver_count};
ghost use Rattle.jc_rules.specs.Rule.{a_reference, element, array_wanted, array_read_demands, array_read_effect, array_write_demands};
ghost use Rattle.jc_rules.specs.Rule.{array_write_effect, branch_demands, branch_effect, value_given, value_wanted, value_size};
ghost use Rattle.jc_rules.specs.Rule.{field_read_demands, field_read_effect, field_write_demands, field_write_effect, type_test_effect};
ghost use Rattle.jc_rules.specs.Rule.{replacing, number, size, cells_wanted, call_demands, call_effect, ready_with};

use crate::demand::{Before, Demand};
use crate::effect::{Cells, Change, Effect};
use crate::values::{INT_HIGH, INT_LOW, SHORT, size};
use jc_base::{Kind, Sig, Ty};
use jc_ops::{Branch, Holder, RuleFault, TypeTest, Want, Width};

/// The type of an element of an array of references.
fn element(array: Ty) -> Ty
    ensures { result ≡ element array }
{
    match array {
        Ty::ArrRef(class) => Ty::Class(class),
        _ => Ty::Null,
    }
}

/// The cells of a value of a declared type.
pub(crate) fn value_given(ty: Ty) -> Cells
    ensures { result ≡ value_given ty }
{
    match ty {
        Ty::IntHigh => Cells::Int,
        other => Cells::One(other),
    }
}

pub(crate) fn value_size(ty: Ty) -> u8
    ensures { result ≡ value_size ty }
{
    match ty {
        Ty::IntHigh => 2,
        _ => 1,
    }
}

impl Before<'_> {
    /// The array of the elements of a kind.
    fn array_wanted(&self, kind: Kind) -> Want
        requires { IsClass self.now.world.now.classes (object self.now.world.now.classes) }
        ensures is { result ≡ array_wanted self.now.world.now.classes kind }
        ensures known { IsKnownWant self.now.world.now.classes result }
    {
        match kind {
            Kind::Ref => Want::Value(Ty::ArrRef(self.world.role(0))),
            Kind::Byte => Want::ByteArray,
            Kind::Short => Want::Value(Ty::ArrShort),
            Kind::Int => Want::Value(Ty::ArrInt),
        }
    }

    pub(crate) fn array_read(&self, kind: Kind) -> Result<Effect, RuleFault>
        requires { AreKnown self.now.world.now.classes (frame self.now) }
        ensures { IsJudged self.now.world.now.classes (frame self.now)
            (array_read_demands self.now.world.now.classes kind)
            (array_read_effect kind (frame self.now)) result }
    {
        self.check(&[
            Demand::Cell(0, SHORT),
            Demand::Cell(1, self.array_wanted(kind)),
        ])?;
        let given = match kind {
            Kind::Ref => Cells::One(element(self.found(1))),
            Kind::Byte | Kind::Short => Cells::One(Ty::Short),
            Kind::Int => Cells::Int,
        };
        Ok(Effect::replacing(2, given))
    }

    pub(crate) fn array_write(&self, kind: Kind) -> Result<Effect, RuleFault>
        requires { AreKnown self.now.world.now.classes (frame self.now) }
        ensures { IsJudged self.now.world.now.classes (frame self.now)
            (array_write_demands self.now.world.now.classes kind) (array_write_effect kind) result }
    {
        let array = self.array_wanted(kind);
        match kind {
            Kind::Ref => {
                self.check(&[
                    Demand::Cell(0, self.a_reference()),
                    Demand::Cell(1, SHORT),
                    Demand::Cell(2, array),
                ])?;
                Ok(Effect::replacing(3, Cells::Nothing))
            }
            Kind::Byte | Kind::Short => {
                self.check(&[
                    Demand::Cell(0, SHORT),
                    Demand::Cell(1, SHORT),
                    Demand::Cell(2, array),
                ])?;
                Ok(Effect::replacing(3, Cells::Nothing))
            }
            Kind::Int => {
                self.check(&[
                    Demand::Cell(0, INT_LOW),
                    Demand::Cell(1, INT_HIGH),
                    Demand::Cell(2, SHORT),
                    Demand::Cell(3, array),
                ])?;
                Ok(Effect::replacing(4, Cells::Nothing))
            }
        }
    }

    pub(crate) fn array_length(&self) -> Result<Effect, RuleFault>
        requires { AreKnown self.now.world.now.classes (frame self.now) }
        ensures { IsJudged self.now.world.now.classes (frame self.now) (Cell 0 Want.AnyArray ∷ [])
            (replacing 1 (Cells.One Ty.Short)) result }
    {
        self.check(&[Demand::Cell(0, Want::AnyArray)])?;
        Ok(Effect::replacing(1, Cells::One(Ty::Short)))
    }

    pub(crate) fn branched(&self, branch: Branch) -> Result<Effect, RuleFault>
        requires { AreKnown self.now.world.now.classes (frame self.now) }
        ensures { IsJudged self.now.world.now.classes (frame self.now)
            (branch_demands self.now.world.now.classes branch) (branch_effect branch) result }
    {
        let reference = self.a_reference();
        match branch {
            Branch::Always => Ok(Effect::replacing(0, Cells::Nothing)),
            Branch::Zero(_) => {
                self.check(&[Demand::Cell(0, SHORT)])?;
                Ok(Effect::replacing(1, Cells::Nothing))
            }
            Branch::Null(_) => {
                self.check(&[Demand::Cell(0, reference)])?;
                Ok(Effect::replacing(1, Cells::Nothing))
            }
            Branch::References(_) => {
                self.check(&[Demand::Cell(0, reference), Demand::Cell(1, reference)])?;
                Ok(Effect::replacing(2, Cells::Nothing))
            }
            Branch::Shorts(_) => {
                self.check(&[Demand::Cell(0, SHORT), Demand::Cell(1, SHORT)])?;
                Ok(Effect::replacing(2, Cells::Nothing))
            }
        }
    }

    pub(crate) fn switched(&self, width: Width) -> Result<Effect, RuleFault>
        requires { AreKnown self.now.world.now.classes (frame self.now) }
        ensures { IsJudged self.now.world.now.classes (frame self.now) (number width 0) (replacing (size width) Cells.Nothing) result }
    {
        self.on_number(width, Effect::replacing(size(width), Cells::Nothing))
    }

    /// A value of a declared type goes from the stack.
    pub(crate) fn popped(&self, ty: Ty) -> Result<Effect, RuleFault>
        requires frame { AreKnown self.now.world.now.classes (frame self.now) }
        requires ty { IsKnown self.now.world.now.classes ty }
        ensures { IsJudged self.now.world.now.classes (frame self.now) (value_wanted ty) (replacing (value_size ty) Cells.Nothing) result }
    {
        match ty {
            Ty::IntHigh => self.check(&[Demand::Cell(0, INT_LOW), Demand::Cell(1, INT_HIGH)])?,
            _ => self.check(&[Demand::Cell(0, Want::Value(ty))])?,
        }
        Ok(Effect::replacing(value_size(ty), Cells::Nothing))
    }

    pub(crate) fn field_read(&self, holder: Holder, class: u16, ty: Ty) -> Result<Effect, RuleFault>
        requires frame { AreKnown self.now.world.now.classes (frame self.now) }
        requires class { IsClass self.now.world.now.classes class }
        ensures { IsJudged self.now.world.now.classes (frame self.now)
            (field_read_demands holder class) (field_read_effect holder ty) result }
    {
        let object = Want::Value(Ty::Class(class));
        match holder {
            Holder::Stack => {
                self.check(&[Demand::Cell(0, object)])?;
                Ok(Effect::replacing(1, value_given(ty)))
            }
            Holder::This => {
                self.check(&[Demand::Registers(0, 1), Demand::Held(0, Ty::Class(class))])?;
                Ok(Effect::replacing(0, value_given(ty)))
            }
        }
    }

    pub(crate) fn object_write(&self, class: u16, ty: Ty) -> Result<Effect, RuleFault>
        requires frame { AreKnown self.now.world.now.classes (frame self.now) }
        requires class { IsClass self.now.world.now.classes class }
        requires ty { IsKnown self.now.world.now.classes ty }
        ensures { IsJudged self.now.world.now.classes (frame self.now)
            (field_write_demands Holder.Stack class ty)
            (field_write_effect Holder.Stack ty) result }
    {
        let object = Want::Value(Ty::Class(class));
        match ty {
            Ty::IntHigh => self.check(&[
                Demand::Cell(0, INT_LOW),
                Demand::Cell(1, INT_HIGH),
                Demand::Cell(2, object),
            ])?,
            _ => self.check(&[Demand::Cell(0, Want::Value(ty)), Demand::Cell(1, object)])?,
        }
        Ok(Effect::replacing(value_size(ty) + 1, Cells::Nothing))
    }

    pub(crate) fn this_write(&self, class: u16, ty: Ty) -> Result<Effect, RuleFault>
        requires frame { AreKnown self.now.world.now.classes (frame self.now) }
        requires class { IsClass self.now.world.now.classes class }
        requires ty { IsKnown self.now.world.now.classes ty }
        ensures { IsJudged self.now.world.now.classes (frame self.now)
            (field_write_demands Holder.This class ty)
            (field_write_effect Holder.This ty) result }
    {
        let object = Demand::Held(0, Ty::Class(class));
        match ty {
            Ty::IntHigh => self.check(&[
                Demand::Registers(0, 1),
                Demand::Cell(0, INT_LOW),
                Demand::Cell(1, INT_HIGH),
                object,
            ])?,
            _ => self.check(&[
                Demand::Registers(0, 1),
                Demand::Cell(0, Want::Value(ty)),
                object,
            ])?,
        }
        Ok(Effect::replacing(value_size(ty), Cells::Nothing))
    }

    /// An array of this type is made, of the length on top of the stack.
    pub(crate) fn new_array(&self, ty: Ty) -> Result<Effect, RuleFault>
        requires { AreKnown self.now.world.now.classes (frame self.now) }
        ensures { IsJudged self.now.world.now.classes (frame self.now) (Cell 0 (Value Ty.Short) ∷ [])
            (replacing 1 (Cells.One ty)) result }
    {
        self.check(&[Demand::Cell(0, SHORT)])?;
        Ok(Effect::replacing(1, Cells::One(ty)))
    }

    pub(crate) fn thrown(&self) -> Result<Effect, RuleFault>
        requires { AreKnown self.now.world.now.classes (frame self.now) }
        ensures { IsJudged self.now.world.now.classes (frame self.now)
            (Cell 0 (Value (Class (throwable self.now.world.now.classes))) ∷ [])
            (replacing 1 Cells.Nothing) result }
    {
        self.check(&[Demand::Cell(0, Want::Value(Ty::Class(self.world.role(1))))])?;
        Ok(Effect::replacing(1, Cells::Nothing))
    }

    pub(crate) fn tested(&self, test: TypeTest, ty: Ty) -> Result<Effect, RuleFault>
        requires { AreKnown self.now.world.now.classes (frame self.now) }
        ensures { IsJudged self.now.world.now.classes (frame self.now)
            (Cell 0 (a_reference self.now.world.now.classes) ∷ []) (type_test_effect test ty)
            result }
    {
        self.check(&[Demand::Cell(0, self.a_reference())])?;
        let given = match test {
            TypeTest::Cast => ty,
            TypeTest::InstanceOf => Ty::Short,
        };
        Ok(Effect::replacing(1, Cells::One(given)))
    }
}

/// What becomes of the stack under a receiver: a constructor makes ready each object that was made with it.
fn ready_with(taken: u8, given: Cells, found: Ty, want: Want) -> Change
    ensures { result ≡ ready_with taken given found want }
{
    match found {
        Ty::Fresh { place, .. } => match want {
            Want::Receiver(class) => Change::MakeReady {
                taken,
                place,
                class,
                given,
            },
            _ => Change::Replace { taken, given },
        },
        _ => Change::Replace { taken, given },
    }
}

impl Before<'_> {
    /// Checks that the arguments stand on the stack, the last on top.
    fn check_arguments(&self, args: &[Ty]) -> Result<(), RuleFault>
        requires frame { AreKnown self.now.world.now.classes (frame self.now) }
        requires known { All (IsKnown self.now.world.now.classes) args.now }
        requires few { length args.now ≤ 255 }
        ensures { IsChecked self.now.world.now.classes (frame self.now) (cells_wanted 0 (reverse args.now)) result }
    {
        let count = args.len();
        'arguments: for n in 0..count {
            let ty = args[count - 1 - n];
            if let Some(fault) = self.broken(Demand::Cell(n as u8, Want::Value(ty))) {
                return Err(fault);
            }
        }
        Ok(())
    }

    /// Checks the arguments, and then the receiver under them.
    fn check_call(&self, sig: &Sig, receiver: Option<Want>) -> Result<(), RuleFault>
        requires frame { AreKnown self.now.world.now.classes (frame self.now) }
        requires known { All (IsKnown self.now.world.now.classes) sig.now.args }
        requires receiver { IfSome receiver (IsKnownWant self.now.world.now.classes) }
        requires few { length sig.now.args + receiver_count receiver ≤ 255 }
        ensures { IsChecked self.now.world.now.classes (frame self.now) (call_demands sig.now.args receiver) result }
    {
        self.check_arguments(sig.args.as_slice())?;
        match receiver {
            None => Ok(()),
            Some(want) => self.check(&[Demand::Cell(sig.args.len() as u8, want)]),
        }
    }

    pub(crate) fn called(&self, sig: &Sig, receiver: Option<Want>) -> Result<Effect, RuleFault>
        requires frame { AreKnown self.now.world.now.classes (frame self.now) }
        requires known { All (IsKnown self.now.world.now.classes) sig.now.args }
        requires receiver { IfSome receiver (IsKnownWant self.now.world.now.classes) }
        requires few { length sig.now.args + receiver_count receiver ≤ 255 }
        ensures { IsJudged self.now.world.now.classes (frame self.now)
            (call_demands sig.now.args receiver)
            (call_effect sig.now.args sig.now.result receiver (frame self.now)) result }
    {
        self.check_call(sig, receiver)?;
        let count = sig.args.len() as u8;
        let given = sig.result.map_or(Cells::Nothing, value_given);
        Ok(match receiver {
            None => Effect::replacing(count, given),
            Some(want) => Effect::on_stack(ready_with(count + 1, given, self.found(count), want)),
        })
    }
}
