ghost use Rattle.jc_base.specs.Laws.{IsOrderOfTypes, DeclaredAreKnown, ClassesAreObjects, InstancesExtend, PublicMethodsRun, ConcreteIsDecided, ImplementsDecides, ExtendsEnds, ExtendsDecides, SameTypeDecides};

use crate::class::Classes;
use crate::world::World;

/// The order of types and its joins are decided, and so is whether two are equal; declared types name classes.
pub fn types_are_ordered(classes: &Classes)
    ensures order { IsOrderOfTypes classes.now }
    ensures declared { DeclaredAreKnown classes.now }
    ensures same { SameTypeDecides }
{
    let _ = classes.records();
}

/// Every class is object or a subclass of it, and its instances begin with the cells of each superclass.
pub fn subclasses_extend(classes: &Classes)
    ensures objects { ClassesAreObjects classes.now }
    ensures cells { InstancesExtend classes.now }
{
    let _ = classes.records();
}

/// An object runs a method of the same signature at each public token of a class that is above its own.
pub fn public_methods_run(world: &World<'_>)
    ensures { PublicMethodsRun world.now.classes world.now.methods }
{
    let _ = world.classes().records();
}

/// Whether a class is concrete is decided, and the answer is the computed one.
pub fn concrete_decides()
    ensures { ConcreteIsDecided }
{}

/// Whether a class implements an interface and whether an interface extends another are decided, and a search
/// along the interfaces that others extend ends.
pub fn interfaces_decide(world: &World<'_>)
    ensures implements { ImplementsDecides world.now.classes }
    ensures extends { ExtendsDecides world.now.classes }
    ensures ends { ExtendsEnds world.now.classes }
{
    let _ = world.classes().records();
}
