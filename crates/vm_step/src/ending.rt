ghost use Rattle.std.specs.Prelude.{◌≡◌, ◌≤◌, ◌<◌};
ghost use Rattle.vm_step.specs.Act.{role_of};

/// What a method gives to its caller, and the first method of a run to the outside: nothing, a short,
/// an int, or the handle of an object, which is 0 for null.
#[derive(Clone, Copy)]
pub enum Value {
    Void,
    Short(i16),
    Int(i32),
    Ref(u16),
}

/// How a run ends or stands, on a machine that tests nothing as on one that tests what it does.
#[derive(Clone, Copy)]
pub enum Plain {
    /// The first method gave a value.
    Returned(Value),
    /// No method caught the object that was thrown: its class, and its handle.
    Threw { class: u16, handle: u16 },
    /// No ending was reached within the steps that were allowed.
    Spent,
    /// A call would have made more than 64 frames.
    TooDeep,
    /// An object had no room.
    HeapFull,
    /// An object of this class has no method for a method of an interface.
    InterfaceMissing(u16),
}

/// What code that was not verified may do wrong.
#[derive(Clone, Copy)]
pub enum Fault {
    /// A cell is not of the wanted type, or what an instruction names is nothing that it takes.
    TypeFault,
    /// The operand stack has too few cells, or too many.
    StackFault,
    /// The method has no such register.
    LocalFault,
    /// No instruction begins at the place.
    JumpFault,
}

/// The end of a run.
#[derive(Clone, Copy)]
pub enum Ending {
    Plain(Plain),
    Faulted(Fault),
}

/// An exception that an instruction raises.
#[derive(Clone, Copy)]
pub enum Exception {
    NullPointer,
    Arithmetic,
    ArrayIndex,
    NegativeSize,
    ClassCast,
    ArrayStore,
}

impl Exception {
    /// The role of its class among the eight of a world.
    pub fn role(self) -> u8
        ensures is { result ≡ role_of self }
        ensures least { 2 ≤ result }
        ensures most { result < 8 }
    {
        match self {
            Exception::NullPointer => 2,
            Exception::Arithmetic => 3,
            Exception::ArrayIndex => 4,
            Exception::NegativeSize => 5,
            Exception::ClassCast => 6,
            Exception::ArrayStore => 7,
        }
    }
}

/// Why a run of an entry does not begin, tried in this order.
#[derive(Clone, Copy)]
pub enum StartFault {
    /// The entry is no method.
    NoEntry,
    /// The entry is not static, or has no code.
    NotStatic,
    /// The numbers of arguments and of parameters differ.
    ArgCount { said: usize, wanted: u16 },
    /// The argument of this number, from 0, is the first that does not fit its parameter.
    ArgKind(u16),
    /// The argument of this number, from 0, is the first array for which 4,096 objects are there already, or
    /// whose cells would be more than 32,768 with those that are there.
    ArgRoom(u16),
}
