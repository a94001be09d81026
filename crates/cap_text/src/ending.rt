ghost use Rattle.std.specs.Prelude.{◌≡◌};
ghost use Rattle.cap_text.specs.Room.{HasRoom, Writes, WritesAtMost};
ghost use Rattle.cap_text.specs.Ending.{value_text, plain_text, fault_name, ending_line, static_line, kind_name, array_head, element_text};

use crate::room::Room;
use jc_base::Ty;
use vm_step::{Ending, Fault, Plain, Value};

// What a method gives, or what a field holds.
fn write_value(room: &mut Room, value: Value)
    requires { HasRoom room.old 17 }
    ensures writes { Writes room.old room.new (value_text value) }
    ensures few { WritesAtMost room.old room.new 17 }
{
    match value {
        Value::Void => room.write("void"),
        Value::Short(n) => {
            room.write("short ");
            room.write_signed(i32::from(n));
        }
        Value::Int(n) => {
            room.write("int ");
            room.write_signed(n);
        }
        Value::Ref(0) => room.write("null"),
        Value::Ref(handle) => room.write_named("reference", handle),
    }
}

// How a run ends that no fault ends.
fn write_plain(room: &mut Room, plain: Plain)
    requires { HasRoom room.old 33 }
    ensures writes { Writes room.old room.new (plain_text plain) }
    ensures few { WritesAtMost room.old room.new 33 }
{
    match plain {
        Plain::Returned(value) => {
            room.write("returned ");
            write_value(room, value);
        }
        Plain::Threw { class, handle } => {
            room.write_named("threw class", class);
            room.write(" ");
            room.write_named("reference", handle);
        }
        Plain::Spent => room.write("spent"),
        Plain::TooDeep => room.write("too deep"),
        Plain::HeapFull => room.write("heap full"),
        Plain::InterfaceMissing(class) => room.write_named("interface missing class", class),
    }
}

// What a fault is called.
fn fault_name(fault: Fault) -> &'static str
    ensures { result.now ≡ fault_name fault }
{
    match fault {
        Fault::TypeFault => "type",
        Fault::StackFault => "stack",
        Fault::LocalFault => "local",
        Fault::JumpFault => "jump",
    }
}

/// Writes the line for how a run ends, in at most 34 bytes.
pub fn write_ending(room: &mut Room, ending: Ending)
    requires { HasRoom room.old 34 }
    ensures writes { Writes room.old room.new (ending_line ending) }
    ensures few { WritesAtMost room.old room.new 34 }
{
    match ending {
        Ending::Plain(plain) => write_plain(room, plain),
        Ending::Faulted(fault) => {
            room.write("fault ");
            room.write(fault_name(fault));
        }
    }
    room.write("\n");
}

/// Writes the line for a static field of this number, from 0, and value, in at most 31 bytes.
pub fn write_static(room: &mut Room, number: u16, value: Value)
    requires { HasRoom room.old 31 }
    ensures writes { Writes room.old room.new (static_line number value) }
    ensures few { WritesAtMost room.old room.new 31 }
{
    room.write_named("static", number);
    room.write(" ");
    write_value(room, value);
    room.write("\n");
}

// What the elements of an array of numbers are, by the type of the array; of any other type nothing is said.
fn kind_name(ty: Ty) -> &'static str
    ensures { result.now ≡ kind_name ty }
{
    match ty {
        Ty::ArrBool => "boolean",
        Ty::ArrByte => "byte",
        Ty::ArrShort => "short",
        Ty::ArrInt => "int",
        _ => "",
    }
}

/// Writes the beginning of the line for an array of numbers: its handle, its kind and how many elements it has, in at most
/// 25 bytes.
pub fn write_array_head(room: &mut Room, handle: u16, ty: Ty, count: u16)
    requires { HasRoom room.old 25 }
    ensures writes { Writes room.old room.new (array_head handle ty count) }
    ensures few { WritesAtMost room.old room.new 25 }
{
    room.write_named("array", handle);
    room.write(" ");
    room.write(kind_name(ty));
    room.write(" ");
    room.write_number(count);
}

/// Writes an element of such an array, in at most 12 bytes.
pub fn write_element(room: &mut Room, n: i32)
    requires { HasRoom room.old 12 }
    ensures writes { Writes room.old room.new (element_text n) }
    ensures few { WritesAtMost room.old room.new 12 }
{
    room.write(" ");
    room.write_signed(n);
}
