ghost use Rattle.std.specs.Prelude.{◌≡◌, IfOk, codes, string_bytes};
ghost use Rattle.cap_text.specs.Printed.{printed_text};
ghost use Rattle.cap_text.specs.Line.{methods_line};
ghost use Rattle.cap_text.specs.Transformed.{method_limit_line, registers_limit_line, stack_limit_line, code_limit_line, part_limit_line};

use crate::fault::Shown;
use crate::line::MethodNumber;
use crate::printed::Printed;
use std::alloc::{AllocError, Global};

/// The line for a package whose methods with code, of which there are `count`, all have a form that a verifier on the card
/// accepts.
pub fn transformed(alloc: Global, count: u16) -> Result<String, AllocError>
    ensures { IfOk result (λ t. string_bytes t ≡ methods_line (codes "transformed ") count) }
{
    format!(in alloc; "transformed {count} methods\n")
}

/// The line for a method that would have so many registers, more than a method may have.
pub fn limit_registers(
    alloc: Global,
    method: MethodNumber,
    registers: u32,
) -> Result<String, AllocError>
    ensures { IfOk result (λ t. string_bytes t ≡ registers_limit_line method registers) }
{
    method_limit(alloc, method, Printed::One("Registers", registers as u64))
}

/// The line for a method whose stack would have more cells than it may have.
pub fn limit_stack(alloc: Global, method: MethodNumber) -> Result<String, AllocError>
    ensures { IfOk result (λ t. string_bytes t ≡ stack_limit_line method) }
{
    method_limit(alloc, method, Printed::Alone("StackLimit"))
}

/// The line for a method whose code would be too long; `size` is what the line tells of it.
pub fn limit_code(alloc: Global, method: MethodNumber, size: u32) -> Result<String, AllocError>
    ensures { IfOk result (λ t. string_bytes t ≡ code_limit_line method size) }
{
    method_limit(alloc, method, Printed::One("MethodLong", size as u64))
}

/// The line for a Method component that would be too long; `size` is what the line tells of it.
pub fn limit_part(alloc: Global, size: u32) -> Result<String, AllocError>
    ensures { IfOk result (λ t. string_bytes t ≡ part_limit_line size) }
{
    format!(in alloc; "limit PartLong {size}\n")
}

// The line for a method that passes a limit.
fn method_limit(alloc: Global, method: MethodNumber, limit: Printed) -> Result<String, AllocError>
    ensures { IfOk result (λ t. string_bytes t ≡ method_limit_line method (printed_text limit)) }
{
    format!(in alloc;
        "limit method {}.{} {}\n",
        method.class_no,
        method.method_no,
        Shown(limit)
    )
}
