ghost use Rattle.std.specs.Prelude.{◌≡◌, IfOk, codes, string_bytes};
ghost use Rattle.cap_text.specs.Assembled.{asm_fault_text, not_assembled_line};
ghost use Rattle.cap_text.specs.Line.{methods_line};
ghost use Rattle.cap_text.specs.Printed.{printed_text};

use crate::fault::Shown;
use crate::printed::Printed;
use cap_listing::AsmFault;
use std::alloc::{AllocError, Global};

/// The line for a package that is written with the methods of a listing: how many they are.
pub fn assembled(alloc: Global, count: usize) -> Result<String, AllocError>
    ensures { IfOk result (λ t. string_bytes t ≡ methods_line (codes "assembled ") count) }
{
    format!(in alloc; "assembled {count} methods\n")
}

/// The line for a text that is no listing, or for a listing that does not fit its package.
pub fn not_assembled(alloc: Global, fault: AsmFault) -> Result<String, AllocError>
    ensures { IfOk result (λ t. string_bytes t ≡ not_assembled_line fault) }
{
    format!(in alloc; "malformed package 0 {}\n", Shown(printed(fault)))
}

fn printed(fault: AsmFault) -> Printed
    ensures { printed_text result ≡ asm_fault_text fault }
{
    match fault {
        AsmFault::NotListing(line) => Printed::One("NotListing", line as u64),
        AsmFault::OtherMethod(n) => Printed::One("OtherMethod", n as u64),
        AsmFault::Registers(n, count) => Printed::Two("Registers", n as u64, count as u64),
        AsmFault::HandlerRange(n, number) => {
            Printed::Two("HandlerRange", n as u64, number as u64)
        }
        AsmFault::CodeLength(n, length) => Printed::Two("CodeLength", n as u64, length as u64),
        AsmFault::TooManyHandlers(count) => Printed::One("TooManyHandlers", count as u64),
    }
}
