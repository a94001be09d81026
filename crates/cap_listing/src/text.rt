ghost use Rattle.std.specs.Prelude.{◌≡◌, ◌++◌, ◌∷◌, [], ◌≤◌, All, drop, length, map, OnOk, IfOk, IsAscii};
ghost use Rattle.cap_listing.specs.Words.{text_of_lines};
ghost use Rattle.jc_decode.specs.Listing.{listing};
ghost use Rattle.cap_listing.specs.Text.{IsShort, instruction_words, rest_lines, code_lines, handler_words, end_words, begun_lines};
ghost use Rattle.cap_listing.specs.Text.{text_of, Lists};
ghost use Rattle.cap_listing.specs.Methods.{methods_of};

use crate::line::{push_bytes, push_handler, push_heading, push_instruction};
use crate::method::{Listed, ListedMethod};
use crate::package_methods::listed_methods;
use cap_bytes::View;
use cap_package::Package;
use jc_decode::{Instructions, LaidHandler, code_end};
use std::alloc::{AllocError, Global};

/// The text of methods, each of a code of at most 65,535 bytes.
#[tactic(auto, using(crate::proofs::Ends::texts_are, crate::proofs::Appending::steps))]
pub fn listed_text(alloc: Global, methods: &Listed) -> Result<Vec<u8>, AllocError>
    requires { All IsShort methods.now }
    ensures { IfOk result (λ text. text.items ≡ text_of methods.now) }
{
    let mut out = Vec::new(alloc);
    'methods: for method in methods.as_slice() {
        push_method(alloc, method, &mut out)?;
    }
    Ok(out)
}

/// Appends the lines of a method.
#[tactic(auto, using(crate::proofs::Appending::steps, crate::proofs::Ends::method_parts))]
fn push_method(alloc: Global, method: &ListedMethod, out: &mut Vec<u8>) -> Result<(), AllocError>
    requires { IsShort method.now }
    ensures { OnOk result (out.new.items ≡ out.old.items ++ text_of_lines (begun_lines method.now ++ end_words ∷ [])) }
{
    push_heading(method.heading(), out)?;
    out.push(b'\n')?;
    push_code(alloc, View::of(method.laid.code.as_slice()), out)?;
    push_handlers(method.laid.handlers.as_slice(), out)?;
    out.extend_from_slice(b"end\n")?;
    Ok(())
}

/// Appends the lines of a code.
fn push_code(alloc: Global, code: View, out: &mut Vec<u8>) -> Result<(), AllocError>
    requires { length code.bytes.now ≤ 65535 }
    ensures { OnOk result (out.new.items ≡ out.old.items ++ text_of_lines (code_lines code.entry.bytes.now)) }
{
    push_instructions(code, out)?;
    let (end, _) = code_end(code);
    push_rest(alloc, code, end, out)?;
    Ok(())
}

/// Appends the line of the bytes of a code from a place on, where there are any.
#[tactic(auto, using(crate::proofs::Ends::rest_none, crate::proofs::Ends::rest_some, crate::proofs::Appending::steps))]
fn push_rest(alloc: Global, code: View, end: u16, out: &mut Vec<u8>) -> Result<(), AllocError>
    requires { end ≤ length code.bytes.now }
    ensures { OnOk result (out.new.items
        ≡ out.old.items ++ text_of_lines (rest_lines end (drop end code.entry.bytes.now))) }
{
    if end as usize == code.bytes.len() {
        return Ok(());
    }
    push_bytes(alloc, end, &code.bytes[end as usize..], out)?;
    out.push(b'\n')?;
    Ok(())
}

/// Appends the lines of the instructions of a code.
#[tactic(auto, using(crate::proofs::Appending::steps))]
fn push_instructions(code: View, out: &mut Vec<u8>) -> Result<(), AllocError>
    requires { length code.bytes.now ≤ 65535 }
    ensures { OnOk result (out.new.items
        ≡ out.old.items ++ text_of_lines (map (instruction_words code.entry.bytes.now) (listing code.entry.bytes.now))) }
{
    'walk: for placed in Instructions::of(code) {
        push_instruction(placed.place, placed.insn, code, placed.place, out)?;
        out.push(b'\n')?;
    }
    Ok(())
}

/// Appends the lines of handlers.
#[tactic(auto, using(crate::proofs::Appending::steps))]
fn push_handlers(handlers: &[LaidHandler], out: &mut Vec<u8>) -> Result<(), AllocError>
    ensures { OnOk result (out.new.items ≡ out.old.items ++ text_of_lines (map handler_words handlers.now)) }
{
    'handlers: for handler in handlers {
        push_handler(*handler, out)?;
        out.push(b'\n')?;
    }
    Ok(())
}

/// The listing of a package's methods that have code, in ASCII.
#[tactic(auto, using(crate::proofs::Ascii::listing_ascii))]
pub fn listing(alloc: Global, package: &Package<'_, '_>) -> Result<Vec<u8>, AllocError>
    ensures lists { IfOk result (λ text. Lists (methods_of «package».now) text.items) }
    ensures ascii { IfOk result (λ text. IsAscii text.items) }
{
    let methods = listed_methods(alloc, package)?;
    let text = listed_text(alloc, &methods)?;
    Ok(text)
}
