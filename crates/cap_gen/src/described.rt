ghost use Rattle.std.specs.Prelude.{◌≡◌, ◌<◌, ◌++◌, IfOk, OnOk};
ghost use Rattle.cap_gen.specs.Described.{described_bytes, descriptor_bytes};
ghost use Rattle.cap_gen.specs.Generated.{file};
ghost use Rattle.cap_gen.specs.Methods.{code_size_of_kind, each_method, handler_count, handler_index};

use crate::methods::{COUNT, method_offset, put_numbers};
use crate::plain::{DESCRIPTOR_HEAD, DESCRIPTOR_TAIL};
use std::alloc::{AllocError, Global};

/// How many bytes the code of a method has.
fn code_size(number: u8) -> u16
    ensures { result ≡ code_size_of_kind number }
{
    if number % 2 == 0 { 12 } else { 16 }
}

/// The number of a method's first entry in the handler table.
fn handler_index(number: u8) -> u16
    ensures { result ≡ handler_index number }
{
    if number % 4 == 2 {
        2 * u16::from(number / 4)
    } else {
        0
    }
}

/// How many entries it has.
fn handler_count(number: u8) -> u16
    ensures { result ≡ handler_count number }
{
    if number % 4 == 2 { 2 } else { 0 }
}

/// Appends the record of a method.
fn put_described(number: u8, out: &mut Vec<u8>) -> Result<(), AllocError>
    requires { number < 200 }
    ensures { OnOk result (out.new.items ≡ out.old.items ++ described_bytes number) }
{
    out.extend_from_slice(&[number, 0x09])?;
    out.extend_from_slice(&method_offset(number).to_be_bytes())?;
    put_numbers(
        6,
        code_size(number),
        handler_count(number),
        handler_index(number),
        out,
    )
}

/// Appends the records of the methods.
fn put_records(out: &mut Vec<u8>) -> Result<(), AllocError>
    ensures { OnOk result (out.new.items ≡ out.old.items ++ each_method described_bytes) }
{
    'methods: for number in 0..COUNT {
        put_described(number, out)?;
    }
    Ok(())
}

/// The file of the Descriptor.
pub(crate) fn descriptor_file(alloc: Global) -> Result<Vec<u8>, AllocError>
    ensures { IfOk result (λ bytes. bytes.items ≡ (file 11 descriptor_bytes).bytes) }
{
    let mut out = Vec::new(alloc);
    out.extend_from_slice(&DESCRIPTOR_HEAD)?;
    put_records(&mut out)?;
    out.extend_from_slice(&DESCRIPTOR_TAIL)?;
    Ok(out)
}
