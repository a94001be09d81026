ghost use Rattle.std.specs.Prelude.{◌≡◌, ◌<◌, ◌+◌, ◌*◌, ◌%◌, ◌++◌, IfOk, OnOk};
ghost use Rattle.byteorder.specs.Endian.{big_bytes};
ghost use Rattle.cap_gen.specs.Generated.{file};
ghost use Rattle.cap_gen.specs.Methods.{each_method, entry_table, method_bytes, method_info, method_offset};

use std::alloc::{AllocError, Global};

/// How many methods there are.
pub(crate) const COUNT: u8 = 200;

/// Appends the header and the code of a method.
#[tactic(auto, using(crate::proofs::ByKind::bytes_by_kind))]
fn put_method(seed: u32, number: u8, out: &mut Vec<u8>) -> Result<(), AllocError>
    ensures { OnOk result (out.new.items ≡ out.old.items ++ method_bytes seed number) }
{
    let c = ((u64::from(seed) + u64::from(number)) % 100) as u8;
    let d = ((u64::from(seed) + 2 * u64::from(number)) % 100) as u8;
    match number % 4 {
        0 => out.extend_from_slice(&[
            0x02, 0x20, 0x1C, 0x1D, 0x60, 6, 0x10, c, 0x70, 4, 0x10, d, 0x41, 0x78,
        ]),
        1 => out.extend_from_slice(&[
            0x02, 0x21, 0x1C, 0x31, 0x1E, 0x10, c, 0x41, 0x30, 0x01, 0x2D, 0x1A, 0x66, 4, 0x05,
            0x78, 0x1D, 0x78,
        ]),
        2 => out.extend_from_slice(&[
            0x02, 0x20, 0x1C, 0x1D, 0x47, 0x78, 0x3B, 0x10, c, 0x78, 0x3B, 0x10, d, 0x78,
        ]),
        _ => out.extend_from_slice(&[
            0x02, 0x21, 0x10, 8, 0x31, 0x1C, 0x10, c, 0x41, 0x2F, 0x59, 2, 0xFF, 0x1E, 0x61, 0xF7,
            0x1C, 0x78,
        ]),
    }
}

/// Where a method begins in the info of the component.
pub(crate) fn method_offset(number: u8) -> u16
    requires { number < 200 }
    ensures { result ≡ method_offset number }
{
    801 + 16 * u16::from(number) - 2 * u16::from(number % 2)
}

/// Appends four numbers of two bytes.
#[tactic(auto, using(crate::proofs::Loops::steps))]
pub(crate) fn put_numbers(
    first: u16,
    second: u16,
    third: u16,
    fourth: u16,
    out: &mut Vec<u8>,
) -> Result<(), AllocError>
    ensures { OnOk result (out.new.items
        ≡ out.old.items ++ (big_bytes 2 first ++ (big_bytes 2 second ++ (big_bytes 2 third ++ big_bytes 2 fourth)))) }
{
    out.extend_from_slice(&first.to_be_bytes())?;
    out.extend_from_slice(&second.to_be_bytes())?;
    out.extend_from_slice(&third.to_be_bytes())?;
    out.extend_from_slice(&fourth.to_be_bytes())
}

/// Appends the entries of a method in the handler table: of each where its range begins, its length with the stop bit
/// above, where its own code begins, and a pool number.
fn put_entries(number: u8, out: &mut Vec<u8>) -> Result<(), AllocError>
    requires { number < 200 }
    ensures { OnOk result (out.new.items ≡ out.old.items ++ entry_table number) }
{
    if number % 4 != 2 {
        return Ok(());
    }
    let code = method_offset(number) + 2;
    put_numbers(code, 3, code + 4, 1, out)?;
    put_numbers(code, 0x8008, code + 8, 0, out)
}

/// Appends the handler table without its length.
fn put_table(out: &mut Vec<u8>) -> Result<(), AllocError>
    ensures { OnOk result (out.new.items ≡ out.old.items ++ each_method entry_table) }
{
    'methods: for number in 0..COUNT {
        put_entries(number, out)?;
    }
    Ok(())
}

/// Appends the methods.
fn put_methods(seed: u32, out: &mut Vec<u8>) -> Result<(), AllocError>
    ensures { OnOk result (out.new.items ≡ out.old.items ++ each_method (method_bytes seed)) }
{
    'methods: for number in 0..COUNT {
        put_method(seed, number, out)?;
    }
    Ok(())
}

/// The file of the Method component.
pub(crate) fn method_file(alloc: Global, seed: u32) -> Result<Vec<u8>, AllocError>
    ensures { IfOk result (λ bytes. bytes.items ≡ (file 7 (method_info seed)).bytes) }
{
    let mut out = Vec::new(alloc);
    out.extend_from_slice(&[0x07, 0x0F, 0xA1, 100])?;
    put_table(&mut out)?;
    put_methods(seed, &mut out)?;
    Ok(out)
}
