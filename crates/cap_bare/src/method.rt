ghost use Rattle.std.specs.Prelude.{◌≤◌, length, IfOk, IfErr};
ghost use Rattle.cap_bytes.specs.Exact.{IsExact};
ghost use Rattle.cap_bytes.specs.Spelling.{info_of, Stands};
ghost use Rattle.cap_bytes.specs.Taking.{Takes, Reads, same};
ghost use Rattle.cap_bare.specs.Typing.{IsCompact};
ghost use Rattle.cap_bare.specs.MethodFile.{compact_header, method_info, IsFileFault};
ghost use Rattle.cap_bare.specs.BareFile.{file, IsVerifiable};

use crate::format::Bare;
use cap_bytes::{Cursor, FormFault, FormKind, View};
use cap_components::PackFault;

/// The tag of the Method component.
const METHOD: u8 = 7;

/// A method that stands alone in the file of a Method component.
#[derive(Clone, Copy)]
pub struct BareMethod<'a> {
    pub bare: Bare,
    pub code: View<'a>,
}

/// The bare method of a Method component's info, with at most 65,535 bytes.
///
/// A fault is `Form`, of the first item that breaks the format, or `MethodLength` where the code has no bytes or
/// more than 32,767.
#[tactic(auto, using(cap_bytes::proofs::Laws::whole))]
pub fn bare_method(info: View<'_>) -> Result<BareMethod<'_>, PackFault>
    requires { length info.bytes.now ≤ 65535 }
    ensures found { IfOk result (λ m. Stands method_info info.entry.bytes.now (file m)) }
    ensures verifiable { IfOk result (λ m. IsVerifiable m) }
    ensures fault { IfErr result (λ e. IsFileFault info.entry.bytes.now e) }
    ensures exact { IsExact (info_of 7) method_info info.entry.bytes.now }
{
    let method = match read(info) {
        Ok(method) => method,
        Err(fault) => return Err(PackFault::Form(fault)),
    };
    let length = method.code.bytes.len();
    if length == 0 || length > 32767 {
        return Err(PackFault::MethodLength(1, length as u16));
    }
    Ok(method)
}

#[tactic(auto, unfolding(cap_bytes::specs::Reading::reading))]
fn read(info: View<'_>) -> Result<BareMethod<'_>, FormFault>
    requires { length info.bytes.now ≤ 65535 }
    ensures value { Reads file (info_of 7) method_info info.entry.bytes.now result }
    ensures compact { IfOk result (λ m. IsCompact m.bare) }
    ensures length { IfOk result (λ m. length m.code.bytes.now ≤ 65535) }
{
    let mut items = Cursor::of(info, METHOD);
    let place = items;
    if items.u1()? != 0 {
        return Err(place.fault(FormKind::BadValue));
    }
    let bare = header(&mut items)?;
    let code = items.rest();
    Ok(BareMethod {
        bare,
        code: View::of(code),
    })
}

fn header(items: &mut Cursor<'_>) -> Result<Bare, FormFault>
    ensures value { Takes same compact_header items.old result items.new }
    ensures compact { IfOk result (λ bare. IsCompact bare) }
{
    let place = *items;
    let flags_and_stack = items.u1()?;
    if flags_and_stack / 16 != 0 {
        return Err(place.fault(FormKind::BadValue));
    }
    let counts = items.u1()?;
    Ok(Bare {
        nargs: counts / 16,
        max_locals: counts % 16,
        max_stack: flags_and_stack % 16,
    })
}
