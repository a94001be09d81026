ghost use Rattle.std.specs.Prelude.{◌≡◌, ◌≤◌, length, IfOk, IfErr};
ghost use Rattle.cap_bytes.specs.Exact.{IsExact};
ghost use Rattle.cap_bytes.specs.Spelling.{file_of, fault_at, Stands, Breaks};
ghost use Rattle.cap_frame.specs.Frame.{component};

use byteorder::{BigEndian, ByteOrder};
use cap_bytes::{FormFault, FormKind, Part, View};

/// The info of a component's file (section 6.1): the bytes after its tag and its size.
#[tactic(auto, using(crate::proofs::Standing::component_file))]
pub fn frame(bytes: &[u8], part: Part) -> Result<View<'_>, FormFault>
    ensures found { IfOk result (λ info. Stands (component part.0) bytes.entry.now info.bytes.now) }
    ensures fault { IfErr result (λ e. Breaks (file_of part.0) (component part.0) bytes.entry.now 0 e) }
    ensures exact { IsExact (file_of part.0) (component part.0) bytes.entry.now }
    ensures few { IfOk result (λ info. length info.bytes.now ≤ 65535) }
{
    if bytes.len() < 3 {
        return Err(fault(part, bytes.len() as u32, FormKind::Cut));
    }
    let head = BigEndian::read_u24(&bytes[..3]);
    if head / 65536 != part.0 as u32 {
        return Err(fault(part, 0, FormKind::WrongTag));
    }
    let size = head % 65536;
    match View::of(bytes).part(3, size) {
        None => Err(fault(part, bytes.len() as u32, FormKind::Cut)),
        Some(info) if bytes.len() as u64 == 3 + size as u64 => Ok(info),
        Some(_) => Err(fault(part, 3 + size, FormKind::Trailing)),
    }
}

/// A fault of this part's file.
fn fault(part: Part, at: u32, kind: FormKind) -> FormFault
    ensures { result ≡ fault_at (file_of part.0) at kind }
{
    FormFault {
        part: part.0,
        at,
        kind,
    }
}
