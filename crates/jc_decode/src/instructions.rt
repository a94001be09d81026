ghost use Rattle.std.specs.Prelude.{◌≤◌, length};

use cap_bytes::View;

mod walk;

pub use walk::code_end;

/// The instructions of a method's code, each with its place: one is decoded after another, and where
/// none is the list ends.
#[derive(Clone, Copy)]
pub struct Instructions<'a> {
    code: View<'a>,
    at: u16,
    ghost short: { length code.bytes.now ≤ 65535 },
}
