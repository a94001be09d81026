ghost use Rattle.std.specs.Prelude.{◌≤◌, length};

use cap_bare::{BareEnd, bare_method, bare_run, bare_verify};
use cap_bytes::View;

/// How a worked run ends.
#[derive(Clone, Copy, PartialEq)]
pub(crate) enum Ends {
    Returned(i16),
    Spent,
    /// The info is no bare method, or it is refused, or the arguments do not fit.
    Unrun,
}

/// How the method of an info ends.
pub(crate) fn end_of(info: &[u8], args: &[i16], budget: u64) -> Ends
    requires { length info.now ≤ 65535 }
{
    let method = match bare_method(View::of(info)) {
        Ok(method) => method,
        Err(_) => return Ends::Unrun,
    };
    if args.len() != usize::from(method.bare.nargs) {
        return Ends::Unrun;
    }
    match bare_verify(method.code, method.bare) {
        Ok(()) => match bare_run(method.code, method.bare, args, budget) {
            BareEnd::Returned(value) => Ends::Returned(value),
            BareEnd::Spent => Ends::Spent,
        },
        Err(_) => Ends::Unrun,
    }
}
