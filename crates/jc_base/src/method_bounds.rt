ghost use Rattle.std.specs.Prelude.{◌≡◌, ◌≤◌, ◌<◌, ◌+◌, ◌==◌, if◌then◌else◌, All, IfOk, length};
ghost use Rattle.jc_base.specs.ByClass.{AreBoundsUpTo};

use crate::list::Methods;
use std::alloc::{AllocError, Global};

/// Where the numbers of the methods of a class or an interface lie: from `first` on, below `end`. Those of
/// other classes may lie between them.
#[derive(Clone, Copy)]
pub struct MethodBounds {
    pub first: u16,
    pub end: u16,
}

/// The bounds with one more method, whose number is above all others.
fn widened(bounds: MethodBounds, n: u16) -> MethodBounds
    requires { n < 65535 }
    ensures end { result.end ≡ n + 1 }
    ensures first { result.first ≡ (if bounds.first == bounds.end then n else bounds.first) }
{
    let first = if bounds.first == bounds.end {
        n
    } else {
        bounds.first
    };
    MethodBounds { first, end: n + 1 }
}

/// By class where the numbers of its methods lie.
pub(crate) fn method_bounds(
    alloc: Global,
    methods: &Methods,
    count: usize,
) -> Result<Vec<MethodBounds>, AllocError>
    requires few { length methods.now ≤ 32768 }
    requires classes { All (λ m. m.class < count) methods.now }
    ensures { IfOk result (λ bounds. AreBoundsUpTo methods.now count (length methods.now) bounds.items) }
{
    let mut bounds = vec![in alloc; MethodBounds { first: 0, end: 0 }; count]?;
    'methods: for n in 0..methods.len() {
        let class = methods.at(n).class as usize;
        bounds[class] = widened(bounds[class], n as u16);
    }
    Ok(bounds)
}
