ghost use Rattle.std.specs.Prelude.{◌≡◌};
ghost use Rattle.xf_pack.specs.Unlaid.{unlaid};

use crate::transforming::{MethodLimit, TransformEnd};
use xf_code::RewriteEnd;
use xf_homes::HomeEnd;
use xf_layout::LayEnd;

/// Why no code is laid for a method.
#[derive(Clone, Copy)]
pub(crate) enum LayingEnd {
    Passed(MethodLimit),
    Memory,
}

impl From<HomeEnd> for LayingEnd {
    ghost use Rattle.std.specs.Prelude.{◌≡◌};
    ghost use Rattle.xf_pack.specs.Unlaid.{of_homes};

    ghost from_gives = { λ from end. end ≡ of_homes from };

    fn from(end: HomeEnd) -> LayingEnd {
        match end {
            HomeEnd::Registers(count) => LayingEnd::Passed(MethodLimit::Registers(count)),
            HomeEnd::Memory => LayingEnd::Memory,
        }
    }
}

impl From<RewriteEnd> for LayingEnd {
    ghost use Rattle.std.specs.Prelude.{◌≡◌};
    ghost use Rattle.xf_pack.specs.Unlaid.{of_rewriting};

    ghost from_gives = { λ from end. end ≡ of_rewriting from };

    fn from(end: RewriteEnd) -> LayingEnd {
        match end {
            RewriteEnd::StackLimit => LayingEnd::Passed(MethodLimit::StackLimit),
            RewriteEnd::Memory => LayingEnd::Memory,
        }
    }
}

impl From<LayEnd> for LayingEnd {
    ghost use Rattle.std.specs.Prelude.{◌≡◌};
    ghost use Rattle.xf_pack.specs.Unlaid.{of_layout};

    ghost from_gives = { λ from end. end ≡ of_layout from };

    fn from(end: LayEnd) -> LayingEnd {
        match end {
            LayEnd::MethodLong(size) => LayingEnd::Passed(MethodLimit::MethodLong(size)),
            LayEnd::Memory => LayingEnd::Memory,
        }
    }
}

/// What is told of a method for which no code is laid.
pub(crate) fn unlaid(method: u16, end: LayingEnd) -> TransformEnd
    ensures { result ≡ unlaid method end }
{
    match end {
        LayingEnd::Passed(limit) => TransformEnd::Limit { method, limit },
        LayingEnd::Memory => TransformEnd::Memory,
    }
}
