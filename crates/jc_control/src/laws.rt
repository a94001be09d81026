ghost use Rattle.jc_control.specs.Laws.{FlawsDecide, FirstFlawIsOne, InstructionsArePlaced};

use jc_decode::instructions_are_listed;

/// A method is well formed exactly where it has no flaw.
pub fn flaws_decide()
    ensures { FlawsDecide }
{
    instructions_are_listed();
}

/// A method has at most one first flaw.
pub fn first_flaw_is_one()
    ensures { FirstFlawIsOne }
{
    instructions_are_listed();
}

/// Where a method is well formed, an instruction is found at its first place, after each other, and at each place
/// that control reaches, unless the code ends there.
pub fn instructions_are_placed()
    ensures { InstructionsArePlaced }
{
    instructions_are_listed();
}
