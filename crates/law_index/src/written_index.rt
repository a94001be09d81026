ghost use Rattle.law_index.specs.WrittenIndex.{WrittenIndexIsExact};

use jc_decode::instructions_are_listed;

/// Where the last of several packages is written with other code of its methods, and a target index with it, each method
/// with code of this package has the exact target index of its code in the world that the packages make.
pub fn written_index_is_exact()
    ensures { WrittenIndexIsExact }
{
    instructions_are_listed();
}
