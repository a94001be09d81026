ghost use Rattle.law_checked.specs.CheckedFolders.{CheckedFoldersNeverFault};

use jc_base::World;
use law_added::checked_packages_never_fault;

/// Where folders tell what they hold, and `check` answers with status 0 over the first of them, over the first two and so on to
/// all, with the same parts in them each time, no run of any entry in the world that they make meets a fault.
pub fn checked_folders_never_fault(world: &World<'_>)
    ensures { CheckedFoldersNeverFault world.now }
{
    checked_packages_never_fault(world);
}
