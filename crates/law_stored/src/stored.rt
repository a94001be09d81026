ghost use Rattle.law_stored.specs.StoredIsRead.{StoredIsRead};
ghost use Rattle.law_stored.specs.PackedIsInstalled.{PackedIsInstalled};

/// After `transform` with status 0, what a command asks for in the folder in which was stored are the parts that were stored, whatever
/// else stands there. Where that folder is none of the libraries', the libraries and it make the new world, so `verify` has all
/// that it needs there.
pub fn stored_is_read()
    ensures { StoredIsRead }
{}

/// After `pack` with status 0 the Load file in OUT has the package of DIR: its parts hold the same and stand for the same package. With
/// libraries whose folders are not OUT, `install` makes the worlds that `verify` makes with DIR, and accepts or refuses them with the
/// same line. So it is where the folders tell what they hold, and roles stand beside the first package.
pub fn packed_is_installed()
    ensures { PackedIsInstalled }
{}
