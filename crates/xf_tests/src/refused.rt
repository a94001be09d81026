ghost use Rattle.xf_tests.specs.Refused.{MissingCopyIsRefused, MissingReloadIsRefused, ZeroIsRefused};

/// Wrong rewritings match no frames: a body that returns zero whatever the method does, no copies where control falls into a
/// place, and a stack under a conditional that is put back at the target alone.
pub fn wrong_rewritings_are_refused()
    ensures zero { ZeroIsRefused }
    ensures copies { MissingCopyIsRefused }
    ensures reloads { MissingReloadIsRefused }
{}
