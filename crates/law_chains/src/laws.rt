ghost use Rattle.law_chains.specs.Stacked.{OnlyCalledMethodsRun, RunsKeepToCalls};
ghost use Rattle.law_chains.specs.Bounds.{ChainsBoundRuns};

use jc_base::World;

/// In a world whose methods are typed, a method that runs is one that the method under it calls, and so in every state of
/// every run of an entry the frames are a chain of calls from it.
pub fn frames_are_chains(world: &World<'_>)
    ensures called { OnlyCalledMethodsRun world.now }
    ensures runs { RunsKeepToCalls world.now }
{
    let _ = world.classes().records();
}

/// The greatest sums along chains of calls from an entry bound its runs: the words and the number of live frames in every
/// state; and no run is too deep where no chain has more methods than there may be frames.
pub fn chains_bound_runs(world: &World<'_>)
    ensures { ChainsBoundRuns world.now }
{
    let _ = world.classes().records();
}
