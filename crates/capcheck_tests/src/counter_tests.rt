use crate::counter_packages::COUNTER;
use crate::filling::Kept;
use crate::rows::{Answer, Story, goes_in, stories_go_so};
use crate::transform_tests::is_file;
use cap_bytes::Part;
use cap_files::MemFolder;
use cap_tests::DEBUG;
use std::alloc::{AllocError, Global};

/// The custom component of the counter.
const CUSTOM: Part = Part(129);

/// In this order, with what `transform` stores in `U`. The counter of kind 1 counts three times, and that of kind 2 nine times,
/// where the seventh time passes its limit.
static ANSWERS: [Answer; 9] = [
    ("check R C", "typed 20 methods\n", 0),
    (
        "verify R C",
        "refused package 1 method 0.1 place 6 StackAtBranch\n",
        1,
    ),
    ("transform U R C", "transformed 20 methods\n", 0),
    ("verify R U", "accepted 37 methods\n", 0),
    (
        "defend 500 5.3 R C -- 1 3",
        "returned short 12\nstatic 0 null\nstatic 1 reference 1\nstatic 2 reference 2\n\
          static 3 reference 3\nstatic 4 reference 4\nstatic 5 reference 5\nstatic 6 short 0\n\
          static 7 short 0\nstatic 8 short 9\nstatic 9 short 1\nstatic 10 int 70000\n",
        0,
    ),
    (
        "run 500 5.3 R U -- 1 3",
        "returned short 12\nstatic 0 null\nstatic 1 reference 1\nstatic 2 reference 2\n\
          static 3 reference 3\nstatic 4 reference 4\nstatic 5 reference 5\nstatic 6 short 0\n\
          static 7 short 0\nstatic 8 short 9\nstatic 9 short 1\nstatic 10 int 70000\n",
        0,
    ),
    (
        "trial 500 5.3 R C -- 1 3",
        "source\nreturned short 12\nstatic 0 null\nstatic 1 reference 1\nstatic 2 reference 2\n\
          static 3 reference 3\nstatic 4 reference 4\nstatic 5 reference 5\nstatic 6 short 0\n\
          static 7 short 0\nstatic 8 short 9\nstatic 9 short 1\nstatic 10 int 70000\n\
          target\nreturned short 12\nstatic 0 null\nstatic 1 reference 1\nstatic 2 reference 2\n\
          static 3 reference 3\nstatic 4 reference 4\nstatic 5 reference 5\nstatic 6 short 0\n\
          static 7 short 0\nstatic 8 short 9\nstatic 9 short 1\nstatic 10 int 70000\n",
        0,
    ),
    (
        "defend 800 5.3 R C -- 2 9",
        "returned short -200\nstatic 0 null\nstatic 1 reference 1\nstatic 2 reference 2\n\
          static 3 reference 3\nstatic 4 reference 4\nstatic 5 reference 5\nstatic 6 short 0\n\
          static 7 short 0\nstatic 8 short 9\nstatic 9 short 1\nstatic 10 int 69800\n",
        0,
    ),
    (
        "run 800 5.3 R U -- 2 9",
        "returned short -200\nstatic 0 null\nstatic 1 reference 1\nstatic 2 reference 2\n\
          static 3 reference 3\nstatic 4 reference 4\nstatic 5 reference 5\nstatic 6 short 0\n\
          static 7 short 0\nstatic 8 short 9\nstatic 9 short 1\nstatic 10 int 69800\n",
        0,
    ),
];

/// The file of the counter's custom component.
fn custom_file() -> Option<&'static [u8]> {
    COUNTER
        .iter()
        .find(|(part, _)| part.0 == CUSTOM.0)
        .map(|(_, file)| *file)
}

/// Whether the commands give this, and what is stored has no Debug component and the custom one.
fn is_served(alloc: Global, folder: &mut MemFolder) -> Result<bool, AllocError> {
    Ok(
        goes_in(alloc, folder, &(Kept::Counter, 0, 0, &ANSWERS))?
            && is_file(alloc, folder, DEBUG, None)?
            && is_file(alloc, folder, CUSTOM, custom_file())?,
    )
}

fn serves(alloc: Global) -> Result<bool, AllocError> {
    let mut folder = MemFolder::new(alloc, 40, 8000)?;
    is_served(alloc, &mut folder)
}

#[test]
fn commands_answer_for_a_counter(rt: HostRuntime) -> Result<(), AllocError> {
    assert!(rt; serves(rt.alloc())?);
    Ok(())
}

/// The fifth store fails, and the Header is absent; then at once again.
const AFTER_A_STORE: [Answer; 4] = [
    ("transform U R C", "store fault\n", 4),
    ("verify R U", "malformed package 1 MissingPart 1\n", 7),
    ("transform U R C", "transformed 20 methods\n", 0),
    ("verify R U", "accepted 37 methods\n", 0),
];

static FIFTH: [Story; 1] = [(Kept::Counter, 5, 0, &AFTER_A_STORE)];

#[test]
fn a_counter_whose_fifth_store_fails_has_no_header(rt: HostRuntime) -> Result<(), AllocError> {
    stories_go_so(&rt, rt.alloc(), &FIFTH)
}
