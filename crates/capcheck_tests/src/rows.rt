use crate::filling::{Held, Kept, fill, keep};
use crate::run::{Failing, Left, gives, gives_failing, leaves};
use cap_files::{MemFolder, SureFolder};
use std::alloc::{AllocError, Global};
use std::process::Abort;

/// A command, what its folders hold, its text and its status.
pub(crate) type Row = (&'static str, Held, &'static str, u8);

fn comes_so(alloc: Global, folder: &mut SureFolder, row: &Row) -> Result<bool, AllocError> {
    let (line, held, text, status) = row;
    Ok(fill(alloc, folder, held)? && gives(alloc, line, folder, text, *status)?)
}

fn holds(alloc: Global, row: &Row) -> Result<bool, AllocError> {
    let mut folder = SureFolder::new(alloc, 48, 110_000)?;
    comes_so(alloc, &mut folder, row)
}

/// The number of the first row whose command gives something else.
fn first_wrong(alloc: Global, rows: &'static [Row]) -> Result<Option<usize>, AllocError> {
    for (n, row) in rows.iter().enumerate() {
        if !holds(alloc, row)? {
            return Ok(Some(n));
        }
    }
    Ok(None)
}

/// Asserts that each command gives its text and its status.
pub(crate) fn rows_hold(
    rt: &impl Abort,
    alloc: Global,
    rows: &'static [Row],
) -> Result<(), AllocError> {
    assert_eq!(rt; first_wrong(alloc, rows)?, None);
    Ok(())
}

/// A command, what its folders hold, and what it leaves.
pub(crate) type Leaving = (&'static str, Held, Left<'static>);

fn leaves_so(
    alloc: Global,
    folder: &mut SureFolder,
    leaving: &Leaving,
) -> Result<bool, AllocError> {
    let (line, held, left) = leaving;
    Ok(fill(alloc, folder, held)? && leaves(alloc, line, folder, left)?)
}

fn is_left(alloc: Global, leaving: &Leaving) -> Result<bool, AllocError> {
    let mut folder = SureFolder::new(alloc, 48, 110_000)?;
    leaves_so(alloc, &mut folder, leaving)
}

/// The number of the first row whose command leaves something else.
fn first_other_left(alloc: Global, rows: &'static [Leaving]) -> Result<Option<usize>, AllocError> {
    for (n, leaving) in rows.iter().enumerate() {
        if !is_left(alloc, leaving)? {
            return Ok(Some(n));
        }
    }
    Ok(None)
}

/// Asserts that each command leaves what its row says.
pub(crate) fn words_are_left(
    rt: &impl Abort,
    alloc: Global,
    rows: &'static [Leaving],
) -> Result<(), AllocError> {
    assert_eq!(rt; first_other_left(alloc, rows)?, None);
    Ok(())
}

/// What folders hold, and what a command over them gives where devices fail.
pub(crate) type FailingRow = (Kept, Failing);

fn fails_in(alloc: Global, folder: &mut MemFolder, row: &FailingRow) -> Result<bool, AllocError> {
    let (kept, failing) = row;
    Ok(keep(folder, kept) && gives_failing(alloc, folder, failing)?)
}

fn fails_so(alloc: Global, row: &FailingRow) -> Result<bool, AllocError> {
    let mut folder = MemFolder::new(alloc, 12, 1000)?;
    fails_in(alloc, &mut folder, row)
}

/// The number of the first row whose failure is answered otherwise.
fn first_missed(alloc: Global, rows: &'static [FailingRow]) -> Result<Option<usize>, AllocError> {
    for (n, row) in rows.iter().enumerate() {
        if !fails_so(alloc, row)? {
            return Ok(Some(n));
        }
    }
    Ok(None)
}

/// Asserts that each failure is answered so.
pub(crate) fn failures_are_told(
    rt: &impl Abort,
    alloc: Global,
    rows: &'static [FailingRow],
) -> Result<(), AllocError> {
    assert_eq!(rt; first_missed(alloc, rows)?, None);
    Ok(())
}

/// A command, its text and its status.
pub(crate) type Answer = (&'static str, &'static str, u8);

/// What folders hold; which store fails, from 1, and after how many bytes; and commands over these folders, one after the
/// other.
pub(crate) type Story = (Kept, u32, u32, &'static [Answer]);

/// Whether each of the commands over a folder gives its text and its status.
fn all_answer(
    alloc: Global,
    folder: &mut MemFolder,
    answers: &'static [Answer],
) -> Result<bool, AllocError> {
    for (line, text, status) in answers {
        if !gives_failing(alloc, folder, &(line, 0, 0, 0, text, *status))? {
            return Ok(false);
        }
    }
    Ok(true)
}

/// Whether a story goes so in a folder that holds nothing.
pub(crate) fn goes_in(
    alloc: Global,
    folder: &mut MemFolder,
    story: &Story,
) -> Result<bool, AllocError> {
    let (kept, store, bytes, answers) = story;
    Ok(
        keep(folder, kept)
            && folder.fail_store(*store, *bytes)
            && all_answer(alloc, folder, answers)?,
    )
}

fn goes_so(alloc: Global, story: &Story) -> Result<bool, AllocError> {
    let mut folder = MemFolder::new(alloc, 40, 20_000)?;
    goes_in(alloc, &mut folder, story)
}

/// The number of the first story that goes otherwise.
fn first_other_story(
    alloc: Global,
    stories: &'static [Story],
) -> Result<Option<usize>, AllocError> {
    for (n, story) in stories.iter().enumerate() {
        if !goes_so(alloc, story)? {
            return Ok(Some(n));
        }
    }
    Ok(None)
}

/// Asserts that each story goes so.
pub(crate) fn stories_go_so(
    rt: &impl Abort,
    alloc: Global,
    rows: &'static [Story],
) -> Result<(), AllocError> {
    assert_eq!(rt; first_other_story(alloc, rows)?, None);
    Ok(())
}
