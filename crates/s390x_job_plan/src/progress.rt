//! A plan, as far as its lines have told it.
ghost use Rattle.std.specs.Prelude.{IfOk};
ghost use Rattle.s390x_job_plan.specs.Errors.{Follows};

use crate::line::Line;
use s390x_alloc::{BlockPlan, Edit, EntryPair};
use std::alloc::{AllocError, Global};

/// What is told so far.
#[derive(Drop)]
pub enum Progress {
    /// Nothing.
    Start,
    /// That a plan begins.
    Between,
    /// Whole blocks, and pairs with which one more begins.
    Entering {
        blocks: Vec<BlockPlan>,
        entry: Vec<EntryPair>,
    },
    /// Whole blocks, and the pairs and edits of one more.
    Editing {
        blocks: Vec<BlockPlan>,
        entry: Vec<EntryPair>,
        edits: Vec<Edit>,
    },
    /// The whole plan.
    Done(Vec<BlockPlan>),
}

fn from_start(line: Line) -> Option<Progress>
    ensures { Follows Progress.Start line result }
{
    match line {
        Line::Plan => Some(Progress::Between),
        _ => None,
    }
}

fn from_between(alloc: Global, line: Line) -> Option<Progress>
    ensures { Follows Progress.Between line result }
{
    match line {
        Line::Block => Some(Progress::Entering {
            blocks: Vec::new(alloc),
            entry: Vec::new(alloc),
        }),
        Line::Close => Some(Progress::Done(Vec::new(alloc))),
        _ => None,
    }
}

fn from_editing(
    alloc: Global,
    mut blocks: Vec<BlockPlan>,
    entry: Vec<EntryPair>,
    mut edits: Vec<Edit>,
    line: Line,
) -> Result<Option<Progress>, AllocError>
    ensures { IfOk result (Follows (Progress.Editing blocks entry edits) line) }
{
    match line {
        Line::Block => {
            blocks.push(BlockPlan { entry, edits })?;
            let entry = Vec::new(alloc);
            Ok(Some(Progress::Entering { blocks, entry }))
        }
        Line::Edit(edit) => {
            edits.push(edit)?;
            Ok(Some(Progress::Editing {
                blocks,
                entry,
                edits,
            }))
        }
        Line::Close => {
            blocks.push(BlockPlan { entry, edits })?;
            Ok(Some(Progress::Done(blocks)))
        }
        _ => Ok(None),
    }
}

// A line that is no pair stands as behind no edits.
fn from_entering(
    alloc: Global,
    blocks: Vec<BlockPlan>,
    mut entry: Vec<EntryPair>,
    line: Line,
) -> Result<Option<Progress>, AllocError>
    ensures { IfOk result (Follows (Progress.Entering blocks entry) line) }
{
    match line {
        Line::Entry(pair) => {
            entry.push(pair)?;
            Ok(Some(Progress::Entering { blocks, entry }))
        }
        _ => {
            let edits = Vec::new(alloc);
            let more = from_editing(alloc, blocks, entry, edits, line)?;
            Ok(more)
        }
    }
}

/// What is told after one more line, or none where the line may not stand there.
pub fn follow(alloc: Global, progress: Progress, line: Line) -> Result<Option<Progress>, AllocError>
    ensures { IfOk result (Follows progress line) }
{
    match progress {
        Progress::Start => Ok(from_start(line)),
        Progress::Between => Ok(from_between(alloc, line)),
        Progress::Entering { blocks, entry } => from_entering(alloc, blocks, entry, line),
        Progress::Editing {
            blocks,
            entry,
            edits,
        } => from_editing(alloc, blocks, entry, edits, line),
        Progress::Done(_) => Ok(None),
    }
}
