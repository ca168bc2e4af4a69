//! What the lines of a survey file say.
ghost use Rattle.std.specs.Prelude.{◌≡◌, [], MatchResult};
ghost use Rattle.files.specs.Contents.{contents_of};
ghost use Rattle.files.specs.Lines.{RowFits};
ghost use Rattle.files.specs.Reading.{ReadOf, ReadRefused};
ghost use Rattle.files.specs.Rows.{head_form};
ghost use Rattle.files.specs.TakingRows.{AddsRow, NoneAdded, TakesMany, TakesMarks, ReadBehind, headed};
ghost use Rattle.files.specs.declared.contents.Stop.TheVariants as stop;

use crate::fault::{FileRefusal, LineCause};
use crate::head::Head;
use crate::line::Row;
use crate::rows::{AskedRow, MARK, MarkRow, NodeRow};
use queries::rows::{BlockRow, TermRow};
use std::alloc::{AllocFailed, Global};

/// What the lines say, as far as they stand in order and are well formed.
#[derive(Drop)]
pub(crate) struct FileContents {
    pub(crate) head: Head,
    pub(crate) nodes: Vec<NodeRow>,
    pub(crate) blocks: Vec<BlockRow>,
    pub(crate) terms: Vec<TermRow>,
    pub(crate) marks: Vec<MarkRow>,
    pub(crate) asked: Option<AskedRow>,
}

/// What was read of a file, and the cause at the line behind it; none where the file ends with the line that asks.
#[derive(Drop)]
pub(crate) struct ReadFile {
    pub(crate) contents: FileContents,
    pub(crate) fault: Option<LineCause>,
}

/// Why reading stops before the end of a file.
#[derive(Clone, Copy, PartialEq, Eq, Debug)]
enum Stop {
    Line(LineCause),
    NoMemory,
}

impl From<LineCause> for Stop {
    ghost from_gives = { λ cause why. why ≡ stop.Line cause };

    fn from(cause: LineCause) -> Self {
        Self::Line(cause)
    }
}

impl<T: Drop> From<AllocFailed<T>> for Stop {
    ghost from_gives = { λ _ why. why ≡ stop.NoMemory };

    fn from(_failed: AllocFailed<T>) -> Self {
        Self::NoMemory
    }
}

/// Reads a file up to the first line that is malformed or out of order.
pub(crate) fn read_file(heap: Global, file: &[u8]) -> Result<ReadFile, FileRefusal>
    ensures { MatchResult result (ReadOf file.now) (ReadRefused file.now) }
{
    let (head, rest) = Head::take(file).map_err(|cause| cause.at(1))?;
    let mut contents = FileContents::new(heap, head);
    let fault = match contents.take_lines(rest) {
        Ok(()) => None,
        Err(Stop::Line(cause)) => Some(cause),
        Err(Stop::NoMemory) => return Err(FileRefusal::NoMemory),
    };
    Ok(ReadFile { contents, fault })
}

impl FileContents {
    /// The contents of a file that has a head alone.
    fn new(heap: Global, head: Head) -> Self
        ensures { contents_of result ≡ headed head }
    {
        FileContents {
            head,
            nodes: Vec::new(heap),
            blocks: Vec::new(heap),
            terms: Vec::new(heap),
            marks: Vec::new(heap),
            asked: None,
        }
    }

    /// Takes the lines behind the head, to the end of the file.
    fn take_lines(&mut self, text: &[u8]) -> Result<(), Stop>
        requires fresh { contents_of self.old ≡ headed self.old.head }
        requires fits { RowFits head_form self.old.head }
        ensures { ReadBehind self.old.head text.now (contents_of self.new) result }
    {
        let rest = take_rows(&mut self.nodes, text, self.head.nodes as usize)?;
        let rest = take_rows(&mut self.blocks, rest, self.head.blocks as usize)?;
        let rest = take_rows(&mut self.terms, rest, self.head.terms as usize)?;
        let rest = take_marks(&mut self.marks, rest)?;
        let (asked, rest) = AskedRow::take(rest)?;
        self.asked = Some(asked);
        match rest {
            [] => Ok(()),
            _ => Err(LineCause::OtherLine.into()),
        }
    }
}

/// Takes so many rows off the front of the text.
fn take_rows<'a, R: Row>(rows: &mut Vec<R>, text: &'a [u8], most: usize) -> Result<&'a [u8], Stop>
    requires { rows.old.items ≡ [] }
    ensures { TakesMany R.form most text.now rows.new.items result }
{
    let mut rest = text;
    for _ in 0..most {
        rest = take_row(rows, rest)?;
    }
    Ok(rest)
}

/// Takes marks off the front of the text while a line begins as one.
fn take_marks<'a>(marks: &mut Vec<MarkRow>, text: &'a [u8]) -> Result<&'a [u8], Stop>
    requires { marks.old.items ≡ [] }
    ensures { TakesMarks text.now marks.new.items result }
{
    let mut rest = text;
    while let [MARK, ..] = rest {
        rest = take_row(marks, rest)?;
    }
    Ok(rest)
}

/// Takes a row off the front of the text, and adds it to those before.
fn take_row<'a, R: Row>(rows: &mut Vec<R>, text: &'a [u8]) -> Result<&'a [u8], Stop>
    ensures { MatchResult result
        (λ rest. AddsRow R.form rows.old.items text.now rows.new.items rest.now)
        (NoneAdded R.form rows.old.items text.now rows.new.items) }
{
    let (row, rest) = R::take(text)?;
    rows.push(row)?;
    Ok(rest)
}
