//! The check of the lines of the marks.
ghost use Rattle.std.specs.Prelude.{◌≡◌, length, Decides, MatchResult};
ghost use Rattle.files.specs.Causes.{IsGradeNumber, MarkCause, mark_line, term_line};
ghost use Rattle.files.specs.Checking.{CheckedTo, Checks, FirstOn, MarkSound};
ghost use Rattle.files.specs.Contents.{contents_of};
ghost use Rattle.files.specs.Faults.{number_of_cause};

use crate::causes::Checked;
use crate::fault::{FieldFault, LineCause, LineFault};
use crate::head::{GradeKind, Head};
use crate::rows::MarkRow;
use surveys::refusal::SurveyRefusal;

impl GradeKind {
    /// Whether a number is that of a grade.
    fn has(self, number: u64) -> bool
        ensures { Decides result (IsGradeNumber self number) }
    {
        match self {
            GradeKind::YesNo => number <= 1,
            GradeKind::StageSets => number <= 0xffff_ffff,
        }
    }
}

impl MarkRow {
    /// Whether nothing is wrong with the line of a mark, and the first cause where something is.
    fn check(self, head: Head) -> Result<(), LineCause>
        ensures { MatchResult result (λ _. MarkSound head self) (λ cause. FirstOn (MarkCause head self) (number_of_cause cause)) }
    {
        if !head.grades.has(self.grade) {
            return Err(FieldFault::NoGrade.into());
        }
        if self.node >= head.nodes || self.tag >= head.tags {
            return Err(SurveyRefusal::NotInSurvey.into());
        }
        Ok(())
    }
}

impl Checked<'_> {
    /// The lines of the marks, once all before them is checked.
    pub(super) fn marks(self) -> Result<(), LineFault>
        requires { let c = contents_of self.contents.now in CheckedTo self.room c (term_line c (length c.terms)) }
        ensures { let c = contents_of self.entry.contents.now in Checks self.entry.room c (mark_line c (length c.marks)) result }
    {
        let head = self.contents.head;
        for (i, mark) in self.contents.marks.iter().enumerate() {
            if let Err(cause) = mark.check(head) {
                return Err(cause.at(self.contents.line_of_mark(i)));
            }
        }
        Ok(())
    }
}
