//! Theorems on files.
ghost use Rattle.files.specs.Outcomes.{CallsAgree, EveryFileAnswered, OneOutcome};

/// A file has one outcome: it is refused for one cause, or lists one text, and not both.
pub fn one_outcome()
    ensures { OneOutcome }
{}

/// Every file is refused for a cause or lists a text.
pub fn every_file_answered()
    ensures { EveryFileAnswered }
{}

/// Calls on the same file write the same listing, or tell the same number and line.
pub fn calls_agree()
    ensures { CallsAgree }
{}
