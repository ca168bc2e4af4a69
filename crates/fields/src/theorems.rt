//! Theorems on fields.
ghost use Rattle.fields.specs.Theorems.{ReadBack};

/// A number that was written into columns is the one that is read from them.
pub fn read_back()
    ensures { ReadBack }
{}
