//! The four ways from a node to a neighbour.
ghost use Rattle.std.specs.Prelude.{◌≡◌};
ghost use Rattle.shapes.specs.Tree.{back};

use std::fmt;

/// First child, sibling to the right, and the same two reversed.
///
/// Only a first child has an owner, and only a later one a previous sibling.
#[derive(Clone, Copy, PartialEq, Eq, Debug)]
pub enum Axis {
    First,
    Next,
    Owner,
    Previous,
}

impl Axis {
    /// The axis that leads back.
    pub fn reversed(self) -> Axis
        ensures { result ≡ back self }
    {
        match self {
            Axis::First => Axis::Owner,
            Axis::Next => Axis::Previous,
            Axis::Owner => Axis::First,
            Axis::Previous => Axis::Next,
        }
    }
}

impl fmt::Display for Axis {
    fn fmt<W: fmt::Write>(&self, f: &mut fmt::Formatter<W>) -> fmt::Result {
        match self {
            Axis::First => write!(f, "first"),
            Axis::Next => write!(f, "next"),
            Axis::Owner => write!(f, "owner"),
            Axis::Previous => write!(f, "previous"),
        }
    }
}

#[cfg(test)]
mod tests {
    use super::*;
    use std::test::Fail;

    #[test]
    fn words(rt: HostRuntime) -> Result<(), Fail> {
        let alloc = rt.alloc();
        for (axis, word) in [
            (Axis::First, "first"),
            (Axis::Next, "next"),
            (Axis::Owner, "owner"),
            (Axis::Previous, "previous"),
        ] {
            let shown = format!(in alloc; "{axis}")?;
            assert!(rt; shown.as_str() == word);
        }
        Ok(())
    }
}
