//! Why a filling is refused.
ghost use Rattle.std.specs.Prelude.{◌≡◌};
ghost use Rattle.shapes.specs.Refusals.{published};
ghost use Rattle.shapes.specs.declared.refusal.ShapeRefusal.TheVariants.{NoMemory};

use std::alloc::AllocError;
use thiserror::Error;

/// Why a shape was not filled; the shape is then as it was.
#[derive(Clone, Copy, PartialEq, Eq, Debug, Error)]
pub enum ShapeRefusal {
    /// No node, or over 2,048.
    #[error("a shape has 1 to 2,048 nodes")]
    NodeCount,
    /// Links that break a law of trees.
    #[error("the links break a law of trees")]
    BrokenLinks,
    /// An unlawful depth list; the node is the first whose depth breaks the rule.
    #[error("the depth of node {node} breaks the rule of depths")]
    UnlawfulDepth { node: usize },
    /// Want of memory: no fault of what was given.
    #[error("out of memory")]
    NoMemory,
}

impl ShapeRefusal {
    /// The published number: by a rule of the project one table numbers all refusals.
    pub fn number(self) -> u8
        ensures { result ≡ published self }
    {
        match self {
            ShapeRefusal::NodeCount => 1,
            ShapeRefusal::BrokenLinks => 2,
            ShapeRefusal::UnlawfulDepth { .. } => 2,
            ShapeRefusal::NoMemory => 99,
        }
    }
}

// By hand, since the derive's conversion promises nothing of the refusal.
impl From<AllocError> for ShapeRefusal {
    ghost from_gives = { λ _ refusal. refusal ≡ NoMemory };

    fn from(_error: AllocError) -> Self {
        Self::NoMemory
    }
}

#[cfg(test)]
mod tests {
    use super::*;
    use std::test::Fail;

    #[test]
    fn sentence(rt: HostRuntime) -> Result<(), Fail> {
        let alloc = rt.alloc();
        let refusal = ShapeRefusal::UnlawfulDepth { node: 7 };
        let shown = format!(in alloc; "{refusal}")?;
        assert!(rt; shown.as_str() == "the depth of node 7 breaks the rule of depths");
        Ok(())
    }
}
