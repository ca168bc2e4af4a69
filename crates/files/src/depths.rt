//! The depths of the nodes of a file.
ghost use Rattle.std.specs.Prelude.{◌≡◌, IfOk, map};
ghost use Rattle.files.specs.Causes.{depths_in};
ghost use Rattle.files.specs.Contents.{contents_of};
ghost use Rattle.files.specs.Reading.{capped};

use crate::contents::FileContents;
use std::alloc::{AllocError, Global};

impl FileContents {
    /// The depth of each node in 16 bits, with the greatest number of 16 bits in place of a greater one.
    pub(crate) fn depths(&self, heap: Global) -> Result<Vec<u16>, AllocError>
        ensures { IfOk result (λ v. v.items ≡ map capped (depths_in (contents_of self.now))) }
    {
        self.nodes
            .iter()
            .map(|row| row.depth.min(u16::MAX as u32) as u16)
            .collect(heap)
    }
}
