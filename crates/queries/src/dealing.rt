//! The terms of an admitted table, dealt to its blocks in order.
ghost use Rattle.std.specs.Prelude.{◌≡◌, ℕ, ◌<◌, ◌≤◌, map, length, All, IfOk, IsSome};
ghost use Rattle.queries.specs.Admission.{Framed};
ghost use Rattle.queries.specs.Rows.{RowFits, rows_of, told, block_in, term_in};
ghost use Rattle.queries.specs.Table.{total, block_of};
ghost use Rattle.queries.specs.Workings.{listed, span_of};

use crate::block::{Block, Span};
use crate::query::entries::BlockEntry;
use crate::rows::QueryTable;
use crate::term::Term;
use crate::workings::DealtTerm;
use std::alloc::{AllocError, Global};

impl QueryTable<'_> {
    /// Each block with its terms.
    pub(crate) fn block_entries(self, heap: Global) -> Result<Vec<BlockEntry>, AllocError>
        requires fit { All RowFits self.blocks.now }
        requires few { total (told (rows_of self)).blocks ≤ 64 }
        ensures { let q = told (rows_of self.entry) in IfOk result (λ v. (map (λ e. e.block) v.items ≡ q.blocks) × (map (λ e. e.span) v.items ≡ listed (span_of q) (length q.blocks))) }
    {
        let mut entries = Vec::new(heap);
        let mut first = 0;
        for row in self.blocks {
            let block = Block::try_from(*row).unwrap();
            let end = first + block.terms;
            entries.push(BlockEntry {
                block,
                span: Span { first, end },
            })?;
            first = end;
        }
        Ok(entries)
    }

    /// Each term with its block, over the entries of the blocks.
    pub(crate) fn dealt_terms(
        self,
        heap: Global,
        blocks: &[BlockEntry],
    ) -> Result<Vec<DealtTerm>, AllocError>
        requires framed { Framed (rows_of self) }
        requires known { All (λ row. IsSome (term_in row)) self.terms.now }
        requires spans { let q = told (rows_of self) in map (λ e. e.span) blocks.now ≡ listed (span_of q) (length q.blocks) }
        ensures { let q = told (rows_of self.entry) in IfOk result (λ v. (map (λ d. d.term) v.items ≡ q.terms) × (map (λ d. d.block) v.items ≡ listed (block_of q) (length q.terms))) }
    {
        let mut dealt = Vec::new(heap);
        let mut block = 0;
        for (i, row) in self.terms.iter().enumerate() {
            // No block is empty, so the next term is of this block or of the one after it.
            if i == blocks[block].span.end {
                block += 1;
            }
            dealt.push(DealtTerm {
                term: Term::try_from(*row).unwrap(),
                block,
            })?;
        }
        Ok(dealt)
    }
}
