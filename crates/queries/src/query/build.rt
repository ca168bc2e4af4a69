//! Making a query, and admitting another in its place.
ghost use Rattle.std.specs.Prelude.{◌≡◌, IfOk, MatchResult};
ghost use Rattle.queries.specs.declared.refusal.QueryRefusal.TheVariants.{NoMemory};
ghost use Rattle.queries.specs.Admission.{Admissible, RefusedFor};
ghost use Rattle.queries.specs.Queries.{table_of, lowest_alone};
ghost use Rattle.queries.specs.Rows.{rows_of, told as told_by};

use crate::query::Query;
use crate::refusal::QueryRefusal;
use crate::rows::{BlockRow, QueryTable, TermRow};
use crate::workings::DealtTerms;
use std::alloc::{AllocError, Global};

/// One least block of the lowest term.
const LOWEST_ALONE: QueryTable<'static> = QueryTable {
    tags: 0,
    blocks: &[BlockRow { kind: 0, terms: 1 }],
    terms: &[TermRow {
        kind: 12,
        a: 0,
        b: 0,
    }],
};

impl Query {
    /// The query that a table tells.
    fn told(heap: Global, table: QueryTable<'_>) -> Result<Query, AllocError>
        requires { Admissible (rows_of table) }
        ensures { IfOk result (λ q. table_of q ≡ told_by (rows_of table.entry)) }
    {
        let tags = table.tags as usize;
        let blocks = table.block_entries(heap)?;
        let dealt = table.dealt_terms(heap, &blocks)?;
        let terms = DealtTerms {
            terms: &dealt,
            blocks: blocks.len(),
        };
        Ok(Query {
            tags,
            blocks,
            terms: terms.entries(heap)?,
            reached: terms.reached(heap, tags)?,
        })
    }

    /// A query of one term, the lowest, in a least block, and of no tag.
    pub fn new(heap: Global) -> Result<Query, QueryRefusal>
        ensures { MatchResult result (λ q. table_of q ≡ lowest_alone) (λ e. e ≡ NoMemory) }
    {
        Ok(Query::told(heap, LOWEST_ALONE)?)
    }

    /// Puts what a table tells in the place of this query, or refuses the table and leaves the query as it was.
    pub fn admit(&mut self, heap: Global, table: QueryTable<'_>) -> Result<(), QueryRefusal>
        ensures { let r = rows_of table.entry in MatchResult result (λ _. Admissible r × (table_of self.new ≡ told_by r)) (λ e. (self.new ≡ self.old) × RefusedFor r e) }
    {
        table.check()?;
        *self = Query::told(heap, table)?;
        Ok(())
    }
}
