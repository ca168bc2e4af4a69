//! What holds of every query.
ghost use Rattle.std.specs.Prelude.{◌≤◌, length};
ghost use Rattle.queries.specs.Admission.{Admissible};
ghost use Rattle.queries.specs.Queries.{table_of};
ghost use Rattle.queries.specs.Rows.{Rows, told};
ghost use Rattle.queries.specs.Table.{Admitted, Directed};

use crate::query::Query;

/// Every query keeps the rules of admission and those on directions, and has a term.
pub fn rules(query: &Query)
    ensures admitted { Admitted (table_of query.now) }
    ensures directed { Directed (table_of query.now) }
    ensures some_term { 1 ≤ length (table_of query.now).terms }
{}

/// What a table tells that keeps every rule of admission is an admitted query.
pub fn told_admitted()
    ensures { (r : Rows) → Admissible r → Admitted (told r) }
{}
