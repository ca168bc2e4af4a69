//! Tables of grades: marks, with a row for each tag, and values, with a row for each term.
ghost use Rattle.std.specs.Prelude.{◌≡◌, ℕ, ◌<◌, length, Some};
ghost use Rattle.std.specs.Option.{SomeIff};
ghost use Rattle.meaning.specs.Solutions.{at_or};
ghost use Rattle.meaning.specs.Tables.{place, grades_in};

use grades::grade::Grade;

/// Row after row, each with a grade for every node.
#[derive(Clone, Copy)]
pub struct GradeTable<'a, G> {
    pub grades: &'a [G],
    pub nodes: usize,
}

impl<'a, G: Grade> GradeTable<'a, G> {
    /// The grade of a row at a node; none outside the table.
    pub fn at(&self, row: usize, node: usize) -> Option<G>
        ensures { SomeIff result (place self.now.nodes row node < length self.now.grades.now) (grades_in G.kind self.now.nodes self.now.grades.now row node) }
    {
        // In 128 bits no place is too great.
        let at = row as u128 * self.nodes as u128 + node as u128;
        self.grades.get(usize::try_from(at).ok()?).copied()
    }

    /// The grade of a row at a neighbour, or another where there is no neighbour; none outside the table.
    pub(crate) fn at_neighbour(&self, row: usize, neighbour: Option<usize>, other: G) -> Option<G>
        ensures { SomeIff result ((y : ℕ) → neighbour ≡ Some y → place self.now.nodes row y < length self.now.grades.now) (at_or other (grades_in G.kind self.now.nodes self.now.grades.now row) neighbour) }
    {
        match neighbour {
            Some(node) => self.at(row, node),
            None => Some(other),
        }
    }
}
