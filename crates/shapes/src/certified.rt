//! The test of each node of a table, given the levels of the nodes.
ghost use Rattle.std.specs.Prelude.{◌≡◌, ℕ, ◌<◌, true, length, Decides};
ghost use Rattle.shapes.specs.Certified.{answered_at, all_answered_lem, rises, both_rise_lem, root_alone_lem, one_entry, entered, certified_at};
ghost use Rattle.shapes.specs.Levels.{level_of};
ghost use Rattle.shapes.specs.Links.{linked_tree};
ghost use Rattle.shapes.specs.Tree.{along};

use crate::axis::Axis;
use crate::links::Links;
use crate::table::led_to;

/// A table of links, with a level for each node.
// Two slices side by side, since the rows are the caller's.
#[derive(Clone, Copy)]
pub(crate) struct Leveled<'a> {
    pub(crate) rows: &'a [Links],
    pub(crate) levels: &'a [Option<u16>],
}

impl Leveled<'_> {
    fn led_to(&self, axis: Axis, node: usize) -> Option<usize>
        ensures { result ≡ along (linked_tree self.now.rows.now) axis node }
    {
        led_to(self.rows, axis, node)
    }

    fn level(&self, node: usize) -> Option<u16>
        ensures { result ≡ level_of self.now.levels.now node }
    {
        self.levels.get(node).copied().flatten()
    }

    /// Whether a link along an axis leads to a node that leads back.
    fn answered(&self, axis: Axis, node: usize) -> bool
        ensures { result ≡ answered_at (linked_tree self.now.rows.now) node axis }
    {
        match self.led_to(axis, node) {
            None => true,
            Some(other) => {
                other < self.rows.len() && self.led_to(axis.reversed(), other) == Some(node)
            }
        }
    }

    fn all_answered(&self, node: usize) -> bool
        ensures { result ≡ all_answered_lem (linked_tree self.now.rows.now) node }
    {
        self.answered(Axis::First, node)
            && self.answered(Axis::Next, node)
            && self.answered(Axis::Owner, node)
            && self.answered(Axis::Previous, node)
    }

    /// Whether the level grows by 1 where a link along an axis leads.
    ///
    /// Two nodes without levels pass here, and each fails as one that is not entered.
    fn rises(&self, axis: Axis, node: usize) -> bool
        ensures { result ≡ rises (level_of self.now.levels.now) node (along (linked_tree self.now.rows.now) axis node) }
    {
        match self.led_to(axis, node) {
            None => true,
            Some(below) => {
                self.level(below).map(usize::from)
                    == self.level(node).map(|level| usize::from(level) + 1)
            }
        }
    }

    /// Whether the root stands alone at level 0.
    fn root_alone(&self) -> bool
        ensures { result ≡ root_alone_lem (linked_tree self.now.rows.now) (level_of self.now.levels.now) }
    {
        self.level(0) == Some(0)
            && [Axis::Next, Axis::Owner, Axis::Previous]
                .into_iter()
                .all(|axis| self.led_to(axis, 0).is_none())
    }

    /// Whether a node has just one of owner and previous, and a level above 0.
    fn one_entry(&self, node: usize) -> bool
        ensures { result ≡ one_entry (linked_tree self.now.rows.now) (level_of self.now.levels.now) node }
    {
        let owned = self.led_to(Axis::Owner, node).is_some();
        let preceded = self.led_to(Axis::Previous, node).is_some();
        self.level(node).unwrap_or(0) > 0 && owned != preceded
    }

    fn entered(&self, node: usize) -> bool
        ensures { result ≡ entered (linked_tree self.now.rows.now) (level_of self.now.levels.now) node }
    {
        if node == 0 {
            self.root_alone()
        } else {
            self.one_entry(node)
        }
    }

    #[tactic(auto, unfolding(crate::specs::Certified::certified_at))]
    fn certified(&self, node: usize) -> bool
        ensures { result ≡ certified_at self.now.rows.now self.now.levels.now node }
    {
        self.all_answered(node)
            && self.rises(Axis::First, node)
            && self.rises(Axis::Next, node)
            && self.entered(node)
    }

    /// Whether every node passes the test.
    pub(crate) fn all_certified(&self) -> bool
        ensures { Decides result ((x : ℕ) → x < length self.now.rows.now → certified_at self.now.rows.now self.now.levels.now x ≡ true) }
    {
        (0..self.rows.len()).all(|node| self.certified(node))
    }
}
