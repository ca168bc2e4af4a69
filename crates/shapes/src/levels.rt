//! Levels of the nodes of a table, worked out breadth first from the root.
ghost use Rattle.std.specs.Prelude.{◌≡◌, ◌<◌, ◌≤◌, length, IfOk};
ghost use Rattle.shapes.specs.Levels.{reached, untouched, reach, visit, levels_of_lem};
ghost use Rattle.shapes.specs.Links.{linked_tree};

use crate::axis::Axis;
use crate::count::MOST_NODES;
use crate::levels::search::Search;
use crate::links::Links;
use crate::table::led_to;
use std::alloc::{AllocError, Global};
use std::collections::VecDeque;

mod search;

impl Search {
    fn new(heap: Global, count: usize) -> Result<Search, AllocError>
        requires { count ≤ MOST_NODES }
        ensures { IfOk result (λ s. reached s ≡ untouched count) }
    {
        let levels = vec![in heap; None; count]?;
        let waiting = VecDeque::with_capacity(heap, count)?;
        Ok(Search { levels, waiting })
    }

    /// Gives a node its level, if there is one and it has none yet.
    fn reach(&mut self, level: u16, found: Option<usize>)
        ensures { reached self.new ≡ reach level found (reached self.old) }
    {
        match found {
            Some(node) if node < self.levels.len() && self.levels[node].is_none() => {
                self.levels[node] = Some(level);
                self.waiting.push_back_reserved((node as u16, level));
            }
            _ => {}
        }
    }

    /// Reaches what a node leads to, a level below it.
    fn visit(&mut self, rows: &[Links], node: usize, level: u16)
        requires { level < MOST_NODES }
        ensures { reached self.new ≡ visit (linked_tree rows.now) node level (reached self.old) }
    {
        self.reach(level + 1, led_to(rows, Axis::First, node));
        self.reach(level + 1, led_to(rows, Axis::Next, node));
    }
}

/// The level of each node of a table; those that no way from the root leads to have none.
pub(crate) fn levels_of(heap: Global, rows: &[Links]) -> Result<Vec<Option<u16>>, AllocError>
    requires { length rows.now ≤ MOST_NODES }
    ensures { IfOk result (λ v. v.items ≡ levels_of_lem (linked_tree rows.now)) }
{
    let mut search = Search::new(heap, rows.len())?;
    search.reach(0, Some(0));
    while let Some((node, level)) = search.waiting.pop_front() {
        search.visit(rows, node as usize, level);
    }
    Ok(search.levels)
}
