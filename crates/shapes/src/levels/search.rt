//! What a search of a table holds.
ghost use Rattle.std.specs.Prelude.{◌+◌, ◌≤◌, length, is_none, count_by};
ghost use Rattle.std.specs.VecDeque.{deque_capacity};
ghost use Rattle.shapes.specs.declared.count.TheConstants.{MOST_NODES};

use std::collections::VecDeque;

/// The level of each node reached, and the nodes reached and not yet visited, with their levels.
///
/// Each node that has no level yet has room to wait.
// The nodes are few, so 16 bits hold a number.
#[derive(Drop)]
pub(super) struct Search {
    pub(super) levels: Vec<Option<u16>>,
    pub(super) waiting: VecDeque<(u16, u16)>,
    ghost few: { length levels.items ≤ MOST_NODES },
    ghost room: { length waiting.items + count_by is_none levels.items ≤ deque_capacity waiting },
}
