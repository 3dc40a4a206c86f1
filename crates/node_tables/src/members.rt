//! The members of a set, one after another.

ghost use Rattle.std.specs.Prelude.{◌≡◌};

use crate::set::NodeSet;
use lattice::Node;

/// The members of a set, in the order of nodes.
#[derive(Debug, Drop)]
pub struct Members<'a> {
    set: &'a NodeSet,
    /// The first slot that wasn't looked at yet.
    next: usize,
}

impl<'a> Members<'a> {
    ghost use Rattle.node_tables.specs.Members.{members, members_left};

    /// Lends the members of a set.
    pub(crate) fn of(set: &'a NodeSet) -> Members<'a>
        ensures { members_left result ≡ members set.now }
    {
        Members { set, next: 0 }
    }
}

impl<'a> Iterator for Members<'a> {
    type Item = Node;

    ghost use Rattle.std.specs.Iterator.{YieldsFirst, item_count};
    ghost use Rattle.node_tables.specs.Members.{members_left};

    ghost next_gives = { YieldsFirst members_left };

    ghost remaining = { item_count members_left };

    fn next(&mut self) -> Option<Node> {
        let node = self.set.first_from(self.next)?;
        self.next = node.slot(self.set.depth()) as usize + 1;
        Some(node)
    }
}
