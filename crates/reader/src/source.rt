ghost use Rattle.std.specs.Prelude.{◌≡◌, ◌+◌, ◌^◌, ◌<◌, ◌≤◌, [], ◌∷◌, ◌++◌, length};
ghost use Rattle.reader.specs.Tables.{held, Added};

use bounded::Bounded;
use tables::Node;

// The forms of a text in the order in which they end. A text may hold more forms than the table has room for, so all are counted:
// `count` is not the table's length.
#[derive(Drop)]
pub struct Source {
    pub nodes: Bounded<Node, 64>,
    pub count: usize,
}

impl Source {
    pub fn new() -> Source
        ensures empty { held result ≡ [] }
        ensures count { result.count ≡ 0 }
    {
        Source {
            nodes: Bounded::new(Node::Top),
            count: 0,
        }
    }

    // Counts the node, and keeps it where there is room.
    pub(crate) fn add(&mut self, node: Node)
        requires { self.old.count + 1 < 2 ^ 64 }
        ensures { Added self.old node self.new }
    {
        let _ = self.nodes.push(node);
        self.count += 1;
    }
}
