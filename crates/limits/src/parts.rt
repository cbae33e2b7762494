ghost use Rattle.std.specs.Prelude.{◌≡◌};
ghost use Rattle.limits.specs.Parts.{node_parts, node_interval};

use tables::{Interval, Node};

// The forms directly inside a form, by number.
#[derive(Clone, Copy)]
pub enum Parts {
    Nothing,
    One { inner: usize },
    Two { left: usize, right: usize },
}

pub fn parts_of(node: Node) -> Parts
    ensures { result ≡ node_parts node }
{
    match node {
        Node::Top | Node::Bottom | Node::Fact { .. } => Parts::Nothing,
        Node::Opposite { inner }
        | Node::Next { inner, .. }
        | Node::DualNext { inner, .. }
        | Node::Eventually { inner, .. }
        | Node::Always { inner, .. } => Parts::One { inner },
        Node::Both { left, right }
        | Node::Either { left, right }
        | Node::Implies { left, right }
        | Node::Until { left, right, .. }
        | Node::Release { left, right, .. } => Parts::Two { left, right },
    }
}

// The interval of a form that has one.
pub fn interval_in(node: Node) -> Option<Interval>
    ensures { result ≡ node_interval node }
{
    match node {
        Node::Top | Node::Bottom | Node::Fact { .. } | Node::Opposite { .. } => None,
        Node::Both { .. } | Node::Either { .. } | Node::Implies { .. } => None,
        Node::Next { interval, .. }
        | Node::DualNext { interval, .. }
        | Node::Eventually { interval, .. }
        | Node::Always { interval, .. }
        | Node::Until { interval, .. }
        | Node::Release { interval, .. } => Some(interval),
    }
}
