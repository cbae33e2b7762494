ghost use Rattle.std.specs.Prelude.{◌≡◌, cond};
ghost use Rattle.normalizing.specs.Duals.{leaf_dual, step_dual, joint_dual};
ghost use Rattle.normalizing.specs.Shapes.{shape_of, leaf_node, step_node, joint_node};

use tables::{Interval, Node, NormalNode};

// A normal form with none inside.
#[derive(Clone, Copy)]
pub enum Leaf {
    Top,
    Bottom,
    Fact { fact: u8 },
    Opposed { fact: u8 },
}

// What stands before one normal form.
#[derive(Clone, Copy)]
pub enum Step {
    Next { interval: Interval },
    DualNext { interval: Interval },
}

// What joins two normal forms.
#[derive(Clone, Copy)]
pub enum Joint {
    Both,
    Either,
    Until { interval: Interval },
    Release { interval: Interval },
}

// How the normal form of a form, or of its opposite, is made from those of the forms inside it.
#[derive(Clone, Copy)]
pub enum Shape {
    Leaf {
        leaf: Leaf,
    },
    // the opposite way round
    Turned {
        inner: usize,
    },
    Stepped {
        step: Step,
        inner: usize,
    },
    // a leaf on the left
    Waiting {
        joint: Joint,
        leaf: Leaf,
        inner: usize,
    },
    // the left as it is, or its opposite
    Joined {
        joint: Joint,
        left: usize,
        left_positive: bool,
        right: usize,
    },
}

// What becomes another thing of its kind in an opposite. No law: `shape_of` says what comes of each node either way.
trait Dual: Copy {
    ghost dual_of: { Self → Self };

    fn dual(self) -> Self
        ensures { result ≡ dual_of self };
}

impl Dual for Leaf {
    ghost dual_of = { leaf_dual };

    fn dual(self) -> Leaf {
        match self {
            Leaf::Top => Leaf::Bottom,
            Leaf::Bottom => Leaf::Top,
            Leaf::Fact { fact } => Leaf::Opposed { fact },
            Leaf::Opposed { fact } => Leaf::Fact { fact },
        }
    }
}

impl Dual for Step {
    ghost dual_of = { step_dual };

    fn dual(self) -> Step {
        match self {
            Step::Next { interval } => Step::DualNext { interval },
            Step::DualNext { interval } => Step::Next { interval },
        }
    }
}

impl Dual for Joint {
    ghost dual_of = { joint_dual };

    fn dual(self) -> Joint {
        match self {
            Joint::Both => Joint::Either,
            Joint::Either => Joint::Both,
            Joint::Until { interval } => Joint::Release { interval },
            Joint::Release { interval } => Joint::Until { interval },
        }
    }
}

// As it is, or, in an opposite, its dual.
fn dual_unless<D: Dual>(positive: bool, part: D) -> D
    ensures { result ≡ cond positive part (D.dual_of part) }
{
    if positive { part } else { part.dual() }
}

// The opposite goes inwards: each operator becomes its dual, and keeps its interval.
pub fn shaped(node: Node, positive: bool) -> Shape
    ensures { result ≡ shape_of positive node }
{
    match node {
        Node::Top => Shape::Leaf {
            leaf: dual_unless(positive, Leaf::Top),
        },
        Node::Bottom => Shape::Leaf {
            leaf: dual_unless(positive, Leaf::Bottom),
        },
        Node::Fact { fact } => Shape::Leaf {
            leaf: dual_unless(positive, Leaf::Fact { fact }),
        },
        Node::Opposite { inner } => Shape::Turned { inner },
        Node::Both { left, right } => Shape::Joined {
            joint: dual_unless(positive, Joint::Both),
            left,
            left_positive: positive,
            right,
        },
        Node::Either { left, right } => Shape::Joined {
            joint: dual_unless(positive, Joint::Either),
            left,
            left_positive: positive,
            right,
        },
        Node::Implies { left, right } => Shape::Joined {
            joint: dual_unless(positive, Joint::Either),
            left,
            left_positive: !positive,
            right,
        },
        Node::Next { interval, inner } => Shape::Stepped {
            step: dual_unless(positive, Step::Next { interval }),
            inner,
        },
        Node::DualNext { interval, inner } => Shape::Stepped {
            step: dual_unless(positive, Step::DualNext { interval }),
            inner,
        },
        Node::Eventually { interval, inner } => Shape::Waiting {
            joint: dual_unless(positive, Joint::Until { interval }),
            leaf: dual_unless(positive, Leaf::Top),
            inner,
        },
        Node::Always { interval, inner } => Shape::Waiting {
            joint: dual_unless(positive, Joint::Release { interval }),
            leaf: dual_unless(positive, Leaf::Bottom),
            inner,
        },
        Node::Until {
            interval,
            left,
            right,
        } => Shape::Joined {
            joint: dual_unless(positive, Joint::Until { interval }),
            left,
            left_positive: positive,
            right,
        },
        Node::Release {
            interval,
            left,
            right,
        } => Shape::Joined {
            joint: dual_unless(positive, Joint::Release { interval }),
            left,
            left_positive: positive,
            right,
        },
    }
}

impl From<Leaf> for NormalNode {
    ghost from_gives = { λ leaf node. node ≡ leaf_node leaf };

    fn from(leaf: Leaf) -> NormalNode {
        match leaf {
            Leaf::Top => NormalNode::Top,
            Leaf::Bottom => NormalNode::Bottom,
            Leaf::Fact { fact } => NormalNode::Fact { fact },
            Leaf::Opposed { fact } => NormalNode::Opposed { fact },
        }
    }
}

pub fn of_step(step: Step, inner: usize) -> NormalNode
    ensures { result ≡ step_node step inner }
{
    match step {
        Step::Next { interval } => NormalNode::Next { interval, inner },
        Step::DualNext { interval } => NormalNode::DualNext { interval, inner },
    }
}

pub fn of_joint(joint: Joint, left: usize, right: usize) -> NormalNode
    ensures { result ≡ joint_node joint left right }
{
    match joint {
        Joint::Both => NormalNode::Both { left, right },
        Joint::Either => NormalNode::Either { left, right },
        Joint::Until { interval } => NormalNode::Until {
            interval,
            left,
            right,
        },
        Joint::Release { interval } => NormalNode::Release {
            interval,
            left,
            right,
        },
    }
}
