ghost use Rattle.std.specs.Prelude.{◌≡◌, ◌+◌, ◌*◌, ◌<◌, ◌≤◌, length};
ghost use Rattle.semantics.specs.Normals.{Normal};
ghost use Rattle.normalizing.specs.NormalWritten.{normal_written};
ghost use Rattle.translation.specs.Building.{width_of, widths, EarlierNormals};
ghost use Rattle.translation.specs.Translating.{Translated};

use crate::builder::Builder;
use bounded::Bounded;
use tables::{Cell, Location, NormalNode};

// The cells and the locations of a rule.
#[derive(Drop)]
pub struct Tables {
    pub cells: Bounded<Cell, 577>,
    pub locations: Bounded<Location, 65>,
}

// How many cells are a normal form's own.
fn width(node: NormalNode) -> u16
    ensures { result ≡ width_of node }
{
    match node {
        NormalNode::Top | NormalNode::Bottom => 1,
        NormalNode::Fact { .. } | NormalNode::Opposed { .. } => 1,
        NormalNode::Both { .. } | NormalNode::Either { .. } => 1,
        NormalNode::Next { .. } | NormalNode::DualNext { .. } => 5,
        NormalNode::Until { .. } | NormalNode::Release { .. } => 9,
    }
}

// How many cells a table of normal forms has.
fn total(normals: &[NormalNode]) -> u16
    requires { length normals.now ≤ 64 }
    ensures { result ≡ widths normals.now }
{
    normals.iter().map(|node| width(*node)).sum()
}

// The automaton of the normal form that a table stands for.
pub fn translate(normals: &[NormalNode]) -> Tables
    requires earlier { EarlierNormals normals.now }
    requires some { 1 ≤ length normals.now }
    requires few { length normals.now ≤ 64 }
    ensures { (f : Normal) → normals.now ≡ normal_written 0 f → Translated f result }
{
    let cells = total(normals);
    let mut builder = Builder::new(cells);
    for node in normals {
        builder.add(*node);
    }
    builder.finish(Cell::Reset { cell: cells - 1 })
}
