ghost use Rattle.std.specs.Prelude.{◌≡◌, ◌+◌, ◌<◌, ◌≤◌, length};
ghost use Rattle.tables.specs.Sources.{form_at, forms_from};
ghost use Rattle.limits.specs.Parts.{Earlier};
ghost use Rattle.limits.specs.Limits.{depth};

use crate::parts::{Parts, parts_of};
use tables::Node;

// The depth of form number `form` of a table: one more than the greatest directly inside it.
pub fn depth_at(nodes: &[Node], form: usize) -> usize
    requires earlier { Earlier nodes.now }
    requires there { form < length nodes.now }
    ensures is { result ≡ depth (form_at (forms_from nodes.now) form) }
    ensures few { result ≤ form + 1 }
{
    match parts_of(nodes[form]) {
        Parts::Nothing => 1,
        Parts::One { inner } => depth_at(nodes, inner) + 1,
        Parts::Two { left, right } => depth_at(nodes, left).max(depth_at(nodes, right)) + 1,
    }
}
