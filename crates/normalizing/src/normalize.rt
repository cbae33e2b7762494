ghost use Rattle.std.specs.Prelude.{◌<◌, length, MatchResult};
ghost use Rattle.semantics.specs.Normals.{normal};
ghost use Rattle.tables.specs.Sources.{form_at, forms_from};
ghost use Rattle.limits.specs.Parts.{Earlier};
ghost use Rattle.normalizing.specs.NormalWritten.{Put, Full, Normalized, TooLarge};

use crate::shape::{Shape, of_joint, of_step, shaped};
use bounded::Bounded;
use refusals::Refusal;
use tables::{Node, NormalNode};

// One entry more, and its number.
fn put(normals: &mut Bounded<NormalNode, 64>, node: NormalNode) -> Result<usize, Refusal>
    ensures { MatchResult result (λ place. Put normals.old normals.new node place) (λ e. Full normals.old e) }
{
    let place = normals.len();
    normals.push(node).map_err(|_| Refusal::NormalFormTooLarge)?;
    Ok(place)
}

// Writes the normal form of form number `form`, or of its opposite, behind what stands in `normals`, and gives the number of its last entry.
pub fn normalize(
    nodes: &[Node],
    form: usize,
    positive: bool,
    normals: &mut Bounded<NormalNode, 64>,
) -> Result<usize, Refusal>
    requires earlier { Earlier nodes.now }
    requires there { form < length nodes.now }
    ensures { MatchResult result (λ root. Normalized normals.old normals.new (normal positive (form_at (forms_from nodes.now) form)) root) (λ e. TooLarge normals.old (normal positive (form_at (forms_from nodes.now) form)) e) }
{
    match shaped(nodes[form], positive) {
        Shape::Leaf { leaf } => put(normals, NormalNode::from(leaf)),
        Shape::Turned { inner } => normalize(nodes, inner, !positive, normals),
        Shape::Stepped { step, inner } => {
            let under = normalize(nodes, inner, positive, normals)?;
            put(normals, of_step(step, under))
        }
        Shape::Waiting { joint, leaf, inner } => {
            let before = put(normals, NormalNode::from(leaf))?;
            let under = normalize(nodes, inner, positive, normals)?;
            put(normals, of_joint(joint, before, under))
        }
        Shape::Joined {
            joint,
            left,
            left_positive,
            right,
        } => {
            let first = normalize(nodes, left, left_positive, normals)?;
            let second = normalize(nodes, right, positive, normals)?;
            put(normals, of_joint(joint, first, second))
        }
    }
}
