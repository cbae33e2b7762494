ghost use Rattle.std.specs.Prelude.{◌≡◌, MatchResult};
ghost use Rattle.refusals.specs.Refusals.{number_of};
ghost use Rattle.semantics.specs.Forms.{Form};
ghost use Rattle.rules.specs.Judging.{Sourced, Holds, judged_of};
ghost use Rattle.rules.specs.Loading.{Answer, Loaded, OneAnswer};

use crate::rule::Rule;
use bounded::Bounded;
use limits::depths::depth_at;
use limits::intervals::{all_proper, all_small};
use normalizing::normalize::normalize;
use reader::{Source, read};
use refusals::Refusal;
use tables::NormalNode;
use translation::automaton::{Tables, translate};

const MOST_FORMS: usize = 64;

const DEEPEST: usize = 32;

// Whether a form that was read is within the limits that its own table shows.
fn judge(source: &Source) -> Result<(), Refusal>
    requires { Sourced source.now }
    ensures { (f : Form) → Holds source.now f → MatchResult result (λ _. judged_of f ≡ 0) (λ e. number_of e ≡ judged_of f) }
{
    if source.count > MOST_FORMS {
        return Err(Refusal::TooManyForms);
    }
    let nodes = source.nodes.as_slice();
    if depth_at(nodes, source.count - 1) > DEEPEST {
        return Err(Refusal::TooDeep);
    }
    if !all_small(nodes) {
        return Err(Refusal::NumberTooLarge);
    }
    if !all_proper(nodes) {
        return Err(Refusal::EmptyInterval);
    }
    Ok(())
}

impl Rule {
    // The rule that a text is, or the first reason, by number, why it is none.
    pub fn load(text: &[u8]) -> Result<Rule, Refusal>
        ensures { MatchResult result (λ R. Loaded text.now R) (λ e. Answer text.now (number_of e)) }
    {
        let source = read(text)?;
        judge(&source)?;
        let mut normals = Bounded::new(NormalNode::Top);
        normalize(
            source.nodes.as_slice(),
            source.count - 1,
            true,
            &mut normals,
        )?;
        let Tables { cells, locations } = translate(normals.as_slice());
        let Source { nodes, .. } = source;
        Ok(Rule {
            source: nodes,
            normals,
            cells,
            locations,
        })
    }

    // A text has one answer: the number of its refusal, or 0 where it is a rule.
    pub fn one_answer()
        ensures { OneAnswer }
    {}
}
