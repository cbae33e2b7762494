ghost use Rattle.std.specs.Prelude.{◌≡◌, ℕ, ◌+◌, ◌^◌, ◌<◌, List, length, MatchOption, MatchResult};
ghost use Rattle.refusals.specs.Refusals.{number_of};
ghost use Rattle.semantics.specs.Forms as meaning;
ghost use Rattle.grammar.specs.Grammar.{Plain, FormAt, PairAt};
ghost use Rattle.reader.specs.Tables.{timed_node, joined_node, Leaf, FormRead, PairRead};
ghost use Rattle.reader.specs.Reading.{Read, Unread};

use crate::source::Source;
use grammar::bounds::bounds_at;
use grammar::operator::{Joining, Timing, joining_at};
use grammar::symbol::{first, symbol};
use refusals::Refusal;
use tables::{Interval, Node};

const LONGEST: usize = 1024;

// The node of a form of one symbol; if it is none, the text is no form, and nobody would read an error.
fn plain(sign: char) -> Option<Node>
    ensures { MatchOption result ((f : meaning.Form) → Plain sign f → ⊥) (λ n. Leaf sign n) }
{
    match sign {
        '1' => Some(Node::Top),
        '0' => Some(Node::Bottom),
        'a'..='p' => Some(Node::Fact {
            fact: (sign as u32 - 97) as u8,
        }),
        _ => None,
    }
}

fn timed(how: Timing, interval: Interval, inner: usize) -> Node
    ensures { result ≡ timed_node how interval inner }
{
    match how {
        Timing::Next => Node::Next { interval, inner },
        Timing::DualNext => Node::DualNext { interval, inner },
        Timing::Eventually => Node::Eventually { interval, inner },
        Timing::Always => Node::Always { interval, inner },
    }
}

fn joined(how: Joining, interval: Interval, left: usize, right: usize) -> Node
    ensures { result ≡ joined_node how interval left right }
{
    match how {
        Joining::Both => Node::Both { left, right },
        Joining::Either => Node::Either { left, right },
        Joining::Implies => Node::Implies { left, right },
        Joining::Until => Node::Until {
            interval,
            left,
            right,
        },
        Joining::Release => Node::Release {
            interval,
            left,
            right,
        },
    }
}

// Reads the form at the front of `text` into the table, and returns what is left.
#[cycle(form_pair)]
fn form<'a>(text: &'a [u8], source: &mut Source) -> Option<&'a [u8]>
    requires { source.old.count + length text.now < 2 ^ 64 }
    ensures { MatchOption result ((f : meaning.Form) (u : List ℕ) → FormAt text.now f u → ⊥) (λ rest. FormRead text.now source.old rest.now source.new) }
{
    let (sign, rest) = first(text)?;
    match sign as char {
        '(' => pair(rest, source),
        '!' => {
            let rest = form(rest, source)?;
            source.add(Node::Opposite {
                inner: source.count - 1,
            });
            Some(rest)
        }
        c => match Timing::of(c) {
            Some(how) => {
                let (bounds, rest) = bounds_at(rest)?;
                let rest = form(rest, source)?;
                source.add(timed(how, bounds, source.count - 1));
                Some(rest)
            }
            None => {
                source.add(plain(c)?);
                Some(rest)
            }
        },
    }
}

// Reads two forms and what joins them, behind their `(`.
#[cycle(form_pair)]
fn pair<'a>(text: &'a [u8], source: &mut Source) -> Option<&'a [u8]>
    requires { source.old.count + length text.now < 2 ^ 64 }
    ensures { MatchOption result ((f : meaning.Form) (u : List ℕ) → PairAt text.now f u → ⊥) (λ rest. PairRead text.now source.old rest.now source.new) }
{
    let rest = form(text, source)?;
    let left = source.count - 1;
    let (how, bounds, rest) = joining_at(rest)?;
    let rest = form(rest, source)?;
    let right = source.count - 1;
    let rest = symbol(rest, b')')?;
    source.add(joined(how, bounds, left, right));
    Some(rest)
}

// Reads a whole text. Its length comes first, so that the calls never nest deeper than that.
pub fn read(text: &[u8]) -> Result<Source, Refusal>
    ensures { MatchResult result (λ S. Read text.now S) (λ e. Unread text.now (number_of e)) }
{
    if text.len() == 0 || text.len() > LONGEST {
        return Err(Refusal::RuleLength);
    }
    let mut source = Source::new();
    let Some(rest) = form(text, &mut source) else {
        return Err(Refusal::NotAForm);
    };
    match first(rest) {
        None => Ok(source),
        Some(_) => Err(Refusal::NotAForm),
    }
}
