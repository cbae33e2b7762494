ghost use Rattle.std.specs.Prelude.{ℕ, List, MatchOption};
ghost use Rattle.semantics.specs.Forms as meaning;
ghost use Rattle.grammar.specs.Grammar.{UpperAt, Inside, BoundsAt};
ghost use Rattle.grammar.specs.Runs.{UpperRead, ClosedRead, BoundsRead};

use crate::symbol::{number, symbol};
use tables::Interval;

// The interval of absent bounds.
pub const WHOLE: Interval = Interval {
    lower: 0,
    upper: None,
};

// The upper end at the front: a number, or `*` for none.
fn upper(text: &[u8]) -> Option<(Option<u32>, &[u8])>
    ensures { MatchOption result (((n : meaning.Upper) (u : List ℕ) → UpperAt text.now n u → ⊥)) (λ p. UpperRead text.now p.0 p.1.now) }
{
    if let Some(rest) = symbol(text, b'*') {
        return Some((None, rest));
    }
    let (value, rest) = number(text)?;
    Some((Some(value), rest))
}

// The bounds behind a `[`.
fn closed(text: &[u8]) -> Option<(Interval, &[u8])>
    ensures { MatchOption result (((I : meaning.Interval) (u : List ℕ) → Inside text.now I u → ⊥)) (λ p. ClosedRead text.now p.0 p.1.now) }
{
    let (lower, rest) = number(text)?;
    let rest = symbol(rest, b',')?;
    let (upper, rest) = upper(rest)?;
    let rest = symbol(rest, b']')?;
    Some((Interval { lower, upper }, rest))
}

// The bounds at the front, which may be absent.
pub fn bounds_at(text: &[u8]) -> Option<(Interval, &[u8])>
    ensures { MatchOption result (((I : meaning.Interval) (u : List ℕ) → BoundsAt text.now I u → ⊥)) (λ p. BoundsRead text.now p.0 p.1.now) }
{
    match symbol(text, b'[') {
        Some(rest) => closed(rest),
        None => Some((WHOLE, text)),
    }
}
