ghost use Rattle.std.specs.Prelude.{◌≡◌, ℕ, List, MatchOption, ◌≢◌};
ghost use Rattle.semantics.specs.Forms as meaning;
ghost use Rattle.grammar.specs.Grammar.{timing_sign, joining_sign, JoiningAt, Unambiguous};
ghost use Rattle.grammar.specs.Runs.{JoiningRead};

use crate::bounds::{WHOLE, bounds_at};
use crate::symbol::first;
use tables::Interval;

// What stands before one form and takes bounds: `X`, `Y`, `F`, `G`.
#[derive(Clone, Copy)]
pub enum Timing {
    Next,
    DualNext,
    Eventually,
    Always,
}

// What stands between two forms: `&`, `|`, `>`, `U`, `R`.
#[derive(Clone, Copy)]
pub enum Joining {
    Both,
    Either,
    Implies,
    Until,
    Release,
}

// `of` answers an `Option`: of a `TryFrom` nobody would read the error, since what is no operator may be another form.
impl Timing {
    pub fn of(sign: char) -> Option<Timing>
        ensures { MatchOption result ((o : Timing) → timing_sign o ≢ sign) (λ o. timing_sign o ≡ sign) }
    {
        match sign {
            'X' => Some(Timing::Next),
            'Y' => Some(Timing::DualNext),
            'F' => Some(Timing::Eventually),
            'G' => Some(Timing::Always),
            _ => None,
        }
    }
}

impl Joining {
    pub fn of(sign: char) -> Option<Joining>
        ensures { MatchOption result ((o : Joining) → joining_sign o ≢ sign) (λ o. joining_sign o ≡ sign) }
    {
        match sign {
            '&' => Some(Joining::Both),
            '|' => Some(Joining::Either),
            '>' => Some(Joining::Implies),
            'U' => Some(Joining::Until),
            'R' => Some(Joining::Release),
            _ => None,
        }
    }
}

// The operator between two forms, with its bounds; only `U` and `R` take bounds.
pub fn joining_at(text: &[u8]) -> Option<(Joining, Interval, &[u8])>
    ensures { MatchOption result ((o : Joining) (I : meaning.Interval) (u : List ℕ) → JoiningAt text.now o I u → ⊥) (λ p. JoiningRead text.now p.0 p.1 p.2.now) }
{
    let (sign, rest) = first(text)?;
    let how = Joining::of(sign as char)?;
    match how {
        Joining::Until | Joining::Release => {
            let (bounds, rest) = bounds_at(rest)?;
            Some((how, bounds, rest))
        }
        _ => Some((how, WHOLE, rest)),
    }
}

// A rule's text has one meaning.
pub fn one_meaning()
    ensures { Unambiguous }
{}
