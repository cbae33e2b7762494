ghost use Rattle.std.specs.Prelude.{◌≡◌, ℕ, ◌+◌, ◌*◌, ◌≤◌, min, List, [], MatchOption};
ghost use Rattle.grammar.specs.Grammar.{skip, Symbol, Number};
ghost use Rattle.grammar.specs.Runs.{Run, NumberRead};

// One above the largest number that a rule may hold: larger ones are held at it, so that none overflows.
const TOO_LARGE: u64 = 1_000_000_001;

// The text from its first byte that is no space.
fn skipped(text: &[u8]) -> &[u8]
    ensures { result.now ≡ skip text.now }
{
    let mut rest = text;
    while let [b' ', after @ ..] = rest {
        rest = after;
    }
    rest
}

// The first symbol's byte, and what follows it.
pub fn first(text: &[u8]) -> Option<(u8, &[u8])>
    ensures { MatchOption result (skip text.now ≡ []) (λ p. Symbol p.0 text.now p.1.now) }
{
    match skipped(text) {
        [c, rest @ ..] => Some((*c, rest)),
        [] => None,
    }
}

// What follows the symbol `sign`, where that comes first.
pub fn symbol(text: &[u8], sign: u8) -> Option<&[u8]>
    ensures { MatchOption result (((u : List ℕ) → Symbol sign text.now u → ⊥)) (λ rest. Symbol sign text.now rest.now) }
{
    let (c, rest) = first(text)?;
    (c == sign).then_some(rest)
}

// One digit more.
fn more(value: u32, digit: u8) -> u32
    requires held { value ≤ 1000000001 }
    requires digit { digit ≤ 9 }
    ensures { result ≡ min (10 * value + digit) 1000000001 }
{
    (value as u64 * 10 + digit as u64).min(TOO_LARGE) as u32
}

// The digits at the front, as a number, and what is behind them.
fn digits(text: &[u8]) -> (u32, &[u8])
    ensures { Run text.now result.0 result.1.now }
{
    let mut value = 0;
    let mut rest = text;
    while let [c @ b'0'..=b'9', after @ ..] = rest {
        value = more(value, *c - b'0');
        rest = after;
    }
    (value, rest)
}

// The number at the front.
pub fn number(text: &[u8]) -> Option<(u32, &[u8])>
    ensures { MatchOption result (((n : ℕ) (u : List ℕ) → Number text.now n u → ⊥)) (λ p. NumberRead text.now p.0 p.1.now) }
{
    let start = skipped(text);
    let (value, rest) = digits(start);
    match start {
        [b'0', b'0'..=b'9', ..] => None,
        [b'0'..=b'9', ..] => Some((value, rest)),
        _ => None,
    }
}
