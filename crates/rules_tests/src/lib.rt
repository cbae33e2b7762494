// Rules by example: what loads, with its counts, and what is turned down, with its number.
#![tactic(auto)]

ghost use Rattle.std.specs.Prelude.{MatchResult};
ghost use Rattle.refusals.specs.Refusals.{number_of};
ghost use Rattle.rules.specs.Loading.{Answer};

use refusals::Refusal;
use rules::Rule;

// Whether a text is a rule, or why it is none.
pub fn judged(text: &[u8]) -> Result<(), Refusal>
    ensures { MatchResult result (λ _. Answer text.now 0) (λ e. Answer text.now (number_of e)) }
{
    let _ = Rule::load(text)?;
    Ok(())
}

// The number of a text's refusal, and 0 for a rule: the tests compare the numbers that the pages name.
pub fn answer(text: &[u8]) -> u8
    ensures { Answer text.now result }
{
    match judged(text) {
        Ok(()) => 0,
        Err(refusal) => refusal.number(),
    }
}

#[cfg(test)]
mod tests {
    use super::answer;
    use rules::Rule;
    use std::test::Fail;

    #[test]
    fn lengths(rt: HostRuntime) {
        assert_eq!(rt; answer(b""), 1);
        assert_eq!(rt; answer(&[b'a'; 1025]), 1);
        let mut text = [b' '; 1024];
        text[1023] = b'a';
        assert_eq!(rt; answer(&text), 0);
    }

    #[test]
    fn no_forms(rt: HostRuntime) {
        assert_eq!(rt; answer(b"1 2"), 2);
        assert_eq!(rt; answer(b"F[01,2]a"), 2);
        assert_eq!(rt; answer(b"F[1 2,3]a"), 2);
        assert_eq!(rt; answer(b"(a&b"), 2);
        assert_eq!(rt; answer(b"a b"), 2);
        assert_eq!(rt; answer(b"\ta"), 2);
        assert_eq!(rt; answer(&[b'a', 200]), 2);
    }

    #[test]
    fn spaces(rt: HostRuntime) {
        assert_eq!(rt; answer(b" ( a U [ 0 , * ] !b ) "), 0);
        assert_eq!(rt; answer(b"q"), 2);
        assert_eq!(rt; answer(b"p"), 0);
    }

    #[test]
    fn examples(rt: HostRuntime) {
        assert_eq!(rt; answer(b"G ( a > F [ 0 , 30 ] b )"), 0);
        assert_eq!(rt; answer(b"G(a>(!cU[0,5000]b))"), 0);
        assert_eq!(rt; answer(b"F[60000,*]1"), 0);
        assert_eq!(rt; answer(b"G(a>Y!a)"), 0);
        assert_eq!(rt; answer(b"G(d>G[1,1000]!d)"), 0);
    }

    #[test]
    fn many(rt: HostRuntime) {
        let mut text = [b'!'; 1024];
        text[1023] = b'a';
        assert_eq!(rt; answer(&text), 3);
    }

    #[test]
    fn deep(rt: HostRuntime) {
        let mut text = [b'!'; 33];
        text[32] = b'a';
        assert_eq!(rt; answer(&text), 4);
        assert_eq!(rt; answer(&text[1..33]), 0);
    }

    #[test]
    fn numbers(rt: HostRuntime) {
        let mut text = [b'9'; 1006];
        text[0] = b'F';
        text[1] = b'[';
        text[2] = b'0';
        text[3] = b',';
        text[1004] = b']';
        text[1005] = b'a';
        assert_eq!(rt; answer(&text), 5);
        assert_eq!(rt; answer(b"F[0,1000000001]a"), 5);
        assert_eq!(rt; answer(b"F[0,1000000000]a"), 0);
    }

    #[test]
    fn intervals(rt: HostRuntime) {
        assert_eq!(rt; answer(b"F[5,5]a"), 6);
        assert_eq!(rt; answer(b"F[5,4]a"), 6);
        assert_eq!(rt; answer(b"F[0,0]a"), 0);
        assert_eq!(rt; answer(b"F[5,*]a"), 0);
    }

    #[test]
    fn normal_forms(rt: HostRuntime) -> Result<(), Fail> {
        let sixteen =
            b"((((Fa&Fa)&(Fa&Fa))&((Fa&Fa)&(Fa&Fa)))&(((Fa&Fa)&(Fa&Fa))&((Fa&Fa)&(Fa&Fa))))";
        let seventeen =
            b"(((((Fa&Fa)&(Fa&Fa))&((Fa&Fa)&(Fa&Fa)))&(((Fa&Fa)&(Fa&Fa))&((Fa&Fa)&(Fa&Fa))))&Fa)";
        assert_eq!(rt; answer(seventeen), 7);
        let rule = Rule::load(sixteen).map_err(|_| Fail::new("sixteen are turned down"))?;
        assert_eq!(rt; rule.forms(), 47);
        assert_eq!(rt; rule.normal_forms(), 63);
        assert_eq!(rt; rule.location_count(), 17);
        assert_eq!(rt; rule.cell_count(), 192);
        Ok(())
    }

    #[test]
    fn counts(rt: HostRuntime) -> Result<(), Fail> {
        let rule = Rule::load(b"G(a>F[0,30]b)").map_err(|_| Fail::new("turned down"))?;
        assert_eq!(rt; rule.forms(), 5);
        assert_eq!(rt; rule.normal_forms(), 7);
        assert_eq!(rt; rule.location_count(), 3);
        assert_eq!(rt; rule.cell_count(), 24);
        assert_eq!(rt; rule.grades_needed(512), 1584);
        Ok(())
    }
}
