ghost use Rattle.rules.specs.Meaning.{NormalMeans, AutomatonMeans};

use crate::rule::Rule;
use scales::Scale;

impl Rule {
    // On every scale and every list of events: the normal form has the grade of the rule as it is written, and the
    // automaton that the cells and locations stand for computes it, wherever times never fall.
    pub fn means<S: Scale>(&self)
        ensures normal { NormalMeans S.ops self.now }
        ensures automaton { AutomatonMeans S.ops self.now }
    {}
}
