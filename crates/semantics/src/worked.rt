ghost use Rattle.semantics.specs.Worked.{WorkedCases};

// The worked cases hold of the defined grades and of the automaton's values alike.
pub fn worked_cases()
    ensures { WorkedCases }
{}
