ghost use Rattle.semantics.specs.Theorems.{LawfulTimely, NormalSame, NormalOpposed, Agreement, AgreementWithin};

use scales::Scale;

// Every lawful log is among the lists that the theorems are about.
pub fn lawful_is_timely()
    ensures { LawfulTimely }
{}

// The normal form has the grade of its form, and that of the opposed form the opposite grade.
pub fn normal_form<S: Scale>()
    ensures same { NormalSame S.ops }
    ensures opposed { NormalOpposed S.ops }
{}

// The automaton means what the rule says: location 0 has the rule's grade, and the location of each until and release that form's.
pub fn agreement<S: Scale>()
    ensures rule { Agreement S.ops }
    ensures within { AgreementWithin S.ops }
{}
