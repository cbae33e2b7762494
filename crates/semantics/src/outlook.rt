ghost use Rattle.semantics.specs.Continuations.{TimelyContinuation, LawfulContinuation};
ghost use Rattle.semantics.specs.Theorems.{Between, Settled};

use scales::Scale;

// However the log goes on, the rule's grade lies between floor and ceiling.
pub fn between<S: Scale>()
    ensures timely { Between S.ops TimelyContinuation }
    ensures lawful { Between S.ops LawfulContinuation }
{}

// Where floor and ceiling are one grade, that is the rule's grade however the log goes on.
pub fn settled<S: Scale>()
    ensures timely { Settled S.ops TimelyContinuation }
    ensures lawful { Settled S.ops LawfulContinuation }
{}
