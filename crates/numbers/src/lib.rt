// The numbers that the rules name, each once: refusals, verdicts, causes, the kinds of records, limits. specs/ has them for definitions to cite: the same names in antt's spelling, a refusal with `by` before it, a limit with `most`;
// docs/NUMBERS.md says in plain words what each stands for.
#![tactic(auto)]

pub mod cause; // cause.rt: why a settled job is not sound
pub mod kind; // kind.rt: byte 0 of a record
pub mod limit; // limit.rt: how much there can be of each
pub mod refusal; // refusal.rt: why a call does not run
pub mod verdict; // verdict.rt: how a run ends
