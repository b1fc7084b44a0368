// The numbers of the interface by their names, as include/bim.h and include/bim_table.h have them without BIM_. specs/ has each of them
// under the same name in the definitions' casing; tests/numbers compares the three.
#![tactic(auto)]

pub mod content; // content.rt: what a type's elements contain
pub mod flag; // flag.rt: the flags of a start-up message
pub mod kind; // kind.rt: an event's kind
pub mod limit; // limit.rt: sizes, and how much there may be of each thing
pub mod mode; // mode.rt: length coding
pub mod particle; // particle.rt: what a particle row is
pub mod refusal; // refusal.rt: what a call answers
pub mod simple; // simple.rt: what a simple value is
