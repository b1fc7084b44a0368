// What the calls for C give back (specs/Calls), and what they have in common, of which nothing knows the reader or the writer: the area, the room
// that is lent, a table's bytes judged and a mark set in them.
#![tactic(auto)]

pub mod area; // area.rt: an answer told
pub mod asked; // asked.rt: who reads or writes what
pub mod rooms; // rooms.rt: how much room is lent
pub mod sets; // sets.rt: a party's mark
pub mod tables; // tables.rt: a table's bytes as words
