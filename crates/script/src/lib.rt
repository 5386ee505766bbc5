// What the programs share that run a script of operations, a line at a time, on a buffer (`book_run`, `league_run`, `room_run`): how
// numbers of a line are read (`naturals`), what is done to the buffer outside the operations (`preparing`), what is told of an operation on
// a table, in one type (`table_answers`), what is written (`telling`), and the sum that stands for a long buffer (`weighing`).
// `compare/README.md` has the format of a script and of what is told.
#![tactic(auto)]

pub mod naturals;
pub mod preparing;
pub mod reader;
pub mod rooms;
pub mod running;
pub mod table_answers;
pub mod telling;
pub mod weighing;
