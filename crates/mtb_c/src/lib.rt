// The calls of the port and those on files and mosaics for C and Rust callers: numbers pass as themselves, a slice as a pointer and a length. A
// call answers with a status, 0 for accepted and else the number of its refusal in documents 01 and 02; a row and a level, which are never
// refused, answer with a length. Outputs go into lent slots: no call reads one, and a refusal leaves it as it was, so that the record
// count is written by an accepted report alone. The values of a refusal of the counts, the step, the stack or the report go to the front
// of a list of five.
#![tactic(auto)]

pub mod counts;
pub mod files;
pub mod frames;
pub mod levels;
pub mod mosaics;
pub mod moves;
mod refusals;
pub mod report;
pub mod search;
