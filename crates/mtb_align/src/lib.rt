// The core of mtb-align, file by file. A module stands for the original's file of its name, but for these: levels and walk have what
// align.rs ends with and goes through, checks the refusals of its calls, pairs what packs two frames and packed what counts them; sides,
// frame, pair, stack and placed are what is in hand; ones, words and rectangles count the words that difference.rs counts one by one; numbers has what the Rust's
// library has and std's contract does not say; the report is added, with rivals, survey, question and entry under it.
#![tactic(auto)]

pub mod align;
pub mod bitmap;
pub mod checks;
pub mod difference;
mod entry;
pub mod error;
mod frame;
pub mod geometry;
pub mod gray;
pub mod levels;
mod numbers;
mod ones;
mod packed;
mod pair;
mod pairs;
mod placed;
mod question;
mod rectangles;
pub mod report;
mod rivals;
pub mod shrink;
mod sides;
mod stack;
pub mod strips;
mod survey;
pub mod threshold;
mod walk;
mod words;
