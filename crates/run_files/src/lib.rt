//! The files that commands read, under their limits: whole or line by line, with the first refusal
//! of what was read and the line that prints it. Beside it are what every command answers, and the
//! judgement of a certificate or a proof.
#![tactic(auto)]

mod by_lines;
mod files;
mod judgements;
pub mod laws;
mod limits;
mod line_judges;
mod outcome;
mod refusals;

pub use by_lines::{next_line, try_file};
pub use files::{read_file, read_routers};
pub use judgements::{Judgement, told};
pub use limits::Limits;
pub use line_judges::{LineJudge, judge_lines};
pub use outcome::{Done, FileRefusal, Reason, Stop};
pub use refusals::{line_of, refused};
