//! The top call: from the words of the command line, a store and a sink to an exit status. Its
//! contract is the product's: what each status says of the files that were read, what was printed
//! and written, and whose fault it is if there is no answer. `run` and `run_surely` are for callers
//! of the library: `arcv` calls `run_telling`, whose answer has the outcome as well as the status.
#![tactic(auto)]

mod ending;
mod outcome;
mod surely;
mod top;
mod usage;
mod writing;

pub use command_words::{
    ApplyWords, Command, NodesWords, PrefersWords, RecheckWords, RepairWords, SolveWords,
    TraceWords,
};
pub use outcome::{Ended, Outcome, Status};
pub use run_files::{Done, FileRefusal, Reason, Stop};
pub use surely::run_surely;
pub use top::{run, run_telling};
