//! The top call: from the words of a command and the files of a shelf to what is put on out and err, and the status.
#![tactic(auto)]

mod report;
mod task;
mod top;

pub use command_answer::Status;
pub use top::clocked_run;
