// The two halls' programs over files: the log, the register file that is its snapshot, and the commands. What they answer is the crate
// `hall`; here are the operations on files, in the order that `recovery` proves to survive a crash.
#![tactic(auto)]

mod arguments;
mod buffer;
mod bytes_at;
mod commands_in;
pub mod counter;
mod folder;
mod log_file;
mod register_file;
mod say;
pub mod standby;
mod start;
mod work;
