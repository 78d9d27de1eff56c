// The commands of the program, each a function over the runtime.
#![tactic(auto)]

pub mod check_command;
pub mod copy_command;
pub mod dispatch;
pub mod hex;
pub mod sets_command;

pub use dispatch::run;
