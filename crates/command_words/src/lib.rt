//! Which words are which command, and the names and numbers in them. `Command` in `specs/` has each form.
#![tactic(auto)]

mod forms;
mod numbers;
mod word_lists;

pub use forms::{Command, command_in};
pub use word_lists::WordList;
