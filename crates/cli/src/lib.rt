//! One whole run of the program: it reads the words of the command line, runs their command, and reports how that
//! ended.
#![tactic(auto)]

mod asked;
pub mod command;
mod parser_text;
pub mod system;
mod version;
