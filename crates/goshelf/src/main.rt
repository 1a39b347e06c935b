//! `goshelf`: a private Go module proxy with team shelves.
//!
//! One run of the program is the call [`command::command`] of `cli`; `main` hands it the files of stores, the servers,
//! the entrances and the files to read of the system, with which nothing was done yet, the words and the streams.
#![tactic(auto)]

use cli::command::{command, words_refused};
use cli::system::SystemStores;
use histories::{Hearing, Telling};
use std::env;
use std::process::ExitCode;

fn main(rt: HostRuntime) -> ExitCode {
    let mut errors = Telling::new(rt.stderr());
    let mut words = match env::args(&rt) {
        Ok(words) => words,
        Err(error) => return ExitCode::from(words_refused(error, &mut errors)),
    };
    let _name = words.next();
    let words = match words.collect::<Vec<String>>(rt.alloc()) {
        Ok(words) => words,
        Err(error) => return ExitCode::from(words_refused(error.into(), &mut errors)),
    };
    let mut input = Hearing::new(rt.reader());
    let mut output = Telling::new(rt.stdout());
    ExitCode::from(command(
        &mut SystemStores::new(&rt),
        words.as_slice(),
        &mut input,
        &mut output,
        &mut errors,
    ))
}
