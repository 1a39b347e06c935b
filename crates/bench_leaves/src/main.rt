//! `bench_leaves WHAT ROUNDS`: does the same work on its standard input again and again, for bench/leaves.py to time.
//!
//! | what | input | a round | printed, the sum over the rounds |
//! |---|---|---|---|
//! | `paths` | a path a line | checks each | how many are module paths |
//! | `versions` | a version a line | sorts them by rank | comparisons |
//! | `gomod` | a go.mod | reads it | its requirements, none where it does not read |
//! | `latest` | a go.mod, a line `===`, a version a line | reads it, chooses among the versions | the latest's index |
//!
//! With 0 rounds it only prepares its input, and prints 0. It fails with `InvalidInput` if a word is missing,
//! WHAT is unknown, ROUNDS is not a number, or the input of `latest` has no line `===`.
#![tactic(auto)]

ghost use Rattle.std.specs.Prelude.{◌≡◌, count_by, is_ok};
ghost use Rattle.modpath.specs.Path.{path_check};

use gomod::GoMod;
use latest::latest_of;
use modpath::check;
use modver::{Version, rank_compare};
use std::alloc::{AllocError, Global};
use std::cell::Cell;
use std::{env, io};

/// Some work, with its input made ready.
#[derive(Drop)]
enum Work<'a> {
    Paths(Vec<&'a str>),
    Versions(Vec<Version>),
    GoMod(&'a str),
    Latest(&'a str, Vec<Version>),
}

impl<'a> Work<'a> {
    /// Returns the work of this name, or `None` if there is no such work or the input of `latest` has no
    /// line `===`. It fails only if memory runs out.
    fn named(alloc: Global, name: &str, text: &'a str) -> Result<Option<Work<'a>>, AllocError> {
        match name {
            "paths" => Ok(Some(Work::Paths(text.lines().collect(alloc)?))),
            "versions" => Ok(Some(Work::Versions(versions(alloc, text)?))),
            "gomod" => Ok(Some(Work::GoMod(text))),
            "latest" => match text.split_once("\n===\n") {
                Some((text, lines)) => Ok(Some(Work::Latest(text, versions(alloc, lines)?))),
                None => Ok(None),
            },
            _ => Ok(None),
        }
    }

    /// Does the work once, and counts what it made.
    fn round(&self, alloc: Global) -> Result<usize, AllocError> {
        match self {
            Work::Paths(paths) => Ok(module_paths(paths.as_slice())),
            Work::Versions(versions) => comparisons(alloc, versions.as_slice()),
            Work::GoMod(text) => Ok(requirements(alloc, text)),
            Work::Latest(text, versions) => latest_index(alloc, text, versions.as_slice()),
        }
    }
}

/// The versions that stand on lines; other lines are left out.
fn versions(alloc: Global, text: &str) -> Result<Vec<Version>, AllocError> {
    let mut versions = Vec::new(alloc);
    for line in text.lines() {
        if let Ok(version) = Version::parse(alloc, line) {
            versions.push(version)?;
        }
    }
    Ok(versions)
}

/// How many texts are module paths.
fn module_paths(texts: &[&str]) -> usize
    ensures { result ≡ count_by (λ text. is_ok (path_check text.now)) texts.now }
{
    texts.iter().filter(|text| check(text).is_ok()).count()
}

/// How many comparisons sort the versions by rank.
fn comparisons(alloc: Global, versions: &[Version]) -> Result<usize, AllocError> {
    let made = Cell::new(0usize);
    let mut sorted: Vec<&Version> = versions.iter().collect(alloc)?;
    sorted.sort_by(|left, right| {
        made.set(made.get().wrapping_add(1));
        rank_compare(left, right)
    })?;
    Ok(made.get())
}

/// How many requirements a go.mod has.
fn requirements(alloc: Global, text: &str) -> usize {
    match GoMod::read(alloc, text.as_bytes()) {
        Ok(module) => module.required().len(),
        Err(_) => 0,
    }
}

/// The index of the latest of some versions by a go.mod, 0 where there is none.
fn latest_index(alloc: Global, text: &str, versions: &[Version]) -> Result<usize, AllocError> {
    match GoMod::read(alloc, text.as_bytes()) {
        Ok(module) => Ok(latest_of(alloc, versions, &module)?.unwrap_or(0)),
        Err(_) => Ok(0),
    }
}

fn main(rt: HostRuntime) -> io::Result<()> {
    let mut words = env::args(&rt)?.skip(1);
    let name = words.next();
    let rounds = words.next().and_then(|word| word.parse::<u32>().ok());
    let (Some(name), Some(rounds)) = (name, rounds) else {
        return Err(io::ErrorKind::InvalidInput.into());
    };
    let text = io::read_to_string(rt.alloc(), rt.reader())?;
    let Some(work) = Work::named(rt.alloc(), name.as_str(), text.as_str())? else {
        return Err(io::ErrorKind::InvalidInput.into());
    };
    let mut total = 0usize;
    for _ in 0..rounds {
        total = total.wrapping_add(work.round(rt.alloc())?);
    }
    println!(rt; "{total}")
}
