//! What an operator watches, and the lines that tell it.
ghost use Rattle.std.specs.Prelude.{◌≡◌, ◌++◌, IfOk, OnOk, string_bytes, option_copied};
ghost use Rattle.control.specs.Health as spec;
ghost use Rattle.control.specs.Health.{line_of};

use crate::tally::Tally;
use crate::traffic::Traffic;
use interleave::between::CopyProgress;
use modver::TimeText;
use std::alloc::{AllocError, Global};
use text::Text;

/// What an operator watches.
#[derive(Clone, Copy, Drop)]
pub struct Health<'a> {
    pub tally: Tally,
    /// How often a device of the store has failed since the store was opened.
    pub store_failures: u64,
    /// How many versions the store keeps.
    pub versions: u64,
    pub figures: Metrics<'a>,
}

/// What is known of a served store beside its versions.
#[derive(Clone, Copy, Drop)]
pub struct Metrics<'a> {
    /// The bytes of its file, if the system tells them.
    pub bytes: Option<u64>,
    /// The bytes of the log beside the file, if the system tells them.
    pub log: Option<u64>,
    /// When the last copy of it was made, if one was and the clock could be read then.
    pub copied: Option<TimeText>,
    /// How far the copy of it is that is being made, if one is.
    pub copying: Option<CopyProgress>,
    /// The counts of its shelves, if they are kept.
    pub traffic: Option<&'a Traffic>,
}

impl<'a> Health<'a> {
    /// The line that tells it, and the lines of the shelves, with their ends. It fails only if memory runs out.
    pub fn line(&self, alloc: Global) -> Result<Text, AllocError>
        ensures { IfOk result (λ line. line ≡ line_of self.now) }
    {
        let mut line = self.begin(alloc)?;
        self.figures.add_words(alloc, &mut line)?;
        self.figures.add_shelves(alloc, &mut line)?;
        Ok(Text::new(line))
    }

    /// The words of the line up to the versions. It fails only if memory runs out.
    fn begin(&self, alloc: Global) -> Result<String, AllocError>
        ensures { IfOk result (λ line.
            string_bytes line ≡ spec.begin_behind (spec.counts_text self.now.tally) self.now) }
    {
        let counts = self.tally.counts(alloc)?;
        let line = format!(in alloc;
            "{} store-failures={} since={} versions={}",
            counts.as_str(),
            self.store_failures,
            self.tally.since.as_str(),
            self.versions,
        )?;
        Ok(line)
    }
}

impl<'a> Metrics<'a> {
    /// Adds the words that tell what is known of the file and of copies. Fails only if memory runs out.
    fn add_words(&self, alloc: Global, line: &mut String) -> Result<(), AllocError>
        ensures { OnOk result (string_bytes line.new ≡ string_bytes line.old ++ spec.words_of self.now) }
    {
        add_number(alloc, line, " bytes=", self.bytes)?;
        add_number(alloc, line, " log=", self.log)?;
        add_time(line, " copied=", self.copied)?;
        add_how_far(alloc, line, " copying=", self.copying)
    }

    /// Adds the word that tells how many shelves have counts, the end of the line, and their lines. Fails only if
    /// memory runs out.
    fn add_shelves(&self, alloc: Global, line: &mut String) -> Result<(), AllocError>
        ensures { OnOk result (string_bytes line.new ≡ string_bytes line.old ++ spec.shelves_text self.now) }
    {
        let word = format!(in alloc; " shelves={}\n", self.shelves())?;
        line.push_str(word.as_str())?;
        self.add_lines(alloc, line)
    }

    /// How many shelves have counts.
    fn shelves(&self) -> usize
        ensures { result ≡ spec.shelves_in (option_copied self.now.traffic) }
    {
        match self.traffic {
            Some(traffic) => traffic.len(),
            None => 0,
        }
    }

    /// Adds the lines of the shelves that have counts. Fails only if memory runs out.
    fn add_lines(&self, alloc: Global, line: &mut String) -> Result<(), AllocError>
        ensures { OnOk result (string_bytes line.new
            ≡ string_bytes line.old ++ spec.lines_in (option_copied self.now.traffic)) }
    {
        match self.traffic {
            Some(traffic) => traffic.add_lines(alloc, line),
            None => Ok(()),
        }
    }
}

/// Adds a word that tells a time under a name, if there is one. Fails only if memory runs out.
fn add_time(line: &mut String, name: &str, time: Option<TimeText>) -> Result<(), AllocError>
    ensures { OnOk result (string_bytes line.new ≡ string_bytes line.old ++ spec.time_word name.now time) }
{
    let Some(time) = time else {
        return Ok(());
    };
    line.push_str(name)?;
    line.push_str(time.as_str())
}

/// Adds a word that tells under a name how far a copy is, if one is being made. Fails only if memory runs out.
fn add_how_far(
    alloc: Global,
    line: &mut String,
    name: &str,
    how_far: Option<CopyProgress>,
) -> Result<(), AllocError>
    ensures { OnOk result (string_bytes line.new ≡ string_bytes line.old ++ spec.how_far_word name.now how_far) }
{
    let Some(how_far) = how_far else {
        return Ok(());
    };
    let word = format!(in alloc; "{}{}/{}", name, how_far.done, how_far.all)?;
    line.push_str(word.as_str())
}

/// Adds a word that tells a number under a name, if there is one. Fails only if memory runs out.
fn add_number(
    alloc: Global,
    line: &mut String,
    name: &str,
    number: Option<u64>,
) -> Result<(), AllocError>
    ensures { OnOk result (string_bytes line.new ≡ string_bytes line.old ++ spec.number_word name.now number) }
{
    let Some(number) = number else {
        return Ok(());
    };
    let word = format!(in alloc; "{}{}", name, number)?;
    line.push_str(word.as_str())
}
