//! A line on a terminal that says how far a command is.
//!
//! It is drawn on standard error, and only if that is a terminal. A write that fails is not repeated, and changes
//! nothing else.

use histories::ClockFace;
use std::alloc::{AllocError, Global};
use std::cell::Cell;
use std::fmt::{self, Write as _};
use std::io::{IsTerminal, Write};
use std::rt::{HostRuntime, Stderr};
use std::time::{Duration, Instant};

/// The bytes of a MiB.
const MIB: u64 = 1 << 20;

/// How far a command is.
#[derive(Clone, Copy, Debug, Drop, PartialEq, Eq)]
pub struct Progress {
    /// How many of `all` are done.
    pub done: u64,
    /// How many there are, or 0 if that is not known.
    pub all: u64,
    /// How many bytes were moved for them.
    pub bytes: u64,
}

impl Progress {
    /// Returns how many percent are done, at most 100, or None if it is not known how many there are.
    pub fn percent(&self) -> Option<u64> {
        scaled(100, self.done.min(self.all), self.all)
    }

    /// Returns how many bytes were moved in a second. None if no time has passed.
    pub fn rate(&self, passed: Duration) -> Option<u64> {
        scaled(self.bytes, 1_000, millis_of(passed))
    }

    /// Returns how many seconds the rest takes at the rate so far, rounded up. None if nothing is done yet, or it is
    /// not known how many there are.
    pub fn left(&self, passed: Duration) -> Option<u64> {
        if self.all == 0 {
            return None;
        }
        let millis = scaled(
            millis_of(passed),
            self.all.saturating_sub(self.done),
            self.done,
        )?;
        Some(millis.div_ceil(1_000))
    }
}

/// Returns `whole` times `part` by `all`, rounded down and at most `u64::MAX`. None if `all` is 0.
pub fn scaled(whole: u64, part: u64, all: u64) -> Option<u64> {
    if all == 0 {
        return None;
    }
    let quotient = (whole as u128).saturating_mul(part as u128) / (all as u128);
    match u64::try_from(quotient) {
        Ok(quotient) => Some(quotient),
        Err(_) => Some(u64::MAX),
    }
}

/// Returns the milliseconds of a time, at most `u64::MAX`.
fn millis_of(time: Duration) -> u64 {
    match u64::try_from(time.as_millis()) {
        Ok(millis) => millis,
        Err(_) => u64::MAX,
    }
}

/// Returns the text of a line, such as `copy: 42 %, 118 MiB/s, 3 s left`. It leaves out what is not known. It fails
/// only if memory runs out.
pub fn text_of(
    alloc: Global,
    verb: &str,
    progress: &Progress,
    passed: Duration,
) -> Result<String, AllocError> {
    let mut text = format!(in alloc; "{verb}:")?;
    if let Some(percent) = progress.percent() {
        let word = format!(in alloc; " {percent} %,")?;
        text.push_str(word.as_str())?;
    }
    let word = rate_text(alloc, progress.rate(passed).unwrap_or(0))?;
    text.push_str(word.as_str())?;
    if let Some(left) = progress.left(passed) {
        let word = left_text(alloc, left)?;
        text.push_str(word.as_str())?;
    }
    Ok(text)
}

/// Returns ` N MiB/s` for bytes a second, with a digit behind the point below 10. It fails only if memory runs out.
pub fn rate_text(alloc: Global, rate: u64) -> Result<String, AllocError> {
    let whole = rate / MIB;
    if whole >= 10 {
        return format!(in alloc; " {whole} MiB/s");
    }
    let tenth = (rate % MIB) * 10 / MIB;
    format!(in alloc; " {whole}.{tenth} MiB/s")
}

/// Returns `, T left` for seconds, with two units at most. It fails only if memory runs out.
pub fn left_text(alloc: Global, seconds: u64) -> Result<String, AllocError> {
    let minutes = seconds / 60;
    let hours = minutes / 60;
    if hours > 0 {
        return format!(in alloc; ", {hours} h {} min left", minutes % 60);
    }
    if minutes > 0 {
        return format!(in alloc; ", {minutes} min {} s left", seconds % 60);
    }
    format!(in alloc; ", {seconds} s left")
}

/// A line on a terminal. The first is drawn a second after the command began, and each other at least a second after
/// the one before. The cursor is behind it at the beginning of the next line, where it is also if the command is
/// interrupted.
#[derive(Drop)]
pub struct ProgressLine<'a, C, W> {
    alloc: Global,
    verb: &'a str,
    clock: &'a C,
    /// None if there is no terminal.
    terminal: Option<W>,
    /// When the command began, or None if the clock can't be read.
    begun: Option<Instant>,
    /// When the last line was drawn, or else the command began.
    drawn: Cell<Option<Instant>>,
    /// How many columns the line has that is on the terminal, or 0 if there is none.
    width: Cell<usize>,
}

/// A line on standard error.
pub type StderrLine<'a> = ProgressLine<'a, HostRuntime, Stderr>;

impl<'a> ProgressLine<'a, HostRuntime, Stderr> {
    /// Returns the line of a command that begins now. It is never drawn if standard error is no terminal.
    pub fn on_stderr(rt: &'a HostRuntime, verb: &'a str) -> StderrLine<'a> {
        let stderr = rt.stderr();
        let terminal = if stderr.is_terminal() {
            Some(stderr)
        } else {
            None
        };
        ProgressLine::new(rt.alloc(), verb, rt, terminal)
    }
}

impl<'a, C: ClockFace, W: Write + Copy> ProgressLine<'a, C, W> {
    /// Returns the line of a command that begins now. It is never drawn if there is no terminal.
    pub fn new(
        alloc: Global,
        verb: &'a str,
        clock: &'a C,
        terminal: Option<W>,
    ) -> ProgressLine<'a, C, W> {
        let begun = match terminal {
            Some(_) => clock.now().ok(),
            None => None,
        };
        ProgressLine {
            alloc,
            verb,
            clock,
            terminal,
            begun,
            drawn: Cell::new(begun),
            width: Cell::new(0),
        }
    }

    /// Whether there is a terminal.
    pub fn is_shown(&self) -> bool {
        self.terminal.is_some()
    }

    /// Whether there is a terminal, and a second has passed since the last line.
    pub fn is_due(&self) -> bool {
        let Some(drawn) = self.drawn.get() else {
            return false;
        };
        match self.clock.now() {
            Ok(now) => now.duration_since(drawn) >= Duration::from_secs(1),
            Err(_) => false,
        }
    }

    /// Draws the line in place of the last one.
    pub fn draw(&self, progress: &Progress) {
        let (Some(begun), Ok(now)) = (self.begun, self.clock.now()) else {
            return;
        };
        self.drawn.set(Some(now));
        let passed = now.duration_since(begun);
        if let Ok(text) = text_of(self.alloc, self.verb, progress, passed) {
            self.put(text.as_str());
        }
    }

    /// Draws the line if a second has passed since the last one.
    pub fn draw_if_due(&self, progress: &Progress) {
        if self.is_due() {
            self.draw(progress);
        }
    }

    /// Writes a text in place of the last line, and ends it.
    pub fn put(&self, text: &str) {
        let width = self.width.get();
        let written = if width == 0 {
            format!(in self.alloc; "\r{text}\n")
        } else {
            format!(in self.alloc; "\r\x1b[A{text:<width$}\n")
        };
        if let Ok(written) = written {
            self.write(written.as_str());
            self.width.set(text.len());
        }
    }

    /// Erases the line, and leaves the cursor where it began.
    pub fn clear(&self) {
        let width = self.width.get();
        if width == 0 {
            return;
        }
        if let Ok(written) = format!(in self.alloc; "\r\x1b[A{:width$}\r", "") {
            self.write(written.as_str());
        }
        self.width.set(0);
    }

    /// Writes to the terminal. Errors are ignored.
    fn write(&self, bytes: &str) {
        if let Some(terminal) = self.terminal {
            let mut terminal = terminal;
            let _ = terminal.write_all(bytes.as_bytes());
            let _ = terminal.flush();
        }
    }
}
