//! Whether bytes are the lines of a health.
ghost use Rattle.std.specs.Prelude.{◌≡◌, ◌↔◌, ◌≤◌, [], IsTrue, MatchOption, None, Some, length, option_copied, take};
ghost use Rattle.std.specs.Prelude.{true};
ghost use Rattle.std.specs.Char.{is_ascii_digit};
ghost use Rattle.std.specs.List.{list_all};
ghost use Rattle.modpath.specs.Path.{number_of};
ghost use Rattle.control.specs.Health.{IsHealthLine};
ghost use Rattle.control.specs.HealthText as spec;
ghost use Rattle.control.specs.Traffic.{is_shelf_name};

use crate::traffic::is_shelf_name;
use modver::read_time;
use std::str;

/// The bytes of a time.
const TIME_LEN: usize = 20;

/// Whether the bytes are the lines of a health. Takes no memory.
pub(crate) fn is_health(got: &[u8]) -> bool
    ensures { IsTrue result ↔ IsHealthLine got.now }
{
    let left = beginning(Some(got));
    shelves(figures(left))
}

/// Returns what is left behind the words up to the versions. None if others come, or if nothing was left.
fn beginning(left: Option<&[u8]>) -> Option<&[u8]>
    ensures { option_copied result ≡ spec.beginning (option_copied left.entry) }
{
    let left = number(tally(left), " store-failures=");
    let left = time(left, " since=");
    number(left, " versions=")
}

/// Returns what is left behind the words of a tally. None if others come, or if nothing was left.
fn tally(left: Option<&[u8]>) -> Option<&[u8]>
    ensures { option_copied result ≡ spec.tally (option_copied left.entry) }
{
    let left = number(left, "connections=");
    let left = number(left, " 2xx=");
    let left = number(left, " 4xx=");
    let left = number(left, " 5xx=");
    number(left, " unanswered=")
}

/// Returns what is left behind the words on the file and on copies, of which each may be missing. None if one of them
/// has no value, or if nothing was left.
fn figures(left: Option<&[u8]>) -> Option<&[u8]>
    ensures { option_copied result ≡ spec.figures (option_copied left.entry) }
{
    let left = number_if(left, " bytes=");
    let left = number_if(left, " log=");
    let left = time_if(left, " copied=");
    how_far_if(left, " copying=")
}

/// Whether what is left is the number of shelves, the end of the line, and this many lines of shelves.
#[tactic(auto, unfolding(crate::specs::HealthText::shelves))]
fn shelves(left: Option<&[u8]>) -> bool
    ensures { result ≡ spec.shelves (option_copied left.entry) }
{
    let Some(text) = word(left, " shelves=") else {
        return false;
    };
    let Some((count, rest)) = first_number(text) else {
        return false;
    };
    match word(Some(rest), "\n") {
        Some(lines) => are_shelf_lines(lines, count),
        None => false,
    }
}

/// Whether a text is this many lines of shelves, each with a name behind the one before it.
fn are_shelf_lines(text: &[u8], count: u64) -> bool
    ensures { result ≡ spec.are_shelf_lines count [] text.now }
{
    let mut rest = text;
    let mut last: &[u8] = &[];
    for _ in 0..count {
        let Some((name, next)) = next_shelf(rest, last) else {
            return false;
        };
        last = name;
        rest = next;
    }
    rest.is_empty()
}

/// Returns the name in the line of a shelf that a text begins with, and what is left behind the line. None if the text
/// begins with no such line, or its name does not come behind `last` in byte order.
#[tactic(auto, unfolding(crate::specs::HealthText::next_shelf))]
fn next_shelf<'a>(text: &'a [u8], last: &[u8]) -> Option<(&'a [u8], &'a [u8])>
    ensures { MatchOption result (spec.next_shelf last.now text.now ≡ None)
        (λ x. spec.next_shelf last.now text.now ≡ Some (x.0.now, x.1.now)) }
{
    let text = word(Some(text), "shelf ")?;
    let (name, rest) = text.split_at(word_len(text));
    if !is_shelf(name) {
        return None;
    }
    if !last.cmp(name).is_lt() {
        return None;
    }
    match counts(rest) {
        Some(rest) => Some((name, rest)),
        None => None,
    }
}

/// Returns what is left behind the counts of a shelf and the end of its line. None if others come.
fn counts(text: &[u8]) -> Option<&[u8]>
    ensures { option_copied result ≡ spec.counts text.now }
{
    let left = number(Some(text), " publishes=");
    let left = number(left, " fetches=");
    word(left, "\n")
}

/// Whether the bytes are a name that a shelf can have.
fn is_shelf(name: &[u8]) -> bool
    ensures { result ≡ is_shelf_name name.now }
{
    match str::from_utf8(name) {
        Ok(name) => is_shelf_name(name),
        Err(_) => false,
    }
}

/// Returns what is left behind a number under a name. None if something else comes, or if nothing was left.
#[tactic(auto, unfolding(crate::specs::HealthText::number))]
fn number<'a>(left: Option<&'a [u8]>, name: &str) -> Option<&'a [u8]>
    ensures { option_copied result ≡ spec.number name.now (option_copied left.entry) }
{
    match word(left, name) {
        Some(text) => behind_number(text),
        None => None,
    }
}

/// Does so if the name comes, and otherwise returns what was left.
#[tactic(auto, unfolding(crate::specs::HealthText::number_if))]
fn number_if<'a>(left: Option<&'a [u8]>, name: &str) -> Option<&'a [u8]>
    ensures { option_copied result ≡ spec.number_if name.now (option_copied left.entry) }
{
    match word(left, name) {
        Some(text) => behind_number(text),
        None => left,
    }
}

/// Returns what is left behind a time under a name. None if something else comes, or if nothing was left.
#[tactic(auto, unfolding(crate::specs::HealthText::time))]
fn time<'a>(left: Option<&'a [u8]>, name: &str) -> Option<&'a [u8]>
    ensures { option_copied result ≡ spec.time name.now (option_copied left.entry) }
{
    match word(left, name) {
        Some(text) => behind_time(text),
        None => None,
    }
}

/// Does so if the name comes, and otherwise returns what was left.
#[tactic(auto, unfolding(crate::specs::HealthText::time_if))]
fn time_if<'a>(left: Option<&'a [u8]>, name: &str) -> Option<&'a [u8]>
    ensures { option_copied result ≡ spec.time_if name.now (option_copied left.entry) }
{
    match word(left, name) {
        Some(text) => behind_time(text),
        None => left,
    }
}

/// Returns what is left behind a number, a slash and a number under a name if the name comes, and otherwise what was
/// left. None if the name comes with something else.
#[tactic(auto, unfolding(crate::specs::HealthText::how_far_if))]
fn how_far_if<'a>(left: Option<&'a [u8]>, name: &str) -> Option<&'a [u8]>
    ensures { option_copied result ≡ spec.how_far_if name.now (option_copied left.entry) }
{
    match word(left, name) {
        Some(text) => number(behind_number(text), "/"),
        None => left,
    }
}

/// Returns what is left behind a word. None if something else comes, or if nothing was left.
#[tactic(auto, unfolding(crate::specs::HealthText::word))]
fn word<'a>(left: Option<&'a [u8]>, expected: &str) -> Option<&'a [u8]>
    ensures { option_copied result ≡ spec.word expected.now (option_copied left.entry) }
{
    let Some(text) = left else {
        return None;
    };
    match text.strip_prefix(expected.as_bytes()) {
        Some(rest) => Some(rest),
        None => None,
    }
}

/// Returns what follows the number that a text begins with. None if it begins with none.
fn behind_number(text: &[u8]) -> Option<&[u8]>
    ensures { option_copied result ≡ spec.behind_number text.now }
{
    match first_number(text) {
        Some((_, rest)) => Some(rest),
        None => None,
    }
}

/// Returns the number that a text begins with, in digits without leading zeros, and what follows it. None if it begins
/// with no digit, a leading zero, or a number of more than 64 bits.
#[tactic(auto, unfolding(crate::specs::HealthText::first_number))]
fn first_number(text: &[u8]) -> Option<(u64, &[u8])>
    ensures { MatchOption result (spec.first_number text.now ≡ None)
        (λ x. spec.first_number text.now ≡ Some (x.0, x.1.now)) }
{
    let (digits, rest) = text.split_at(digits_len(text));
    match number_of(digits) {
        Some(number) => Some((number, rest)),
        None => None,
    }
}

/// Returns how many digits a text begins with.
fn digits_len(text: &[u8]) -> usize
    ensures value { result ≡ spec.digits_len text.now }
    ensures within { result ≤ length text.now }
    ensures digits { list_all is_ascii_digit (take result text.now) ≡ true }
{
    text.iter()
        .position(|b| !b.is_ascii_digit())
        .unwrap_or(text.len())
}

/// Returns the number that digits write without leading zeros. None if there is no digit, one leads with a zero, or the
/// number has more than 64 bits.
fn number_of(digits: &[u8]) -> Option<u64>
    requires { list_all is_ascii_digit digits.now ≡ true }
    ensures { result ≡ number_of digits.now }
{
    if digits.len() > 1 && digits[0] == b'0' {
        return None;
    }
    let Ok(text) = str::from_utf8(digits) else {
        return None;
    };
    match text.parse() {
        Ok(number) => Some(number),
        Err(_) => None,
    }
}

/// Returns what follows the time that a text begins with. None if it begins with none.
#[tactic(auto, unfolding(crate::specs::HealthText::behind_time))]
fn behind_time(text: &[u8]) -> Option<&[u8]>
    ensures { option_copied result ≡ spec.behind_time text.now }
{
    let (time, rest) = text.split_at(text.len().min(TIME_LEN));
    let Ok(time) = str::from_utf8(time) else {
        return None;
    };
    match read_time(time) {
        Ok(_) => Some(rest),
        Err(_) => None,
    }
}

/// Returns how many bytes of a text come before its first space.
fn word_len(text: &[u8]) -> usize
    ensures value { result ≡ spec.word_len text.now }
    ensures within { result ≤ length text.now }
{
    text.iter().position(|b| *b == b' ').unwrap_or(text.len())
}
