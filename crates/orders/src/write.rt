//! The line of an order.
ghost use Rattle.std.specs.Prelude.{◌≡◌, ◌++◌, ◌≤◌, ◌^◌, IfOk, IfErr, MatchBool, OnOk, length, string_bytes};
ghost use Rattle.std.specs.Str.{IsUtf8};
ghost use Rattle.orders.specs.Line.{IsLine};
ghost use Rattle.orders.specs.Order as spec;
ghost use Rattle.orders.specs.Words.{behind, said, text_of};

use crate::order::Order;
use crate::words::Words;
use std::alloc::{AllocError, Global};

/// Why an order has no line.
#[derive(Clone, Copy, Debug, Drop, PartialEq, Eq)]
pub enum WriteError {
    /// A name, the key or the path in it has a space or the end of a line, or makes the line too long.
    Words,
    /// Memory ran out for the line.
    Memory,
}

impl From<AllocError> for WriteError {
    ghost use Rattle.orders.specs.declared.write.WriteError.TheVariants.{Memory};

    ghost from_gives = { λ _ why. why ≡ Memory };

    fn from(_error: AllocError) -> WriteError {
        WriteError::Memory
    }
}

impl Order<'_> {
    /// Returns its line, with the end. Fails with `Words` if no bytes are its line, and with `Memory` if memory runs
    /// out.
    pub fn write(&self, alloc: Global) -> Result<String, WriteError>
        ensures ok { IfOk result (λ line. spec.IsLineOf (string_bytes line) (spec.ordered self.now)) }
        ensures err { IfErr result (λ why. spec.IsUnwritten (spec.ordered self.now) why) }
    {
        let words = self.words();
        if !words.are_words() {
            return Err(WriteError::Words);
        }
        let text = text_with(alloc, words)?;
        if text.len() > self.longest() {
            return Err(WriteError::Words);
        }
        let line = ended(text)?;
        Ok(line)
    }

    /// Returns whether it has a line. It takes no memory.
    pub fn has_line(&self) -> bool
        ensures { MatchBool result (spec.HasLine (spec.ordered self.now)) (spec.HasNoLine (spec.ordered self.now)) }
    {
        let words = self.words();
        if !words.are_words() {
            return false;
        }
        let length = text_len(words);
        length <= self.longest() as u128
    }
}

/// Returns the line of a text, with its end. Fails only if memory runs out.
fn ended(text: String) -> Result<String, AllocError>
    ensures { IfOk result (λ line. IsLine (string_bytes line) (string_bytes text)) }
{
    let mut line = text;
    line.push_str("\n")?;
    Ok(line)
}

/// Returns the text of words, with one space between each two. Fails only if memory runs out.
fn text_with(alloc: Global, words: Words) -> Result<String, AllocError>
    ensures { IfOk result (λ text. string_bytes text ≡ text_of (said words.entry)) }
{
    let mut text = String::new(alloc);
    match words {
        Words::One(verb) => text.push_str(verb)?,
        Words::Two(verb, first) => {
            text.push_str(verb)?;
            push_word(&mut text, first)?;
        }
        Words::Three(verb, first, second) => {
            text.push_str(verb)?;
            push_word(&mut text, first)?;
            push_word(&mut text, second)?;
        }
    }
    Ok(text)
}

/// Adds one more word behind others. Fails only if memory runs out.
fn push_word(text: &mut String, word: &str) -> Result<(), AllocError>
    ensures { OnOk result (string_bytes text.new ≡ string_bytes text.old ++ behind word.now) }
{
    text.push_str(" ")?;
    text.push_str(word)
}

/// Returns how many bytes the text of words has.
fn text_len(words: Words) -> u128
    ensures len { result ≡ length (text_of (said words.entry)) }
    ensures utf8 { IsUtf8 (text_of (said words.entry)) }
{
    match words {
        Words::One(verb) => word_len(verb) as u128,
        Words::Two(verb, first) => word_len(verb) as u128 + behind_len(first),
        Words::Three(verb, first, second) => {
            word_len(verb) as u128 + behind_len(first) + behind_len(second)
        }
    }
}

/// Returns how many bytes a word has.
fn word_len(word: &str) -> usize
    ensures len { result ≡ length word.now }
    ensures utf8 { IsUtf8 word.now }
{
    word.len()
}

/// Returns how many bytes a word has with the space before it.
fn behind_len(word: &str) -> u128
    ensures len { result ≡ length (behind word.now) }
    ensures utf8 { IsUtf8 (behind word.now) }
    ensures few { result ≤ 2 ^ 64 }
{
    1 + word_len(word) as u128
}
