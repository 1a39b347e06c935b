//! Tests of tokens, and their values.

ghost use Rattle.std.specs.Prelude.{◌≡◌, ◌<◌, IfOk, IsOkAnd, string_bytes, MatchOption, encode_utf8, [], ◌∷◌};
ghost use Rattle.std.specs.Prelude.{◌++◌, IfSome, length};
ghost use Rattle.std.specs.Cow.{cow_str_bytes, IsBorrowedStr};
ghost use Rattle.modlex.specs.Symbols.{symbol, is_word, is_name_kind, is_arrow_kind};
ghost use Rattle.modlex.specs.Words.{inside, plain_text, value_of, HasBackslash, HasEscape};

use super::lexer::{Token, TokenKind};
use std::alloc::{AllocError, Global};
use std::borrow::CowStr;

impl<'a> Token<'a> {
    /// Whether the token is a name or a string.
    pub fn is_word(&self) -> bool
        ensures { result ≡ is_word (symbol self.now) }
    {
        matches!(
            self.kind,
            TokenKind::Name | TokenKind::Quoted | TokenKind::Raw
        )
    }

    /// Whether the token is a name, as each keyword is.
    pub fn is_name(&self) -> bool
        ensures { result ≡ is_name_kind self.now.kind }
    {
        matches!(self.kind, TokenKind::Name)
    }

    /// Whether the token is the arrow `=>`.
    pub fn is_arrow(&self) -> bool
        ensures { result ≡ is_arrow_kind self.now.kind }
    {
        matches!(self.kind, TokenKind::Arrow)
    }

    /// Returns the value of the token: the content of a string, without the backslashes that escape, or the
    /// text of any other token. The value is borrowed from the text, except for a string in quotation marks
    /// that has a backslash. It fails only for such a string, if memory runs out.
    #[tactic(auto, unfolding(crate::specs::Words::value_of))]
    pub fn value(&self, alloc: Global) -> Result<CowStr<'a>, AllocError>
        ensures value { IfOk result (λ text. cow_str_bytes text ≡ value_of (symbol self.now)) }
        ensures borrowed { ¬ HasEscape (symbol self.now) → IsOkAnd result IsBorrowedStr }
    {
        match self.kind {
            TokenKind::Quoted => plain_text(alloc, inside(self.text, '"')),
            TokenKind::Raw => Ok(CowStr::Borrowed(inside(self.text, '`'))),
            _ => Ok(CowStr::Borrowed(self.text)),
        }
    }
}

/// The text without the mark at its start and the mark at its end, if they are there.
fn inside(text: &str, mark: char) -> &str
    requires { mark < 128 }
    ensures { result.now ≡ inside mark text.now }
{
    let text = text.strip_prefix(mark).unwrap_or(text);
    text.strip_suffix(mark).unwrap_or(text)
}

/// Returns the first character and the text after it, or `None` for an empty text.
fn split_char(text: &str) -> Option<(char, &str)>
    ensures { MatchOption result (text.now ≡ []) (λ x. text.now ≡ encode_utf8 x.0 ++ x.1.now) }
{
    let mut chars = text.chars();
    let first = chars.next()?;
    Some((first, chars.as_str()))
}

/// Returns the texts before and after the first backslash, or `None` if there is none.
fn cut_escape(text: &str) -> Option<(&str, &str)>
    ensures value { MatchOption result (plain_text text.now ≡ text.now)
        (λ x. plain_text text.now ≡ x.0.now ++ plain_text (92 ∷ x.1.now)) }
    ensures escape { IfSome result (λ _. HasBackslash text.now) }
    ensures len { IfSome result (λ x. length x.1.now < length text.now) }
{
    text.split_once('\\')
}

/// Returns `text` without its escaping backslashes, each of which makes the character after it literal.
/// A text that has no backslash is borrowed. It fails only if memory runs out.
fn plain_text(alloc: Global, text: &str) -> Result<CowStr<'_>, AllocError>
    ensures value { IfOk result (λ out. cow_str_bytes out ≡ plain_text text.now) }
    ensures borrowed { ¬ HasBackslash text.now → IsOkAnd result IsBorrowedStr }
{
    match cut_escape(text) {
        None => Ok(CowStr::Borrowed(text)),
        Some(_) => Ok(CowStr::Owned(unescaped(alloc, text)?)),
    }
}

/// Returns a new string of `text` without its escaping backslashes. It fails only if memory runs out.
fn unescaped(alloc: Global, text: &str) -> Result<String, AllocError>
    ensures { IfOk result (λ out. string_bytes out ≡ plain_text text.now) }
{
    let mut out = String::new(alloc);
    let mut rest = text;
    'escapes: while let Some((before, behind)) = cut_escape(rest) {
        out.push_str(before)?;
        let Some((escaped, others)) = split_char(behind) else {
            return Ok(out);
        };
        out.push(escaped)?;
        rest = others;
    }
    out.push_str(rest)?;
    Ok(out)
}
