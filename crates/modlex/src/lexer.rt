//! The tokens of a go.mod file.

ghost use Rattle.std.specs.Prelude.{◌≡◌, ◌+◌, ◌<◌, ◌≤◌, ◌^◌, ◌-◌, length, IsUtf8, MatchOption, IfOk, IfSome};
ghost use Rattle.std.specs.Prelude.{IfNone, IsTrue, Some, None, false, slice_index, drop, take, [], ◌∷◌, ◌++◌};
ghost use Rattle.std.specs.Str.{IsCharBoundary};
ghost use Rattle.modlex.specs.Bytes.{is_blank, is_string_byte, is_name_byte, is_slash_and, quoted_len};
ghost use Rattle.modlex.specs.Bytes.{raw_len, name_len};
ghost use Rattle.modlex.specs.Lines.{lines};
ghost use Rattle.modlex.specs.Lexer.{punctuation_kind, name_kind, lexeme_at, view, views, line_tokens};
ghost use Rattle.modlex.specs.Lexer.{first_of, text_tokens, Gives};

use std::alloc::{AllocError, AllocFailed, Global};

/// The kind of a token.
#[derive(Clone, Copy, Debug, PartialEq, Eq)]
pub enum TokenKind {
    Name,
    Quoted,
    Raw,
    Arrow,
    Comma,
    ParenLeft,
    ParenRight,
    BracketLeft,
    BracketRight,
}

/// Where a token is in the text: the index of its first byte, and the index after its last byte.
#[derive(Clone, Copy, Debug, PartialEq, Eq)]
pub struct Span {
    pub start: usize,
    pub end: usize,
}

/// A token, whose text is a slice of the source.
#[derive(Clone, Copy, Debug)]
pub struct Token<'a> {
    pub kind: TokenKind,
    pub line: usize,
    pub span: Span,
    pub text: &'a str,
}

/// Why the tokens of a text or of a line were not returned.
#[derive(Clone, Copy, Debug, PartialEq, Eq)]
pub enum TokenFault {
    /// The line with this number cannot be split into tokens.
    Lex(usize),
    /// Memory ran out.
    Memory,
}

impl From<AllocError> for TokenFault {
    ghost use Rattle.modlex.specs.declared.lexer.TokenFault.TheVariants.{Memory};

    ghost from_gives = { λ _ e. e ≡ Memory };

    fn from(_: AllocError) -> Self {
        TokenFault::Memory
    }
}

impl<T: Drop> From<AllocFailed<T>> for TokenFault {
    ghost use Rattle.modlex.specs.declared.lexer.TokenFault.TheVariants.{Memory};

    ghost from_gives = { λ _ e. e ≡ Memory };

    fn from(_: AllocFailed<T>) -> Self {
        TokenFault::Memory
    }
}

#[tactic(auto, unfolding(crate::specs::Bytes::is_blank))]
fn is_blank(byte: u8) -> bool
    ensures value { result ≡ is_blank byte }
    ensures ascii { IsTrue result → byte < 128 }
{
    matches!(byte, b' ' | b'\t' | b'\r')
}

#[tactic(auto, unfolding(crate::specs::Bytes::is_string_byte))]
fn is_string_byte(byte: u8) -> bool
    ensures { result ≡ is_string_byte byte }
{
    byte >= 0x20 && byte != 0x7f
}

#[tactic(auto, unfolding(crate::specs::Bytes::is_name_byte))]
fn is_name_byte(byte: u8) -> bool
    ensures { result ≡ is_name_byte byte }
{
    byte > 0x20
        && byte != 0x7f
        && !matches!(
            byte,
            b'(' | b')' | b'[' | b']' | b',' | b'"' | b'`' | b'{' | b'}'
        )
}

/// Whether the byte at `at` is a slash and the next one is `second`.
#[tactic(auto, unfolding(crate::specs::Bytes::is_slash_and))]
fn is_slash_and(second: u8, bytes: &[u8], at: usize) -> bool
    requires { at < length bytes.now }
    ensures { result ≡ is_slash_and second (slice_index bytes.now at) (drop (at + 1) bytes.now) }
{
    bytes[at] == b'/' && at + 1 < bytes.len() && bytes[at + 1] == second
}

/// Returns the length of an interpreted string without its first quotation mark. It returns `None` if
/// the string is not closed or has a byte that no string may have.
fn quoted_len(bytes: &[u8]) -> Option<usize>
    ensures value { result ≡ quoted_len false bytes.now }
    ensures within { IfSome result (λ n. (0 < n) × (n ≤ length bytes.now)) }
    ensures ascii { IfSome result (λ n. slice_index bytes.now (n - 1) < 128) }
{
    let mut escaped = false;
    for (i, &byte) in bytes.iter().enumerate() {
        if !is_string_byte(byte) {
            return None;
        }
        if !escaped && byte == b'"' {
            return Some(i + 1);
        }
        escaped = !escaped && byte == b'\\';
    }
    None
}

/// Returns the length of a raw string without its first grave accent. It returns `None` if the string
/// is not closed or has a byte that no string may have.
fn raw_len(bytes: &[u8]) -> Option<usize>
    ensures value { result ≡ raw_len bytes.now }
    ensures within { IfSome result (λ n. (0 < n) × (n ≤ length bytes.now)) }
    ensures ascii { IfSome result (λ n. slice_index bytes.now (n - 1) < 128) }
{
    for (i, &byte) in bytes.iter().enumerate() {
        if !is_string_byte(byte) {
            return None;
        }
        if byte == b'`' {
            return Some(i + 1);
        }
    }
    None
}

/// Returns how many bytes at the front of `bytes` continue a name, or `None` if a `/*` is among them.
#[tactic(auto, using(crate::proofs::Cuts::name_ends))]
fn name_len(bytes: &[u8]) -> Option<usize>
    ensures value { result ≡ name_len bytes.now }
    ensures within { IfSome result (λ n. n ≤ length bytes.now) }
    ensures ascii { IfSome result (λ n. n < length bytes.now → slice_index bytes.now n < 128) }
{
    for (i, &byte) in bytes.iter().enumerate() {
        if !is_name_byte(byte) || is_slash_and(b'/', bytes, i) {
            return Some(i);
        }
        if is_slash_and(b'*', bytes, i) {
            return None;
        }
    }
    Some(bytes.len())
}

/// Returns the kind of a token of one byte, or `None` if the byte is not such a token.
fn punctuation_kind(byte: u8) -> Option<TokenKind>
    ensures value { result ≡ punctuation_kind byte }
    ensures ascii { IfSome result (λ _. byte < 128) }
{
    match byte {
        b'(' => Some(TokenKind::ParenLeft),
        b')' => Some(TokenKind::ParenRight),
        b'[' => Some(TokenKind::BracketLeft),
        b']' => Some(TokenKind::BracketRight),
        b',' => Some(TokenKind::Comma),
        _ => None,
    }
}

fn name_kind(name: &[u8]) -> TokenKind
    ensures { result ≡ name_kind name.now }
{
    if name == b"=>".as_slice() {
        TokenKind::Arrow
    } else {
        TokenKind::Name
    }
}

/// Returns the kind and the length of the token at the front of `bytes`, or `None` if there is none.
/// `bytes` begins with neither a blank nor a comment.
#[tactic(auto, using(crate::proofs::Cuts::cuts), unfolding(crate::specs::Lexer::lexeme_at))]
fn lexeme_at(bytes: &[u8]) -> Option<(TokenKind, usize)>
    ensures value { result ≡ lexeme_at bytes.now }
    ensures within { IfSome result (λ found. (0 < found.1) × (found.1 ≤ length bytes.now)) }
    // No character is cut in two.
    ensures boundary { IfSome result (λ found. IsUtf8 bytes.now → IsCharBoundary bytes.now found.1) }
{
    let (&first, rest) = bytes.split_first()?;
    if let Some(kind) = punctuation_kind(first) {
        return Some((kind, 1));
    }
    match first {
        b'"' => Some((TokenKind::Quoted, quoted_len(rest)? + 1)),
        b'`' => Some((TokenKind::Raw, raw_len(rest)? + 1)),
        _ if !is_name_byte(first) || is_slash_and(b'*', bytes, 0) => None,
        _ => {
            let len = name_len(rest)? + 1;
            Some((name_kind(&bytes[..len]), len))
        }
    }
}

/// Replaces the content of `out` by the first tokens of a line, at most `most` of them. `line` is the
/// number of the line and `start` its offset in the whole text. It reads the line to its end, and fails
/// with [`TokenFault::Lex`] and the number if the line cannot be split into tokens, and with
/// [`TokenFault::Memory`] if memory runs out.
pub fn first_tokens<'a>(
    out: &mut Vec<Token<'a>>,
    most: usize,
    line: usize,
    start: usize,
    text: &'a str,
) -> Result<(), TokenFault>
    requires { start + length text.now < 2 ^ 64 }
    ensures value { Gives (λ _. views out.new.items) result (first_of most (line_tokens line start text.now)) }
    ensures bound { length out.new.items ≤ most }
{
    out.clear();
    let mut at = start;
    let mut rest = text;
    'scan: while let Some(&first) = rest.as_bytes().first() {
        let bytes = rest.as_bytes();
        if is_blank(first) {
            at += 1;
            rest = rest.split_at(1).1;
            continue;
        }
        if is_slash_and(b'/', bytes, 0) {
            break;
        }
        let Some((kind, len)) = lexeme_at(bytes) else {
            return Err(TokenFault::Lex(line));
        };
        let (text, behind) = rest.split_at(len);
        let span = Span {
            start: at,
            end: at + len,
        };
        keep_token(
            out,
            most,
            Token {
                kind,
                line,
                span,
                text,
            },
        )?;
        at += len;
        rest = behind;
    }
    Ok(())
}

/// Appends a token to `out`, unless `out` has `most` of them. It fails only if memory runs out.
fn keep_token<'a>(out: &mut Vec<Token<'a>>, most: usize, token: Token<'a>) -> Result<(), AllocError>
    requires { length out.old.items ≤ most }
    ensures tokens { IfOk result (λ _. views out.new.items ≡ take most (views out.old.items ++ view token.entry ∷ [])) }
    ensures bound { length out.new.items ≤ most }
{
    if out.len() < most {
        out.push(token)?;
    }
    Ok(())
}

/// Returns the tokens of a line. `line` is the number of the line and `start` its offset in the whole
/// text. It fails with [`TokenFault::Lex`] and the number if the line cannot be split into tokens, and
/// with [`TokenFault::Memory`] if memory runs out.
pub fn line_tokens<'a>(
    alloc: Global,
    line: usize,
    start: usize,
    text: &'a str,
) -> Result<Vec<Token<'a>>, TokenFault>
    requires { start + length text.now < 2 ^ 64 }
    ensures { Gives (λ v. views v.items) result (line_tokens line start text.now) }
{
    let mut out = Vec::new(alloc);
    first_tokens(&mut out, text.len(), line, start, text)?;
    Ok(out)
}

/// Returns the first line and the text after its newline, or `None` for a text of one line.
pub fn cut_line(text: &str) -> Option<(&str, &str)>
    ensures lines { MatchOption result (lines text.now ≡ text.now ∷ [])
        (λ cut. lines text.now ≡ cut.0.now ∷ lines cut.1.now) }
    ensures len { IfSome result (λ cut. length cut.0.now + 1 + length cut.1.now ≡ length text.now) }
{
    text.split_once('\n')
}

/// Returns the tokens of a text, line by line. It fails with [`TokenFault::Lex`] and the number, counted
/// from 1, of the first line that cannot be split into tokens, and with [`TokenFault::Memory`] if memory
/// runs out.
pub fn tokens<'a>(alloc: Global, text: &'a str) -> Result<Vec<Token<'a>>, TokenFault>
    ensures { Gives (λ v. views v.items) result (text_tokens text.now) }
{
    let mut out = Vec::new(alloc);
    let mut number = 1;
    let mut start = 0;
    let mut rest = text;
    'lines: while let Some((line, behind)) = cut_line(rest) {
        out.extend_from_slice(&line_tokens(alloc, number, start, line)?)?;
        number += 1;
        start += line.len() + 1;
        rest = behind;
    }
    out.extend_from_slice(&line_tokens(alloc, number, start, rest)?)?;
    Ok(out)
}
