//! Tokens of texts and of lines, and their values. (Go Modules Reference, "go.mod files", lexical elements.)
use crate::rows::{column, named, with_lines};
use modlex::{Token, TokenFault, cut_line, first_tokens, line_tokens, tokens};
use std::alloc::{AllocError, Global};
use std::borrow::CowStr;
use std::test::Fail;

/// - `tokens`: a text, and the kind, line, span and slice of each token, or the fault.
/// - `line_tokens` and `first_tokens`: line 7 of a text, which begins at byte 20, and its tokens or the first two of
///   them, or the fault.
/// - `cut_line`: a text, and its first line and what follows, or `-` for a text of one line.
/// - `word`: a text of one token; whether it is a word, a name, the arrow; whether its value is borrowed from the text;
///   and the value.
pub const ROWS: &str = "\
tokens|go 1.21rc1;a => // x;[\"b\\\"\",`c`];( =>x)|Name 1 0-2 go, Name 1 3-10 1.21rc1, Name 2 11-12 a, \
    Arrow 2 13-15 =>, BracketLeft 3 21-22 [, Quoted 3 22-27 \"b\\\"\", Comma 3 27-28 ,, Raw 3 28-31 `c`, \
    BracketRight 3 31-32 ], ParenLeft 4 33-34 (, Name 4 35-38 =>x, ParenRight 4 38-39 )
tokens|a;b {|Lex(2)
line_tokens|  a//b|Name 7 22-23 a
line_tokens|a /* b|Lex(7)
first_tokens|  a b c//d|Name 7 22-23 a, Name 7 24-25 b
first_tokens|a b {|Lex(7)
cut_line|a;b;c|(\"a\", \"b\\nc\")
cut_line|a|-
word|require|true true false true [require]
word|\"a \\\\ \\\"b\\\"\"|true false false false [a \\ \"b\"]
word|\"a b\"|true false false true [a b]
word|`c\\d`|true false false true [c\\d]
word|\"\"|true false false true []
word|=>|false false true true [=>]
word|,|false false false true [,]
";

/// Returns the kind, the line, the span and the slice of each token.
fn shown(alloc: Global, found: &[Token]) -> Result<String, AllocError> {
    let mut text = String::new(alloc);
    for token in found {
        if !text.is_empty() {
            text.push_str(", ")?;
        }
        let (kind, line, span) = (token.kind, token.line, token.span);
        write!(
            text,
            "{kind:?} {line} {}-{} {}",
            span.start, span.end, token.text
        )?;
    }
    Ok(text)
}

/// Returns the tokens that a call finds, or its fault.
fn found<'a>(alloc: Global, call: &str, text: &'a str) -> Result<Vec<Token<'a>>, TokenFault> {
    match call {
        "line_tokens" => line_tokens(alloc, 7, 20, text),
        "first_tokens" => {
            let mut found = tokens(alloc, "x y z")?;
            first_tokens(&mut found, 2, 7, 20, text)?;
            Ok(found)
        }
        _ => tokens(alloc, text),
    }
}

/// Returns which tests a token passes, whether its value is borrowed, and the value.
fn word(alloc: Global, token: &Token) -> Result<String, AllocError> {
    let value = token.value(alloc)?;
    let is_lent = matches!(value, CowStr::Borrowed(_));
    let (is_word, is_name, is_arrow) = (token.is_word(), token.is_name(), token.is_arrow());
    format!(in alloc;
        "{is_word} {is_name} {is_arrow} {is_lent} [{}]",
        value.as_str()
    )
}

/// Makes the call of a row, and returns its result as a text.
pub fn given(alloc: Global, row: &str) -> Result<String, AllocError> {
    let call = column(row, 0);
    let text = with_lines(alloc, column(row, 1))?;
    if call == "cut_line" {
        return named(alloc, cut_line(text.as_str()));
    }
    match found(alloc, call, text.as_str()) {
        Ok(list) => match list.as_slice() {
            [token] if call == "word" => word(alloc, token),
            all => shown(alloc, all),
        },
        Err(fault) => format!(in alloc; "{fault:?}"),
    }
}
