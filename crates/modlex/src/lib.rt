//! The tokens of go.mod files: the lexer below the reader of the crate `gomod`. (Go Modules Reference,
//! "go.mod files", "Lexical elements"; where this profile differs, the text below holds.)
//!
//! A text is split into lines, each ended by a newline or by the end of the text, and no token goes
//! beyond its line. Spaces, tabs and carriage returns separate tokens, `//` begins a comment, which
//! runs to the end of the line, and `(`, `)`, `[`, `]` and `,` are tokens by themselves. A string is
//! enclosed in two quotation marks, where a backslash makes the character after it literal, or in two
//! grave accents; it has no control byte. Any other run of bytes without braces, control bytes or `/*`
//! is a name, which ends before a comment; the run `=>` is the arrow. Names and strings are words. A
//! line with anything else cannot be split into tokens, and the first such line is the fault.
//!
//! | text | [`tokens`] |
//! |---|---|
//! | `module example.com/a // text` | the names `module` and `example.com/a` |
//! | `a => "b c"` | a name, the arrow and a string, whose value is `b c` |
//! | `[v1.0.0,v1.1.0]` | a bracket, a name, a comma, a name and a bracket |
//! | `=>x` | the name `=>x` |
//! | `a/*b*/` | [`TokenFault::Lex`], line 1 |
//! | a line, and then `"a` | [`TokenFault::Lex`], line 2 |
#![tactic(auto)]

pub mod laws;
mod lexer;
mod words;

pub use crate::lexer::{
    Span, Token, TokenFault, TokenKind, cut_line, first_tokens, line_tokens, tokens,
};
