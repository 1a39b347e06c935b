//! Requests and the bytes of their replies, as rows of scripts. (RFC 9112; Go Modules Reference, "GOPROXY protocol".)
//!
//! A request is a row: its method, the letter of its key and its target; the status, kind and body of the reply; and
//! for a PUT also the go.mod and the zip. `;` stands for a newline.
use crate::rows::{cell, with_lines};
use engine::answer_all;
use histories::{Hearing, Telling};
use std::alloc::{AllocError, Global};
use std::test::Fail;
use world::shelves::Shelves;

/// Returns the key that a letter stands for.
fn key_of(letter: &str) -> &'static str {
    match letter {
        "A" => "alphakey00000001",
        "B" => "betakey000000001",
        _ => "commonkey0000001",
    }
}

/// Returns the Content-Type that a word stands for.
fn kind_of(word: &str) -> &'static str {
    match word {
        "zip" => "application/zip",
        _ => "text/plain; charset=utf-8",
    }
}

/// Returns what follows the first line of a PUT, with its go.mod and its zip.
fn put_rest(alloc: Global, gomod: &str, zip: &str) -> Result<String, AllocError> {
    let gomod = with_lines(alloc, gomod)?;
    format!(in alloc;
        "Mod-Length: {}\r\nContent-Length: {}\r\n\r\n{gomod}{zip}",
        gomod.len(),
        gomod.len().saturating_add(zip.len()),
    )
}

/// Returns the bytes of the request in a row.
fn request(alloc: Global, row: &str) -> Result<String, AllocError> {
    let mut words = cell(row, 0).split(' ');
    let method = words.next().unwrap_or("");
    let key = key_of(words.next().unwrap_or(""));
    let target = words.next().unwrap_or("");
    let rest = if method == "PUT" {
        put_rest(alloc, cell(row, 4), cell(row, 5))?
    } else {
        String::from_str(alloc, "\r\n")?
    };
    format!(in alloc; "{method} /k/{key}/{target} HTTP/1.1\r\n{rest}")
}

/// Returns the bytes of the reply in a row.
fn reply(alloc: Global, row: &str) -> Result<String, AllocError> {
    let body = with_lines(alloc, cell(row, 3))?;
    format!(in alloc;
        "HTTP/1.1 {}\r\nContent-Type: {}\r\nContent-Length: {}\r\nConnection: close\r\n\r\n{body}",
        cell(row, 1),
        kind_of(cell(row, 2)),
        body.len(),
    )
}

/// Returns the bytes that the store replies to the request in a row.
pub fn replied<S: Shelves>(alloc: Global, shelves: &mut S, row: &str) -> Result<Vec<u8>, Fail> {
    let asked = request(alloc, row)?;
    let mut reader = Hearing::new(asked.as_bytes());
    let mut output = Vec::new(alloc);
    answer_all(alloc, &mut reader, &mut Telling::new(&mut output), shelves)?;
    Ok(output)
}

/// Whether the store answers the request in a row as the row says.
pub fn is_answered<S: Shelves>(alloc: Global, shelves: &mut S, row: &str) -> Result<bool, Fail> {
    let reply = reply(alloc, row)?;
    let replied = replied(alloc, shelves, row)?;
    Ok(replied.as_slice() == reply.as_bytes())
}
