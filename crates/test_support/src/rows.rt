//! Reading rows: each is a line of a table, with `|` between its columns and ` = ` before its answer.
use std::alloc::{AllocError, Global};
use std::fmt::Debug;
use world::registry::StoreFault;

/// Returns a column of a row, or the empty text if the row has no such column.
pub fn column(row: &str, index: usize) -> &str {
    row.split('|').nth(index).unwrap_or("")
}

/// Returns a column of a row without the spaces around it.
pub fn cell(row: &str, index: usize) -> &str {
    column(row, index).trim()
}

/// Returns the call in a row: what stands before its answer.
pub fn call_of(row: &str) -> &str {
    match row.split_once(" = ") {
        Some((call, _)) => call,
        None => row,
    }
}

/// Returns the answer in a row, with each `;` turned into a newline, or the empty text if there is none.
pub fn answer_of(alloc: Global, row: &str) -> Result<String, AllocError> {
    match row.split_once(" = ") {
        Some((_, answer)) => with_lines(alloc, answer),
        None => Ok(String::new(alloc)),
    }
}

/// Returns the text of a column with each `;` turned into a newline.
pub fn with_lines(alloc: Global, column: &str) -> Result<String, AllocError> {
    column.replace(alloc, ";", "\n")
}

/// Returns the name of a value, or of the fault.
pub fn named<T: Debug + Copy>(
    alloc: Global,
    told: Result<T, StoreFault>,
) -> Result<String, AllocError> {
    match told {
        Ok(value) => format!(in alloc; "{value:?}"),
        Err(fault) => format!(in alloc; "{fault:?}"),
    }
}
