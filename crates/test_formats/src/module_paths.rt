//! Module paths, loose paths and their escaped form. (Go Modules Reference, "Module paths", "Major version suffixes"
//! and "GOPROXY protocol".)
use crate::rows::{column, named};
use modpath::{
    LoosePath, ModulePath, PathError, check, check_loose, escape, loose_suffix, suffix, unescape,
};
use std::alloc::{AllocError, Global};
use std::test::Fail;

/// - `path` and `loose`: a text, and the major version suffix of the path that it writes, or its fault. A path has at
///   most 255 bytes.
/// - `escape` and `unescape`: a text, and its other form or its fault.
pub const ROWS: &str = "\
path|gopkg.in/yaml.v2|Dot(2)
path|example.com/a/v2|Slash(2)
path|example.com/a~1b|None
path|example.com/v|None
path|gopkg.in/yaml.v0|Dot(0)
path|example.com/v18446744073709551615|Slash(18446744073709551615)
path|example.com/vendor|None
path||Empty
path|example.com//a|Element
path|/|Element
path|///|Element
path|example.com/a/|Element
path|example.com/é|Element
path|example.com/a b|Element
path|example.com/.a|DotEnd
path|example.com/a.|DotEnd
path|example.com/con.b|Reserved
path|CON.com/a|Reserved
path|example.com/Lpt9|Reserved
path|example.com/b~1|Tilde
path|example.com/a~1.b|Tilde
path|Example.com/a|First
path|example|First
path|-example.com/a|First
path|example.com/a/v1|Suffix
path|example.com/a/v02|Suffix
path|example.com/a/v2.0|Suffix
path|example.com/v0|Suffix
path|example.com/v18446744073709551616|Suffix
path|gopkg.in/yaml|Suffix
path|gopkg.in/yaml.v02|Suffix
path|gopkg.in/yaml.v18446744073709551616|Suffix
path|gopkg.in/v2|Suffix
path|mymod/v2|First
path|example.com|None
path|example.com/aaaaaaaaaaaaaaaaaaaaaaaaaaaaaaaaaaaaaaaaaaaaaaaaaaaaaaaaaaaaaaaaaaaaaaaaaaaaaaaaaaaaaaaaaaaaaaaaaaaaaa\
    aaaaaaaaaaaaaaaaaaaaaaaaaaaaaaaaaaaaaaaaaaaaaaaaaaaaaaaaaaaaaaaaaaaaaaaaaaaaaaaaaaaaaaaaaaaaaaaaaaaaaaaaaaaaaaaaaaa\
    aaaaaaaaaaaaaaaaaaaaaaaaaa|None
path|example.com/aaaaaaaaaaaaaaaaaaaaaaaaaaaaaaaaaaaaaaaaaaaaaaaaaaaaaaaaaaaaaaaaaaaaaaaaaaaaaaaaaaaaaaaaaaaaaaaaaaaaaa\
    aaaaaaaaaaaaaaaaaaaaaaaaaaaaaaaaaaaaaaaaaaaaaaaaaaaaaaaaaaaaaaaaaaaaaaaaaaaaaaaaaaaaaaaaaaaaaaaaaaaaaaaaaaaaaaaaaaa\
    aaaaaaaaaaaaaaaaaaaaaaaaaaa|TooLong
loose|mymod|None
loose|Example.com/a|None
loose|example.com/a/v2|Slash(2)
loose|gopkg.in|None
loose||Empty
loose|mymod/|Element
loose|mymod/.a|DotEnd
loose|mymod/NUL|Reserved
loose|mymod/a~12|Tilde
loose|mymod/v1|Suffix
loose|gopkg.in/mymod|Suffix
loose|example.com//a|Element
loose|example.com/a.|DotEnd
loose|CON.com/a|Reserved
loose|example.com/b~1|Tilde
loose|mymod/v2|Slash(2)
loose|example.com/a/v1|Suffix
loose|gopkg.in/yaml.v0|Dot(0)
loose|example.com/v|None
loose|example.com|None
loose|example.com/aaaaaaaaaaaaaaaaaaaaaaaaaaaaaaaaaaaaaaaaaaaaaaaaaaaaaaaaaaaaaaaaaaaaaaaaaaaaaaaaaaaaaaaaaaaaaaaaaaaaa\
    aaaaaaaaaaaaaaaaaaaaaaaaaaaaaaaaaaaaaaaaaaaaaaaaaaaaaaaaaaaaaaaaaaaaaaaaaaaaaaaaaaaaaaaaaaaaaaaaaaaaaaaaaaaaaaaaaaa\
    aaaaaaaaaaaaaaaaaaaaaaaaaaa|None
loose|example.com/aaaaaaaaaaaaaaaaaaaaaaaaaaaaaaaaaaaaaaaaaaaaaaaaaaaaaaaaaaaaaaaaaaaaaaaaaaaaaaaaaaaaaaaaaaaaaaaaaaaaa\
    aaaaaaaaaaaaaaaaaaaaaaaaaaaaaaaaaaaaaaaaaaaaaaaaaaaaaaaaaaaaaaaaaaaaaaaaaaaaaaaaaaaaaaaaaaaaaaaaaaaaaaaaaaaaaaaaaaa\
    aaaaaaaaaaaaaaaaaaaaaaaaaaaa|TooLong
escape|example.com/Lib|example.com/!lib
unescape|example.com/!lib|example.com/Lib
escape||
unescape||
escape|example.com/AZ|example.com/!a!z
unescape|example.com/!a!z|example.com/AZ
escape|v1.0.0-RC.1|v1.0.0-!r!c.1
unescape|v1.0.0-!r!c.1|v1.0.0-RC.1
escape|é/Ä|é/Ä
unescape|é/Ä|é/Ä
unescape|A!|Upper
unescape|!1A|Bang
unescape|a!|Bang
unescape|!A|Bang
unescape|!!a|Bang
unescape|example.com/Lib|Upper
unescape|example.com/!1|Bang
unescape|!é|Bang
";

/// Returns the suffix of a module path, or the fault of its text, or `-` if `check` and `ModulePath::parse` disagree.
fn path(alloc: Global, text: &str) -> Result<String, AllocError> {
    let checked = check(text).err();
    match ModulePath::parse(alloc, text) {
        Ok(path) => {
            let same = checked.is_none() && path.as_str() == text;
            named(alloc, if same { Some(suffix(&path)) } else { None })
        }
        Err(PathError::Fault(fault)) => named(
            alloc,
            if checked == Some(fault) {
                checked
            } else {
                None
            },
        ),
        Err(PathError::Memory) => Err(AllocError),
    }
}

/// Returns the suffix of a loose path, or the fault of its text, or `-` if `check_loose` and `LoosePath::parse`
/// disagree.
fn loose(alloc: Global, text: &str) -> Result<String, AllocError> {
    let checked = check_loose(text).err();
    match LoosePath::parse(alloc, text) {
        Ok(path) => {
            let same = checked.is_none() && path.as_str() == text;
            named(
                alloc,
                if same {
                    Some(loose_suffix(&path))
                } else {
                    None
                },
            )
        }
        Err(PathError::Fault(fault)) => named(
            alloc,
            if checked == Some(fault) {
                checked
            } else {
                None
            },
        ),
        Err(PathError::Memory) => Err(AllocError),
    }
}

/// Returns the text whose escaped form this is, or the fault of the escaped form.
fn unescaped(alloc: Global, text: &str) -> Result<String, AllocError> {
    match unescape(alloc, text) {
        Ok(plain) => Ok(plain),
        Err(fault) => format!(in alloc; "{fault:?}"),
    }
}

/// Makes the call of a row, and returns its result as a text.
pub fn given(alloc: Global, row: &str) -> Result<String, AllocError> {
    let text = column(row, 1);
    match column(row, 0) {
        "path" => path(alloc, text),
        "loose" => loose(alloc, text),
        "escape" => escape(alloc, text),
        _ => unescaped(alloc, text),
    }
}
