//! Which texts can be read as go.mod files, and the faults of the others. (Go Modules Reference, "go.mod files".)
use crate::rows::{bytes, column};
use gomod::{GoMod, GoModFault};
use std::alloc::{AllocError, Global};
use std::test::Fail;

/// - `read`: a text, and its first fault as a go.mod; if it has none, `bare` if module is its only directive, and
///   otherwise `more`.
/// - `line`: a text, and the line of its fault.
/// - `parentheses`: the text after 100,000 opening parentheses, and the fault of the whole.
pub const ROWS: &str = "\
read||NoModule
read|module example.com/a;retract [v1.1.0, v1.0.0];|Interval(2)
read|module example.com/a;module example.com/b;|Twice(2)
read|module example.com/a;go 1.021;|GoVersion(2)
read|go 1.21rc1;|NoModule
read|module example.com/a;require (;example.com/x v1.0.0;|Grammar(4)
read|module example.com/a;require example.com/x v2.0.0;|Version(2)
read|module example.com/a;replace example.com/x => ../x;|more
read|module example.com/a;replace example.com/x => x;|Path(2)
read|module example.com/a;replace example.com/x => ..;|more
read|module example.com/a;replace example.com/x => ./ü;|more
read|module example.com/a;require mymod v0.0.0;replace mymod => ./mymod;|more
read|module example.com/a;require mymod v2.0.0;|Version(2)
read|module mymod;|Path(1)
read|module example.com/a /* c */;|Lex(1)
read|module example.com/a;toolchain {;|Lex(2)
read|module \"gopkg.in/yaml.v2\";require \"gopkg.in/check.v1\" v0.0.0-20161208181325-20d25e280405;|more
read|module example.com/a;require gopkg.in/check.v1 v0.0.0;|Version(2)
read|module example.com/a/v2;retract v1.0.0;|Version(2)
read|\"module\" example.com/a|Grammar(1)
read|module example.com/a;;frobnicate go1.21.0;|Unknown(3)
read|module example.com/a // text|bare
read|module example.com/a;require ( )|Grammar(2)
read|module \"example.com/a\"|bare
read|module example.com/a;module;|Twice(2)
read|module example.com/a;module (;|Twice(2)
read|module example.com/a;module a b;|Twice(2)
read|go 1.21;go;|Twice(2)
read|go (;|Grammar(1)
read|);|Grammar(1)
read|module (;);|Grammar(2)
read|module (;example.com/a;example.com/b;);|Grammar(3)
read|module (;;example.com/a // the path;;);|bare
read|bogus {;|Lex(1)
read|bogus (;module x;|Unknown(1)
read|require example.com/x/ v1;|Path(1)
read|require (;|Grammar(2)
read|require (;)|NoModule
read|require (;require (;|Grammar(2)
read|module example.com/a;retract [v1.0.0, v2];|Version(2)
read|retract v1.0.0;retract [v0.1.0, v2.0.0];module example.com/a;|Version(2)
read|module example.com/a;replace a v1.0.0 => b v1.0.0;|Path(2)
read|module example.com/a;replace a => b.c v9.0.0;|Version(2)
read|module example.com/a;replace a =>b.c v1.0.0;|Grammar(2)
read|go 1.21.0;go 1.22.0;|Twice(2)
read|module example.com/a;go 1.21beta2;|more
read|module example.com/a;go 1;|GoVersion(2)
read|module example.com/a;go \"1.20\";|more
read|\"module;|Lex(1)
read|module `example.com/a;`;|Lex(1)
read|module \"example.com/\\a\";|bare
read|module example.com/a//x;|bare
read|module example.com/a\r;\r;go 1.21\r;|more
read|module example.com/a // \u{1};|bare
read|module example.com/a\u{7f};|Lex(1)
read|module example.com/a\u{0};|Lex(1)
read|module\texample.com/a\u{c};|Lex(1)
read|module example.com/a;toolchain go1.21.0;|more
read|module example.com/a;;toolchain go1.21.0;|more
read|module example.com/a;toolchain go1.21.0;toolchain go1.21.0;|Twice(3)
read|module example.com/a;tool example.com/x/cmd;|more
read|module example.com/a;\"tool\" example.com/x/cmd;|Grammar(2)
read|module example.com/a;tool a b;|Grammar(2)
read|module example.com/a;godebug a=b;|more
read|module example.com/a;ignore ./x;|more
read|module example.com/a;bogus a;|Unknown(2)
read|module example.com/a;toolchain default // as it comes;|more
read|module example.com/a;toolchain `go1.24.1`;|more
read|module example.com/a;toolchain \"\";|more
read|module example.com/a;toolchain;|Grammar(2)
read|module example.com/a;toolchain go1.21.0 local;|Grammar(2)
read|module example.com/a;toolchain =>;|Grammar(2)
read|module example.com/a;toolchain (;|Grammar(2)
read|module example.com/a;toolchain (;go1.21.0;);|Grammar(2)
read|module example.com/a;\"toolchain\" go1.21.0;|Grammar(2)
read|toolchain go1.21.0;toolchain (;|Twice(2)
read|toolchain go1.21.0;toolchain;|Twice(2)
read|toolchain go1.21.0;go 1.21;module example.com/a;|more
read|toolchain go1.21.0;go 1.21;go 1.21;|Twice(3)
read|toolchain go1.21.0;|NoModule
read|module example.com/a;tool;|Grammar(2)
read|module example.com/a;tool ( );|Grammar(2)
read|module example.com/a;tool [x];|Grammar(2)
read|module example.com/a;tool x;tool x;tool (;);tool (;x // again;\"x\";``;);|more
read|module example.com/a;tool (;a b;);|Grammar(3)
read|module example.com/a;tool (;;tool x;);|Grammar(4)
read|module example.com/a;tool (;x);|Grammar(3)
read|module example.com/a;tool (;x;|Grammar(4)
read|module example.com/a;godebug a = b;|Grammar(2)
read|module example.com/a;godebug a=>b;|more
read|module example.com/a;godebug (;\"default=go1.21\" // the default;;\tpanicnil=1;);|more
read|module example.com/a;godebug (;panicnil=1, x=2;);|Grammar(3)
read|module example.com/a;ignore ./a b;|Grammar(2)
read|module example.com/a;ignore (;./node_modules;static;\"a b\";);ignore .;|more
read|module example.com/a;ignore (;{;);|Lex(3)
read|module example.com/a;Tool x;|Unknown(2)
read|module example.com/a;tools (;x;);|Unknown(2)
read|module example.com/a;godebug=1;|Unknown(2)
read|module example.com/a;retract [v1.0.0, v1.1.0];|more
read|module example.com/a;retract [v1.0.0, v1.1.0] x;|Grammar(2)
read|module example.com/a;retract [v1.0.0, v1.1.0] x y z {;|Lex(2)
read|module example.com/a;replace a v1.0.0 => b.c v1.0.0;|more
read|module example.com/a;replace a v1.0.0 => b.c v1.0.0 x;|Grammar(2)
read|module example.com/a;replace (;a v1.0.0 => b.c v1.0.0 x y;);|Grammar(3)
read|module example.com/a;bogus 1 2 3 4 5 6 7;|Unknown(2)
read|go 1.21;go 1 2 3 4 5 6 7;|Twice(2)
read|module example.com/a|bare
read|// A library.;;module \"example.com/a\" // alone;|bare
read|// x;module (;example.com/a;);|bare
read|module example.com/a;require (;);|more
read|go 1.21;module example.com/a|more
read|tool x;module example.com/a|more
read|module example.com/a;godebug default=go1.21;|more
read|module example.com/a;ignore (;);|more
read|module ÿ|Utf8
line|module ÿ|0
line||0
line|;;;;;;bogus a|7
parentheses||Grammar(1)
parentheses|{|Lex(1)
";

/// Returns `bare` or `more` for a text that can be read as a go.mod, and its fault for any other.
fn read(alloc: Global, text: &[u8]) -> Result<String, AllocError> {
    match GoMod::read(alloc, text) {
        Ok(module) if module.is_bare() => String::from_str(alloc, "bare"),
        Ok(_) => String::from_str(alloc, "more"),
        Err(fault) => format!(in alloc; "{fault:?}"),
    }
}

/// Returns the line of the fault of a text.
fn line(alloc: Global, text: &[u8]) -> Result<String, AllocError> {
    let fault = GoMod::read(alloc, text).err();
    format!(in alloc; "{}", fault.unwrap_or(GoModFault::Memory).line())
}

/// Makes the call of a row, and returns its result as a text.
pub fn given(alloc: Global, row: &str) -> Result<String, AllocError> {
    let mut text = bytes(alloc, column(row, 1))?;
    match column(row, 0) {
        "line" => line(alloc, &text),
        "parentheses" => {
            let mut many = b"(".repeat(alloc, 100_000)?;
            many.extend_from_slice(&text)?;
            read(alloc, &many)
        }
        _ => read(alloc, &text),
    }
}
