//! What requests ask for. (Go Modules Reference, "GOPROXY protocol".)
use crate::rows::bytes;
use std::alloc::{AllocError, Global};
use std::test::Fail;
use wire::{Memory, Resource, RouteTable, Target, target};

/// A method and a target, and what they ask for: the word, the key, the path and the version; `-` for an unreadable
/// target.
pub const ROWS: &str = "\
GET /k/key/example.com/lib/@v/v1.0.0.info|info key example.com/lib v1.0.0
GET /k/key/example.com/lib/@v/v1.0.0.mod|mod key example.com/lib v1.0.0
GET /k/key/example.com/lib/@v/v1.0.0.zip|zip key example.com/lib v1.0.0
GET /k/key/example.com/lib/@v/list|list key example.com/lib
GET /k/key/example.com/lib/@latest|latest key example.com/lib
GET /k/key/-/modules|modules key
GET /k/key/example.com%2Flib/%40v/v1.0.0.mod|mod key example.com/lib v1.0.0
GET /k/key/example.com/lib%2f%40latest|latest key example.com/lib
GET /k/key/example.com/!lib/@v/%6Cist|list key example.com/Lib
GET /k/key/-/mod%75les|modules key
GET /k/key/example.com/%21lib/@v/v1.0.0.mod|mod key example.com/Lib v1.0.0
GET /k/key/example.com/!lib/@v/v1.0.0-!r!c.mod|mod key example.com/Lib v1.0.0-RC
GET /k/key/example.com/lib/@v/v2.0.0%2Bincompatible.mod|mod key example.com/lib v2.0.0+incompatible
GET /k/key/example.com/lib/@v/v2.0.0+incompatible.info|info key example.com/lib v2.0.0+incompatible
GET /k/key/example.com/lib/@v/v1.0.0-a.info|info key example.com/lib v1.0.0-a
GET /k/key/example.com/lib/@v/v1.0.0-a.info.info|info key example.com/lib v1.0.0-a.info
GET /k/key/example.com/lib/@v/v1.0.0-a.mod.zip|zip key example.com/lib v1.0.0-a.mod
GET /k/key/example.com/lib/@v/v1.0.0-list.mod|mod key example.com/lib v1.0.0-list
GET /k/%2D/example.com/lib/@v/v1.0.0.mod|mod %2D example.com/lib v1.0.0
GET /k/-/-/modules|modules -
GET /k/key/example.com/Lib/@v/v1.0.0.mod|-
GET /k/key/example.com/!1/@v/v1.0.0.mod|-
GET /k/key/example.com/%2521lib/@v/v1.0.0.mod|-
GET /k/key/example.com/lib%2/@v/v1.0.0.mod|-
GET /k/key/example.com/lib/@v/v1.0.mod|-
GET /k/key/example.com/lib/@v/v1.0.0|-
GET /k/key/example.com/lib/@v/v1.0.0.mod?x|-
GET /k/key/example.com/lib/@v/v1.0.0+meta.mod|-
GET /k/key/example.com/lib/@v/list.info|-
GET /k/key/example.com/lib/@v/List|-
GET /k/key/example.com/lib/@v/|-
GET /k/key/example.com/lib/@v/.info|-
GET /k/key/example.com/lib/@latest/|-
GET /k/key/example.com/lib/@latest?x|-
GET /k/key/example.com/lib/list|-
GET /k/key/example/lib/@latest|-
GET /k/key/@latest|-
GET /k/key//@v/list|-
GET /k/key/@v/v1.0.0.mod|-
GET /k/key//example.com/lib/@v/v1.0.0.mod|-
GET /k//example.com/lib/@v/v1.0.0.mod|-
GET /k//-/modules|-
GET http://h/k/key/example.com/lib/@v/v1.0.0.mod|-
GET /k/key/example.com/l%ffb/@v/v1.0.0.mod|-
GET /k/key/-/modules%ff|-
GET /k/key|-
GET /k/key/|-
GET /k/key/-|-
GET /k/key/-/|-
GET /k/key/-/modules/|-
GET /k/key/-/modules?x|-
GET /k/key/-/%2Fmodules|-
GET /k/key/-%2Fmodules|-
GET /k/key/%2D/modules|-
GET /k/key/%2Fmodules|-
GET /k/key/modules|-
GET /k/key/-/example.com/lib/@latest|-
GET /k/key/-/gosum/example.com/lib/@v/v1.0.0|sum key example.com/lib v1.0.0
GET /k/key/-/gosum%2Fexample.com/!lib/%40v/v1.0.0-a.mod|sum key example.com/Lib v1.0.0-a.mod
GET /k/key/-/gosum/example.com/lib/@v/v2.0.0%2Bincompatible|sum key example.com/lib v2.0.0+incompatible
GET /k/key/-/gosum/example.com/lib/@v/v1.0.0.mod|-
GET /k/key/-/gosum/example.com/lib/@v/list|-
GET /k/key/-/gosum/example.com/lib/@latest|-
GET /k/key/-/gosum/example.com/Lib/@v/v1.0.0|-
GET /k/key/-/gosum/|-
GET /k/key/-/gosum|-
GET /k/key/-/Gosum/example.com/lib/@v/v1.0.0|-
GET /k/key/-%2Fgosum/example.com/lib/@v/v1.0.0|-
GET /k/key/%2D/gosum/example.com/lib/@v/v1.0.0|-
PUT /k/key/-/gosum/example.com/lib/@v/v1.0.0|-
GET /-/modules|-
PUT /k/key/example.com/!lib/@v/v1.0.0|put key example.com/Lib v1.0.0
PUT /k/key/example.com%2Flib/@v/v1.0.0-a.zip|put key example.com/lib v1.0.0-a.zip
PUT /k/key/example.com/lib/@v/v1.0.0-a.info|put key example.com/lib v1.0.0-a.info
PUT /k/key/example.com/lib/@latest|-
PUT /k/key/example.com/lib/@v/list|-
PUT /k/key/-/modules|-
put /k/key/example.com/lib/@v/v1.0.0|-
get /k/key/example.com/lib/@v/v1.0.0.mod|-
get /k/key/-/modules|-
HEAD /k/key/example.com/lib/@v/v1.0.0.mod|-
 /k/key/example.com/lib/@latest|-
GET /k/kÿ/example.com/lib/@v/v1.0.0.mod|-
";

/// Returns what a resource asks for, as a word.
fn word(resource: &Resource) -> &'static str {
    match resource {
        Resource::Info { .. } => "info",
        Resource::GoMod { .. } => "mod",
        Resource::Zip { .. } => "zip",
        Resource::List { .. } => "list",
        Resource::Latest { .. } => "latest",
        Resource::Modules => "modules",
        Resource::GoSum { .. } => "sum",
    }
}

/// Returns the path of a resource, empty if it names none.
fn path(resource: &Resource) -> &str {
    match resource {
        Resource::Info { path, .. }
        | Resource::GoMod { path, .. }
        | Resource::Zip { path, .. }
        | Resource::List { path }
        | Resource::Latest { path }
        | Resource::GoSum { path, .. } => path.as_str(),
        Resource::Modules => "",
    }
}

/// Returns the version of a resource, empty if it names none.
fn version(resource: &Resource) -> &str {
    match resource {
        Resource::Info { version, .. }
        | Resource::GoMod { version, .. }
        | Resource::Zip { version, .. }
        | Resource::GoSum { version, .. } => version.as_str(),
        Resource::List { .. } | Resource::Latest { .. } | Resource::Modules => "",
    }
}

/// Returns the word, the key, the path and the version of a target, with spaces between them, or `-` if it is
/// unreadable.
fn shown(alloc: Global, target: &Target) -> Result<String, AllocError> {
    match target {
        Target::Unreadable => String::from_str(alloc, "-"),
        Target::Put { key, path, version } => {
            format!(in alloc;
                "put {} {} {}",
                key.as_str(),
                path.as_str(),
                version.as_str()
            )
        }
        Target::Get { key, resource } => {
            format!(in alloc;
                "{} {} {} {}",
                word(resource),
                key.as_str(),
                path(resource),
                version(resource)
            )
        }
    }
}

/// Returns what a request asks for, as a text.
fn asked(
    alloc: Global,
    routes: &mut RouteTable,
    method: &str,
    text: &[u8],
) -> Result<String, Memory> {
    let asked = target(routes, method.as_bytes(), text)?;
    Ok(shown(alloc, &asked)?)
}

/// Returns what the request of a row asks for. It fails if a table of routes gives another answer the second time.
pub fn given(alloc: Global, row: &str) -> Result<String, Fail> {
    let (method, text) = row.split_once(' ').ok_or("no target")?;
    let text = bytes(alloc, text)?;
    let mut routes = RouteTable::new(alloc);
    let first = asked(alloc, &mut routes, method, &text)?;
    let again = asked(alloc, &mut routes, method, &text)?;
    if first.as_str() != again.as_str() {
        return Err(Fail::new("the table of routes answers otherwise the second time"));
    }
    Ok(String::from_str(alloc, first.as_str().trim_end())?)
}
