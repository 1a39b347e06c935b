//! Calls of any store, and their answers as texts.
use crate::requests::is_answered;
use crate::rows::{answer_of, call_of, column, named, with_lines};
use modpath::ModulePath;
use modver::{TimeText, Version, read_time};
use std::alloc::Global;
use std::str::from_utf8;
use std::test::Fail;
use world::entry::{EntryRef, Right};
use world::shelves::Shelves;

/// Scripts of calls, with `====` between them, which every store answers alike.
pub const CALLS: &str = "\
group-add|common = Name
group-add|Platform = Name
group-add|platform = Done
group-add|platform = Taken
team-add|platform = Taken
team-add|alpha = Done
group-add|alpha = Taken
team-add|delta|nosuch = NoGroup
team-add|delta|common = NoGroup
team-add|delta|alpha = NoGroup
team-add|delta|delta = NoGroup
team-add|Delta|nosuch = Name
team-add|alpha|nosuch = Taken
key-add|delta|deltakey00000001 = NoTeam
key-add|platform|platformkey00001 = Done
key|platformkey00001 = platform Publishes
reader-add|alpha|platformkey00001 = Taken
team-add|gamma|platform = Done
team-add|delta|gamma = NoGroup
group-add|gamma = Taken
team-add|gamma = Taken
team-add|delta|platform = Done
key-add|delta|deltakey00000001 = Done
key|deltakey00000001 = delta Publishes
====
group-add|platform = Done
versions|gamma|example.com/x = 
latest|gamma|example.com/x = none
paths|gamma = 
insert|platform|example.com/x|v1.1.0|module example.com/x; = ()
insert|common|example.com/x|v1.0.0|module example.com/x; = ()
versions|gamma|example.com/x = v1.0.0;
latest|gamma|example.com/x = v1.0.0
heading|gamma|example.com/x|v1.1.0 = none
count|gamma|example.com/x = 0
team-add|gamma|platform = Done
versions|gamma|example.com/x = v1.0.0;v1.1.0;
latest|gamma|example.com/x = v1.1.0
heading|gamma|example.com/x|v1.1.0 = module example.com/x;|
count|gamma|example.com/x = 0
paths|gamma = example.com/x;
failures = 0
====
group-add|platform = Done
team-add|gamma|platform = Done
team-add|alpha = Done
heading|gamma|example.com/x|v1.0.0 = none
heading|gamma|example.com/x|v1.0.0 = none
entry|alpha|example.com/x|v1.0.0 = none
heading|delta|example.com/x|v1.0.0 = none
latest|gamma|example.com/x = none
latest|gamma|example.com/x = none
versions|gamma|example.com/x = 
heading|gamma|example.com/y|v1.0.0 = none
insert|platform|example.com/x|v1.0.0|module example.com/x; = ()
heading|gamma|example.com/x|v1.0.0 = module example.com/x;|
heading|gamma|example.com/x|v1.1.0 = none
heading|gamma|example.com/x|v1.1.0 = none
heading|gamma|example.com/x|v1.0.0 = module example.com/x;|
heading|alpha|example.com/x|v1.0.0 = none
heading|delta|example.com/x|v1.0.0 = none
latest|gamma|example.com/x = v1.0.0
team-add|delta|platform = Done
heading|delta|example.com/x|v1.0.0 = module example.com/x;|
insert|common|example.com/x|v1.1.0|module example.com/x; = ()
heading|gamma|example.com/x|v1.1.0 = module example.com/x;|
heading|alpha|example.com/x|v1.1.0 = module example.com/x;|
heading|alpha|example.com/x|v1.0.0 = none
heading|gamma|example.com/y|v1.0.0 = none
failures = 0
====
group-add|platform = Done
team-add|gamma|platform = Done
team-add|delta|platform = Done
team-add|alpha = Done
insert|platform|example.com/x|v1.0.0|module example.com/x; = ()
insert|common|example.com/x|v1.1.0|module example.com/x; = ()
versions|gamma|example.com/x = v1.0.0;v1.1.0;
versions|platform|example.com/x = v1.0.0;v1.1.0;
versions|alpha|example.com/x = v1.1.0;
insert|platform|example.com/x|v1.2.0|module example.com/x; = ()
insert|delta|example.com/x|v1.3.0|module example.com/x; = ()
versions|gamma|example.com/x = v1.0.0;v1.1.0;v1.2.0;
versions|delta|example.com/x = v1.0.0;v1.1.0;v1.2.0;v1.3.0;
versions|platform|example.com/x = v1.0.0;v1.1.0;v1.2.0;
versions|alpha|example.com/x = v1.1.0;
latest|gamma|example.com/x = v1.2.0
latest|delta|example.com/x = v1.3.0
latest|alpha|example.com/x = v1.1.0
insert|gamma|example.com/x|v1.4.0|module example.com/x;retract [v1.2.0, v1.4.0]; = ()
latest|gamma|example.com/x = v1.1.0
latest|platform|example.com/x = v1.2.0
count|gamma|example.com/x = 1
count|delta|example.com/x = 1
count|platform|example.com/x = 2
insert|delta|example.com/own|v1.0.0|module example.com/own; = ()
insert|platform|example.com/group|v1.0.0|module example.com/group; = ()
paths|gamma = example.com/group;example.com/x;
paths|delta = example.com/group;example.com/own;example.com/x;
paths|platform = example.com/group;example.com/x;
paths|alpha = example.com/x;
paths|common = example.com/x;
compare|gamma|example.com/x|v1.0.0|module example.com/x; = Same
compare|gamma|example.com/x|v1.0.0|module example.com/x;|zip = Other
compare|gamma|example.com/x|v1.3.0|module example.com/x; = Absent
compare|platform|example.com/x|v1.4.0|module example.com/x; = Absent
compare|alpha|example.com/x|v1.0.0|module example.com/x; = Absent
entry|gamma|example.com/x|v1.0.0 = platform|module example.com/x;||
entry|alpha|example.com/x|v1.0.0 = none
insert|common|example.com/x|v1.0.0|module example.com/x;|zip = ()
entry|gamma|example.com/x|v1.0.0 = platform|module example.com/x;||
entry|alpha|example.com/x|v1.0.0 = common|module example.com/x;|zip|
insert|gamma|example.com/x|v1.0.0|module example.com/x;|own = ()
entry|gamma|example.com/x|v1.0.0 = gamma|module example.com/x;|own|
entry|delta|example.com/x|v1.0.0 = platform|module example.com/x;||
versions|gamma|example.com/x = v1.0.0;v1.1.0;v1.2.0;v1.4.0;
failures = 0
====
team-add|alpha = Done
team-add|alpha = Taken
team-add|common = Name
reader-add|alpha|shortkey1234567 = Name
reader-add|gamma|alphakey00000001 = NoTeam
reader-add|alpha|alphakey00000001 = Done
reader-add|common|alphakey00000001 = Taken
key-revoke|alphakey00000001 = Done
key-revoke|alphakey00000001 = NoKey
reader-add|common|alphakey00000001 = Done
failures = 0
====
key-revoke|alphakey00000001 = NoKey
team-add|alpha = Done
key-add|alpha|alphakey00000001 = Done
key|alphakey00000001 = alpha Publishes
key-revoke|alphakey00000001 = Done
key|alphakey00000001 = none
key-revoke|alphakey00000001 = NoKey
reader-add|common|alphakey00000001 = Done
key|alphakey00000001 = common Reads
failures = 0
====
keys-revoke|alpha = NoTeam
team-add|alpha = Done
keys-revoke|alpha = Done
team-add|beta = Done
key-add|alpha|alphakey00000001 = Done
reader-add|alpha|alphareader00001 = Done
key-add|beta|betakey000000001 = Done
key-add|common|commonkey0000001 = Done
key|alphakey00000001 = alpha Publishes
key|betakey000000001 = beta Publishes
keys-revoke|alpha = Done
key|alphakey00000001 = none
key|alphareader00001 = none
key|betakey000000001 = beta Publishes
key|commonkey0000001 = common Publishes
keys-revoke|gamma = NoTeam
keys-revoke| = NoTeam
keys-revoke|alpha = Done
key-add|beta|alphakey00000001 = Done
keys-revoke|common = Done
key|commonkey0000001 = none
key|alphakey00000001 = beta Publishes
failures = 0
====
team-add|alpha = Done
team-add|beta = Done
insert|alpha|example.com/x|v1.2.0 = ()
insert|alpha|example.com/x|v1.10.0 = ()
insert|alpha|example.com/y|v0.1.0 = ()
insert|beta|example.com/x|v1.9.0 = ()
insert|beta|example.com/c|v1.0.0 = ()
insert|common|example.com/x|v1.2.0 = ()
insert|common|example.com/x|v1.0.0 = ()
insert|common|example.com/a/v2|v2.0.0 = ()
insert|common|example.com/B|v1.0.0 = ()
versions|alpha|example.com/x = v1.0.0;v1.2.0;v1.10.0;
versions|common|example.com/x = v1.0.0;v1.2.0;
count|alpha|example.com/x = 2
paths|alpha = example.com/B;example.com/a/v2;example.com/x;example.com/y;
====
team-add|alpha = Done
count|alpha|example.com/x = 0
insert|alpha|example.com/x|v1.0.0 = ()
count|alpha|example.com/x = 1
insert|common|example.com/x|v1.0.0 = ()
insert|alpha|example.com/x|v1.1.0 = ()
count|common|example.com/x = 1
count|alpha|example.com/y = 0
team-add|beta = Done
key-add|alpha|alphakey00000001 = Done
key-revoke|alphakey00000001 = Done
insert|alpha|example.com/y|v1.0.0 = ()
count|alpha|example.com/x = 2
count|alpha|example.com/y = 1
count|beta|example.com/x = 0
====
team-add|alpha = Done
team-add|beta = Done
insert|alpha|example.com/lib|v1.10.0|module example.com/lib; = ()
insert|alpha|example.com/lib|v1.2.0|module example.com/lib; = ()
insert|common|example.com/lib|v1.2.0|module example.com/lib; = ()
insert|common|example.com/lib|v0.1.0|module example.com/lib; = ()
insert|common|example.com/tool|v1.0.0|module example.com/lib; = ()
insert|beta|example.com/lib|v1.5.0|module example.com/lib; = ()
insert|beta|example.com/own|v1.0.0|module example.com/lib; = ()
versions|alpha|example.com/lib = v0.1.0;v1.2.0;v1.10.0;
latest|alpha|example.com/lib = v1.10.0
latest|common|example.com/lib = v1.2.0
latest|common|example.com/own = none
insert|alpha|example.com/lib|v1.11.0|module example.com/lib;retract [v1.2.0, v1.11.0]; = ()
latest|alpha|example.com/lib = v0.1.0
latest|beta|example.com/lib = v1.5.0
paths|alpha = example.com/lib;example.com/tool;
paths|common = example.com/lib;example.com/tool;
====
team-add|alpha = Done
versions|alpha|example.com/lib = 
latest|alpha|example.com/lib = none
insert|alpha|example.com/lib|v1.0.0|module example.com/lib; = ()
insert|common|example.com/tool|v1.0.0|module example.com/tool; = ()
versions|alpha|example.com/lib = v1.0.0;
versions|alpha|example.com/lib = v1.0.0;
versions|beta|example.com/lib = 
versions|alpha|example.com/tool = v1.0.0;
versions|common|example.com/tool = v1.0.0;
latest|alpha|example.com/lib = v1.0.0
latest|alpha|example.com/lib = v1.0.0
team-add|beta = Done
key-add|beta|betakey000000001 = Done
key-revoke|betakey000000001 = Done
versions|alpha|example.com/lib = v1.0.0;
insert|common|example.com/lib|v1.1.0|module example.com/lib; = ()
versions|alpha|example.com/lib = v1.0.0;v1.1.0;
versions|beta|example.com/lib = v1.1.0;
versions|common|example.com/lib = v1.1.0;
latest|alpha|example.com/lib = v1.1.0
insert|alpha|example.com/lib|v1.2.0|module example.com/lib;retract [v1.1.0, v1.2.0]; = ()
latest|alpha|example.com/lib = v1.0.0
latest|beta|example.com/lib = v1.1.0
versions|alpha|example.com/lib = v1.0.0;v1.1.0;v1.2.0;
versions|beta|example.com/lib = v1.1.0;
versions|beta|example.com/tool = v1.0.0;
versions|alpha|example.com/tool = v1.0.0;
failures = 0
====
insert|common|example.com/x|v1.0.0|module example.com/x;|zip|2024-02-29T23:59:59Z = ()
entry|alpha|example.com/x|v1.0.0 = common|module example.com/x;|zip|2024-02-29T23:59:59Z
insert|common|example.com/lib|v1.0.0|module example.com/lib;||2024-02-29T12:34:56Z = ()
insert|common|example.com/lib|v1.1.0|module example.com/lib; = ()
entry|common|example.com/lib|v1.0.0 = common|module example.com/lib;||2024-02-29T12:34:56Z
entry|common|example.com/lib|v1.1.0 = common|module example.com/lib;||
====
team-add|alpha = Done
insert|common|example.com/x|v1.0.0|module example.com/x;|zip|2024-02-29T23:59:59Z = ()
insert|alpha|example.com/x|v1.0.0|module \"example.com/x\";|zip|2024-02-29T23:59:59Z = ()
heading|alpha|example.com/x|v1.0.0 = module \"example.com/x\";|2024-02-29T23:59:59Z
heading|beta|example.com/x|v1.0.0 = module example.com/x;|2024-02-29T23:59:59Z
insert|common|example.com/lib|v1.0.0|module example.com/lib; = ()
heading|alpha|example.com/lib|v1.0.0 = module example.com/lib;|
insert|alpha|example.com/lib|v1.0.0|module \"example.com/lib\";||2024-02-29T12:34:56Z = ()
heading|alpha|example.com/lib|v1.0.0 = module \"example.com/lib\";|2024-02-29T12:34:56Z
heading|common|example.com/lib|v1.0.0 = module example.com/lib;|
====
team-add|alpha = Done
compare|alpha|example.com/x|v1.0.0|module example.com/x;|zip|2024-02-29T23:59:59Z = Absent
insert|common|example.com/x|v1.0.0|module example.com/x;|zip|2024-02-29T23:59:59Z = ()
compare|alpha|example.com/x|v1.0.0|module example.com/x;|zip|2024-02-29T23:59:59Z = Same
compare|alpha|example.com/x|v1.0.0|module \"example.com/x\";|zip|2024-02-29T23:59:59Z = Other
compare|alpha|example.com/x|v1.0.0|module example.com/x;|zap|2024-02-29T23:59:59Z = Other
compare|alpha|example.com/x|v1.0.0|module example.com/x;|zip|2024-02-29T23:59:58Z = Other
compare|alpha|example.com/x|v1.0.0|module example.com/x;|zip = Other
compare|alpha|example.com/x|v1.1.0|module example.com/x;|zip = Absent
insert|alpha|example.com/x|v1.0.0|module example.com/x;|own = ()
compare|alpha|example.com/x|v1.0.0|module example.com/x;|zip|2024-02-29T23:59:59Z = Other
compare|alpha|example.com/x|v1.0.0|module example.com/x;|own = Same
compare|common|example.com/x|v1.0.0|module example.com/x;|zip|2024-02-29T23:59:59Z = Same
compare|common|example.com/x|v1.0.0|module example.com/x;|own = Other
failures = 0
";

/// Whether the store answers the row as the row says. A line without columns is a heading, and holds.
fn holds<S: Shelves>(alloc: Global, shelves: &mut S, row: &str) -> Result<bool, Fail> {
    if row.contains(" = ") {
        let wanted = answer_of(alloc, row)?;
        let answer = answered(alloc, shelves, call_of(row))?;
        return Ok(answer.as_str() == wanted.as_str());
    }
    if row.contains('|') {
        return is_answered(alloc, shelves, row);
    }
    Ok(true)
}

/// Runs a script on a store, one row a line, and returns the first row that the store answers otherwise, or the empty
/// text if there is none. A row is a request of `requests`, or a call: its name and its arguments. `key-add` adds a key
/// that publishes, `reader-add` one that reads. `;` stands for a newline in a go.mod.
pub fn wrong_row<'a, S: Shelves>(
    alloc: Global,
    shelves: &mut S,
    script: &'a str,
) -> Result<&'a str, Fail> {
    for row in script.lines() {
        if !holds(alloc, shelves, row)? {
            return Ok(row);
        }
    }
    Ok("")
}

/// Runs a script on a store as [`wrong_row`] does, and then drops the store.
pub fn wrong_row_of<'a, S: Shelves + Drop>(
    alloc: Global,
    mut shelves: S,
    script: &'a str,
) -> Result<&'a str, Fail> {
    wrong_row(alloc, &mut shelves, script)
}

/// Returns the answer to a call.
pub fn answered<S: Shelves>(alloc: Global, shelves: &mut S, call: &str) -> Result<String, Fail> {
    let (first, second) = (column(call, 1), column(call, 2));
    match column(call, 0) {
        "failures" => Ok(named(alloc, Ok(shelves.failures()))?),
        "team-add" => Ok(named(alloc, shelves.team_add(first, given(second)))?),
        "group-add" => Ok(named(alloc, shelves.group_add(first))?),
        "key-add" => Ok(named(alloc, shelves.key_add(first, second, Right::Publishes))?),
        "reader-add" => Ok(named(alloc, shelves.key_add(first, second, Right::Reads))?),
        "key-revoke" => Ok(named(alloc, shelves.key_revoke(first))?),
        "keys-revoke" => Ok(named(alloc, shelves.keys_revoke(first))?),
        "key" => key(alloc, shelves, first),
        "paths" => paths(alloc, shelves, first),
        _ => of_path(alloc, shelves, call),
    }
}

/// Returns the column, or None if it is empty.
fn given(column: &str) -> Option<&str> {
    if column.is_empty() {
        None
    } else {
        Some(column)
    }
}

/// Returns the shelf and the right of a key, or `none`.
fn key<S: Shelves>(alloc: Global, shelves: &mut S, key: &str) -> Result<String, Fail> {
    match shelves.key(key)? {
        Some(holder) => Ok(format!(in alloc; "{} {:?}", holder.shelf.as_str(), holder.right)?),
        None => Ok(String::from_str(alloc, "none")?),
    }
}

fn paths<S: Shelves>(alloc: Global, shelves: &mut S, shelf: &str) -> Result<String, Fail> {
    let lines = shelves.paths(shelf)?.lines(alloc)?;
    Ok(String::from_str(alloc, from_utf8(lines.as_slice())?)?)
}

/// Returns the answer to a call that names a shelf and a path.
fn of_path<S: Shelves>(alloc: Global, shelves: &mut S, call: &str) -> Result<String, Fail> {
    let shelf = column(call, 1);
    let path = ModulePath::parse(alloc, column(call, 2))?;
    match column(call, 0) {
        "count" => Ok(named(alloc, shelves.count(shelf, &path))?),
        "versions" => versions(alloc, shelves, shelf, &path),
        "latest" => latest(alloc, shelves, shelf, &path),
        _ => of_version(alloc, shelves, &path, call),
    }
}

fn versions<S: Shelves>(
    alloc: Global,
    shelves: &mut S,
    shelf: &str,
    path: &ModulePath,
) -> Result<String, Fail> {
    let lines = shelves.versions(shelf, path)?.lines(alloc)?;
    Ok(String::from_str(alloc, from_utf8(lines.as_slice())?)?)
}

fn latest<S: Shelves>(
    alloc: Global,
    shelves: &mut S,
    shelf: &str,
    path: &ModulePath,
) -> Result<String, Fail> {
    match shelves.latest(shelf, path)? {
        Some(version) => Ok(String::from_str(alloc, version.as_str())?),
        None => Ok(String::from_str(alloc, "none")?),
    }
}

/// Returns the answer to a call that also names a version.
fn of_version<S: Shelves>(
    alloc: Global,
    shelves: &mut S,
    path: &ModulePath,
    call: &str,
) -> Result<String, Fail> {
    let shelf = column(call, 1);
    let version = Version::parse(alloc, column(call, 3))?;
    match column(call, 0) {
        "insert" | "compare" => of_entry(alloc, shelves, path, &version, call),
        "entry" => entry(alloc, shelves, shelf, path, &version),
        "heading" => heading(alloc, shelves, shelf, path, &version),
        _ => Ok(String::from_str(alloc, "no such call")?),
    }
}

/// Returns the time in a text, or None if the text is empty. Fails if the text is no time.
fn time_of(text: &str) -> Result<Option<TimeText>, Fail> {
    if text.is_empty() {
        return Ok(None);
    }
    Ok(Some(read_time(text)?))
}

/// Returns the answer to a call that hands in an entry: its go.mod, zip and time follow the version.
fn of_entry<S: Shelves>(
    alloc: Global,
    shelves: &mut S,
    path: &ModulePath,
    version: &Version,
    call: &str,
) -> Result<String, Fail> {
    let shelf = column(call, 1);
    let gomod = with_lines(alloc, column(call, 4))?;
    let entry = EntryRef {
        gomod: gomod.as_bytes(),
        zip: column(call, 5).as_bytes(),
        time: time_of(column(call, 6))?,
    };
    if column(call, 0) == "compare" {
        let standing = shelves.compare(shelf, path, version, &entry);
        return Ok(named(alloc, standing)?);
    }
    let inserted = shelves.insert(shelf, path, version, &entry);
    Ok(named(alloc, inserted)?)
}

/// Returns the shelf, the go.mod, the zip and the time of the entry that a shelf sees, or `none`.
fn entry<S: Shelves>(
    alloc: Global,
    shelves: &mut S,
    shelf: &str,
    path: &ModulePath,
    version: &Version,
) -> Result<String, Fail> {
    let Some(seen) = shelves.entry(shelf, path, version)? else {
        return Ok(String::from_str(alloc, "none")?);
    };
    let entry = seen.entry.as_ref();
    let gomod = from_utf8(entry.gomod)?;
    let zip = from_utf8(entry.zip)?;
    let time = shown_time(&entry.time);
    Ok(format!(in alloc; "{}|{gomod}|{zip}|{time}", seen.shelf.as_str())?)
}

/// Returns the go.mod and the time of the entry that a shelf sees, or `none`.
fn heading<S: Shelves>(
    alloc: Global,
    shelves: &mut S,
    shelf: &str,
    path: &ModulePath,
    version: &Version,
) -> Result<String, Fail> {
    let Some(heading) = shelves.heading(shelf, path, version)? else {
        return Ok(String::from_str(alloc, "none")?);
    };
    let gomod = from_utf8(heading.gomod.as_slice())?;
    let time = shown_time(&heading.time);
    Ok(format!(in alloc; "{gomod}|{time}")?)
}

/// Returns the text of a time, or the empty text if there is none.
fn shown_time(time: &Option<TimeText>) -> &str {
    match time {
        Some(time) => time.as_str(),
        None => "",
    }
}
