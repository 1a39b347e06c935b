//! The JSON body of a version and its time.
ghost use Rattle.std.specs.Prelude.{◌≡◌, IfOk, IfSome, OnOk};
ghost use Rattle.modver.specs.SemanticVersion.{IsVersion};
ghost use Rattle.modver.specs.Time.{IsTime};
ghost use Rattle.serde_json.specs.View.{view};
ghost use Rattle.wire.specs.Info.{info_object};
ghost use Rattle.wire.specs.Reply.{info_bytes};

use framing::Memory;
use modver::{TimeText, Version};
use serde_json::{Value, json};
use std::alloc::{AllocError, Global};

/// Returns the JSON object of a version and its time, if it has one. It fails only if memory runs out.
fn info(alloc: Global, version: &Version, time: Option<TimeText>) -> Result<Value, AllocError>
    ensures object { IfOk result (λ value. view value ≡ info_object version.now time) }
    ensures valid { OnOk result (IsVersion version.now × IfSome time IsTime) }
{
    match time {
        Some(time) => { json!(in alloc; {"Time": time.as_str(), "Version": version.as_str()}) }
        None => json!(in alloc; {"Version": version.as_str()}),
    }
}

/// Returns the JSON body of a version and its time, if it has one, such as `{"Version":"v1.0.0"}`. It fails only if
/// memory runs out.
pub fn info_body(
    alloc: Global,
    version: &Version,
    time: Option<TimeText>,
) -> Result<Vec<u8>, Memory>
    ensures { IfOk result (λ body. body.items ≡ info_bytes version.now time) }
{
    let text = info(alloc, version, time)?.to_string(alloc)?;
    Ok(text.into_bytes())
}
