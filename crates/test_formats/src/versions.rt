//! Versions, their classes, times, and the paths that they fit. (Go Modules Reference, "Versions" and
//! "Pseudo-versions".)
use crate::rows::column;
use modpath::{LoosePath, ModulePath, suffix};
use modver::{
    Bound, Class, Version, class, compare_bounds, fits, fits_loose, fits_suffix, read_time,
};
use std::alloc::{AllocError, Global};
use std::test::Fail;

/// - `version`: a text, and the class of the version that it writes, or the time of a pseudo-version, or the fault of
///   the text.
/// - `time`: a text, and the time that it writes or its fault.
/// - `copy`: a version, its copy, and whether the copy is marked `+incompatible`.
/// - `bounds`: two versions, and how a copy of the bound of the first compares with the bound of the second.
/// - `fits`, `fits_suffix` and `fits_loose`: a path, a version, and whether the version fits the path.
pub const ROWS: &str = "\
version|1.0.0|Form
version|v1.0|Form
version|v01.0.0|Form
version|v1.0.0-01|Form
version|v18446744073709551616.0.0|Form
version|v0.18446744073709551616.0|Form
version|v0.0.18446744073709551616|Form
version|v18446744073709551615.18446744073709551615.18446744073709551615|release
version||Form
version|v|Form
version|V1.0.0|Form
version|v1.0.0-|Form
version|v1.0.0-a..b|Form
version|v1.0.0-é|Form
version|v1.0.0+|Form
version|v1.0.0+meta|Build
version|v1.0.0+Incompatible|Build
version|v1.0.0+incompatible.1|Build
version|v1.0.0+incompatible|release
version|v1.0.0-0A.01a.-|pre
version|v1.0.0-9999999999999999999999999999999999999999999999999999999999999999999999999999999999999999999999999999|pre
version|v1.0.0-aaaaaaaaaaaaaaaaaaaaaaaaaaaaaaaaaaaaaaaaaaaaaaaaaaaaaaaaaaaaaaaaaaaaaaaaaaaaaaaaaaaaaaaaaaaaaaaaaaaaaaaa\
    aaaaaaaaaaaaaaaaa|pre
version|v1.0.0-aaaaaaaaaaaaaaaaaaaaaaaaaaaaaaaaaaaaaaaaaaaaaaaaaaaaaaaaaaaaaaaaaaaaaaaaaaaaaaaaaaaaaaaaaaaaaaaaaaaaaaaa\
    aaaaaaaaaaaaaaaaaa|TooLong
version|xxxxxxxxxxxxxxxxxxxxxxxxxxxxxxxxxxxxxxxxxxxxxxxxxxxxxxxxxxxxxxxxxxxxxxxxxxxxxxxxxxxxxxxxxxxxxxxxxxxxxxxxxxxxxxx\
    xxxxxxxxxxxxxxxxxx|TooLong
version|v1.0.0+mmmmmmmmmmmmmmmmmmmmmmmmmmmmmmmmmmmmmmmmmmmmmmmmmmmmmmmmmmmmmmmmmmmmmmmmmmmmmmmmmmmmmmmmmmmmmmmmmmmmmmmm\
    mmmmmmmmmmmmmmmmmm|TooLong
version|v1.2.3|release
version|v2.0.0+incompatible|release
version|v1.2.3-pre|pre
version|v0.0.0-20191109021931-daa7c04131f5|2019-11-09T02:19:31Z
version|v3.0.0-20191109021931-daa7c04131f5+incompatible|2019-11-09T02:19:31Z
version|v0.0.1-20191109021931-daa7c04131f5|pre
version|v0.1.0-20191109021931-daa7c04131f5|pre
version|v1.2.4-0.20191109021931-daa7c04131f5|2019-11-09T02:19:31Z
version|v1.2.0-0.20191109021931-daa7c04131f5|pre
version|v1.2.4-1.20191109021931-daa7c04131f5|pre
version|v1.2.3-pre.0.20191109021931-daa7c04131f5|2019-11-09T02:19:31Z
version|v1.2.0-0.0.20191109021931-daa7c04131f5|2019-11-09T02:19:31Z
version|v1.2.3-pre.1.20191109021931-daa7c04131f5|pre
version|v1.2.3-0.pre.20191109021931-daa7c04131f5|pre
version|v0.0.0-2019110902193-daa7c04131f5|pre
version|v0.0.0-20191109021931-daa7c04131f|pre
version|v0.0.0-20191109021931-daa7c04131f55|pre
version|v0.0.0-20191109021931-DAA7C04131F5|pre
version|v0.0.0-20191109021931-daa7c04131fg|pre
version|v0.0.0-20191109021931.daa7c04131f5|pre
version|v0.0.0-20240230000000-aaaaaaaaaaaa|pre
version|v1.0.0-0.20230101000000-bbbbbbbbbbbb|pre
version|v0.0.0-20240229000000-aaaaaaaaaaaa|2024-02-29T00:00:00Z
version|v0.0.0-20000229000000-aaaaaaaaaaaa|2000-02-29T00:00:00Z
version|v0.0.0-19000229000000-aaaaaaaaaaaa|pre
version|v0.0.0-00000101000000-aaaaaaaaaaaa|0000-01-01T00:00:00Z
version|v0.0.0-99991231235959-aaaaaaaaaaaa|9999-12-31T23:59:59Z
version|v0.0.0-20241301000000-aaaaaaaaaaaa|pre
version|v0.0.0-20240100000000-aaaaaaaaaaaa|pre
version|v0.0.0-20240101240000-aaaaaaaaaaaa|pre
version|v0.0.0-20240101006000-aaaaaaaaaaaa|pre
version|v0.0.0-20240101000060-aaaaaaaaaaaa|pre
time|2024-02-29T23:59:59Z|2024-02-29T23:59:59Z
time|0000-01-01T00:00:00Z|0000-01-01T00:00:00Z
time|2023-02-29T00:00:00Z|Date
time|2024-01-01T24:00:00Z|Date
time|2024-01-01T00:60:00Z|Date
time|2024-01-01T00:00:60Z|Date
time|2024-13-01T00:00:00Z|Date
time|2024-00-01T00:00:00Z|Date
time|2024-04-31T00:00:00Z|Date
time|2024-01-00T00:00:00Z|Date
time|2024-1-01T00:00:00Z|Form
time|2024-01-01t00:00:00Z|Form
time|2024-01-01T00:00:00z|Form
time|2024-01-01T00:00:00+00:00|Form
time|2024-01-01T00:00:00.0Z|Form
time|2024-01-01 00:00:00Z|Form
time||Form
copy|v2.0.0-rc.1+incompatible|v2.0.0-rc.1+incompatible true
copy|v2.0.0+incompatible|v2.0.0+incompatible true
copy|v2.0.0-rc.1|v2.0.0-rc.1 false
copy|v0.12.3|v0.12.3 false
bounds|v1.0.0|v1.0.0-rc.1|Greater
bounds|v1.0.0-rc.1|v1.0.0-rc.1|Equal
bounds|v2.0.0+incompatible|v2.0.0|Equal
bounds|v1.2.3|v1.10.0|Less
fits|example.com/lib|v0.1.0|true
fits|example.com/lib|v1.0.0|true
fits|example.com/lib|v2.0.0|false
fits|example.com/lib|v1.0.0+incompatible|false
fits|example.com/lib|v2.0.0+incompatible|true
fits|example.com/lib|v2.0.0-rc.1+incompatible|true
fits|example.com/lib/v2|v2.0.0-rc.1+incompatible|false
fits|example.com/lib/v2|v2.0.0|true
fits|example.com/lib/v2|v1.0.0|false
fits|example.com/lib/v2|v3.0.0|false
fits|gopkg.in/yaml.v0|v0.8.0|true
fits|gopkg.in/yaml.v0|v1.0.0|false
fits|gopkg.in/yaml.v1|v1.0.0|true
fits|gopkg.in/yaml.v1|v0.8.0|false
fits|gopkg.in/yaml.v1|v0.0.0|false
fits|gopkg.in/yaml.v1|v0.0.0-20160105164936-4f90aeace3a2|true
fits|gopkg.in/yaml.v2|v0.0.0-20160105164936-4f90aeace3a2|false
fits|gopkg.in/yaml.v2|v2.1.5|true
fits|gopkg.in/yaml.v2|v2.1.5+incompatible|false
fits_suffix|example.com/lib/v2|v2.0.0|true
fits_suffix|example.com/lib/v2|v3.0.0|false
fits_loose|mymod|v0.0.0|true
fits_loose|mymod|v2.0.0|false
fits_loose|mymod|v2.0.0+incompatible|true
fits_loose|mymod/v2|v2.0.0|true
fits_loose|mymod/v2|v1.0.0|false
fits_loose|gopkg.in/yaml.v1|v0.0.0-20160105164936-4f90aeace3a2|true
";

/// Returns the class of a version, or the time of a pseudo-version.
fn shown(alloc: Global, version: &Version) -> Result<String, AllocError> {
    match class(version) {
        Class::Release => String::from_str(alloc, "release"),
        Class::Pre => String::from_str(alloc, "pre"),
        Class::Pseudo(time) => String::from_str(alloc, time.as_str()),
    }
}

/// Returns what `shown` says of the version that a text writes, or the fault of the text.
fn version(alloc: Global, text: &str) -> Result<String, AllocError> {
    match Version::parse(alloc, text) {
        Ok(version) if version.as_str() == text => shown(alloc, &version),
        Ok(_) => String::from_str(alloc, "another text"),
        Err(fault) => format!(in alloc; "{fault:?}"),
    }
}

/// Returns the text of a time, or the fault of a text that is not a time.
fn time(alloc: Global, text: &str) -> Result<String, AllocError> {
    match read_time(text) {
        Ok(time) => String::from_str(alloc, time.as_str()),
        Err(fault) => format!(in alloc; "{fault:?}"),
    }
}

/// Returns the text of the copy of a version, and whether the copy is marked.
fn copy(alloc: Global, text: &str) -> Result<String, Fail> {
    let copy = Version::parse(alloc, text)?.copy(alloc)?;
    Ok(format!(in alloc; "{} {}", copy.as_str(), copy.is_marked())?)
}

/// Returns how the copy of a bound compares with another bound.
fn bounds(alloc: Global, row: &str) -> Result<String, Fail> {
    let left = Bound::parse(alloc, column(row, 1))?.copy(alloc)?;
    let right = Bound::parse(alloc, column(row, 2))?;
    Ok(format!(in alloc; "{:?}", compare_bounds(&left, &right))?)
}

/// Whether a version fits a path, the suffix of a path, or a loose path.
fn fit(alloc: Global, row: &str) -> Result<bool, Fail> {
    let version = Version::parse(alloc, column(row, 2))?;
    let text = column(row, 1);
    match column(row, 0) {
        "fits" => Ok(fits(&ModulePath::parse(alloc, text)?, &version)),
        "fits_suffix" => {
            let path = ModulePath::parse(alloc, text)?;
            Ok(fits_suffix(suffix(&path), version.bound()))
        }
        _ => Ok(fits_loose(&LoosePath::parse(alloc, text)?, &version)),
    }
}

/// Makes the call of a row, and returns its result as a text.
pub fn given(alloc: Global, row: &str) -> Result<String, Fail> {
    let text = column(row, 1);
    match column(row, 0) {
        "version" => Ok(version(alloc, text)?),
        "time" => Ok(time(alloc, text)?),
        "copy" => copy(alloc, text),
        "bounds" => bounds(alloc, row),
        _ => Ok(format!(in alloc; "{}", fit(alloc, row)?)?),
    }
}
