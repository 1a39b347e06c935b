//! The orders of versions, and the keys whose bytes have these orders. (SemVer 2.0.0, section 11; Go Modules Reference,
//! "Versions".)
use crate::rows::{column, versions_of};
use modver::{Version, compare, order_key, rank_compare, rank_key};
use std::alloc::{AllocError, Global};
use std::cmp::Ordering;
use std::test::Fail;

/// - `precedence` and `rank`: versions in ascending order.
/// - `equal`: versions of one precedence.
/// - `keys`: a version; the front of its rank key, before the order key; and its order key. Bytes are in hexadecimal.
///
/// Each version is compared with each, and so are their keys. The first list is the standard's. The next two show
/// numbers of any length, and each field of an order key: the numbers byte by byte, the kind of an identifier, its
/// digits, its letters, where it ends, whether more follow, and whether there is one. The list of `rank` shows each
/// class, and then stamps or precedence.
pub const ROWS: &str = "\
precedence|v1.0.0-alpha v1.0.0-alpha.1 v1.0.0-alpha.beta v1.0.0-beta v1.0.0-beta.2 v1.0.0-beta.11 v1.0.0-rc.1 v1.0.0 \
    v2.0.0 v2.1.0 v2.1.1|true
precedence|v1.0.0-999999999999999999999999999999999999999999999999999999999999999999999999999999999999999999999999999 \
    v1.0.0-1000000000000000000000000000000000000000000000000000000000000000000000000000000000000000000000000000 \
    v1.0.0-9999999999999999999999999999999999999999999999999999999999999999999999999999999999999999999999999999 \
    v1.0.0-rc.2 v1.0.0-rc.10 v1.0.0|true
precedence|v0.0.0-0 v0.0.0 v0.0.255 v0.0.256 v0.255.65536 v0.256.0 v1.0.0-9 v1.0.0-9.0 v1.0.0-10 v1.0.0-- v1.0.0-0a \
    v1.0.0-Z v1.0.0-a v1.0.0-rc v1.0.0-rc.1 v1.0.0-rc.1.0 v1.0.0-rc.a v1.0.0-rc-1 v1.0.0-rcz v1.0.0 v1.0.1-0 \
    v72057594037927935.0.0 v72057594037927936.0.0 v18446744073709551615.0.0|true
rank|v0.0.1-0.20230101000000-bbbbbbbbbbbb v0.0.0-20240101000000-aaaaaaaaaaaa v0.0.0-20240101000000-aaaaaaaaaaab \
    v0.0.1-0.20240101000000-aaaaaaaaaaaa v0.0.0-20240230000000-aaaaaaaaaaaa v1.0.0-0.20230101000000-bbbbbbbbbbbb \
    v1.0.0-rc.2 v1.0.0-rc.10 v0.9.0 v1.0.0|true
equal|v2.0.0-rc.1 v2.0.0-rc.1+incompatible|true
keys|v1.0.0|03|0000000000000001 0000000000000000 0000000000000000 03|true
keys|v1.0.0-rc.10|02|0000000000000001 0000000000000000 0000000000000000 02 7263 00 01 02 3130 00|true
keys|v1.0.0-2|02|0000000000000001 0000000000000000 0000000000000000 01 01 32 00|true
keys|v1.0.0-10|02|0000000000000001 0000000000000000 0000000000000000 01 02 3130 00|true
keys|v1.0.0-rc|02|0000000000000001 0000000000000000 0000000000000000 02 7263 00 00|true
keys|v1.0.0-rc.1|02|0000000000000001 0000000000000000 0000000000000000 02 7263 00 01 01 31 00|true
keys|v1.0.0-0A.-.0|02|0000000000000001 0000000000000000 0000000000000000 02 3041 00 02 2d 00 01 01 30 00|true
keys|v2.0.0+incompatible|03|0000000000000002 0000000000000000 0000000000000000 03|true
keys|v2.0.0-rc+incompatible|02|0000000000000002 0000000000000000 0000000000000000 02 7263 00 00|true
keys|v18446744073709551615.72623859790382856.256|03|ffffffffffffffff 0102030405060708 0000000000000100 03|true
keys|v0.0.0-20240101000000-aaaaaaaaaaaa|01 3230323430313031303030303030|\
    000000000000000000000000000000000000000000000000 02 3230323430313031303030303030 2d 616161616161616161616161 00 00|\
    true
keys|v0.0.1-0.20191109021931-daa7c04131f5|01 3230313931313039303231393331|\
    0000000000000000 0000000000000000 0000000000000001 01 01 30 02 3230313931313039303231393331 2d \
    646161376330343133316635 00 00|true
";

/// Returns how the call compares two versions.
fn order_of(call: &str, left: &Version, right: &Version) -> Ordering {
    if call == "rank" {
        rank_compare(left, right)
    } else {
        compare(left, right)
    }
}

/// Returns the key of a version whose bytes have the order of the call.
fn key_of(alloc: Global, call: &str, version: &Version) -> Result<Vec<u8>, AllocError> {
    if call == "rank" {
        rank_key(alloc, version)
    } else {
        order_key(alloc, version)
    }
}

/// Returns how two versions compare, or `None` if their keys compare differently.
fn compared(
    alloc: Global,
    call: &str,
    left: &Version,
    right: &Version,
) -> Result<Option<Ordering>, AllocError> {
    let keys = key_of(alloc, call, left)?.cmp(&key_of(alloc, call, right)?);
    let order = order_of(call, left, right);
    Ok(if order == keys { Some(order) } else { None })
}

/// Whether the versions of a row compare as their positions in the row do, or for `equal` whether they are equal.
fn are_ordered(alloc: Global, row: &str) -> Result<bool, Fail> {
    let call = column(row, 0);
    let list = versions_of(alloc, column(row, 1))?;
    for (index, left) in list.iter().enumerate() {
        for (other, right) in list.iter().enumerate() {
            let wanted = if call == "equal" {
                Ordering::Equal
            } else {
                index.cmp(&other)
            };
            if compared(alloc, call, left, right)? != Some(wanted) {
                return Ok(false);
            }
        }
    }
    Ok(true)
}

/// Whether these are the bytes that words write in hexadecimal.
fn is_written(alloc: Global, bytes: &[u8], words: &str) -> Result<bool, Fail> {
    let wanted = words.replace(alloc, " ", "")?;
    Ok(hex::encode(alloc, bytes)?.as_str() == wanted.as_str())
}

/// Whether the version of a row has the keys of the row.
fn has_keys(alloc: Global, row: &str) -> Result<bool, Fail> {
    let version = Version::parse(alloc, column(row, 1))?;
    let rank = rank_key(alloc, &version)?;
    let order = order_key(alloc, &version)?;
    let (front, back) = rank.split_at(rank.len().saturating_sub(order.len()));
    Ok(
        back == order.as_slice()
            && is_written(alloc, front, column(row, 2))?
            && is_written(alloc, back, column(row, 3))?,
    )
}

/// Whether the versions of a row compare, or their keys are, as it says.
pub fn given(alloc: Global, row: &str) -> Result<String, Fail> {
    let holds = if column(row, 0) == "keys" {
        has_keys(alloc, row)?
    } else {
        are_ordered(alloc, row)?
    };
    Ok(format!(in alloc; "{holds}")?)
}
