//! The rules of team names and keys.
ghost use Rattle.std.specs.Prelude.{◌≡◌};
ghost use Rattle.std.specs.List.{list_all};
ghost use Rattle.world.specs.Names as spec;

/// The shelf that every shelf sees.
pub const COMMON: &str = "common";

/// Whether the name has 1 to 32 bytes of `a-z0-9-`, begins with a letter, and is not `common`.
pub fn is_team_name(name: &str) -> bool
    ensures { result ≡ spec.is_team_name name.now }
{
    let bytes = name.as_bytes();
    bytes.len() <= 32 && begins_lower(bytes) && all_name_bytes(bytes) && name != COMMON
}

/// Whether the key has 16 to 64 bytes of `a-z0-9`.
pub fn is_key(key: &str) -> bool
    ensures { result ≡ spec.is_key key.now }
{
    let bytes = key.as_bytes();
    16 <= bytes.len() && bytes.len() <= 64 && all_key_bytes(bytes)
}

fn begins_lower(bytes: &[u8]) -> bool
    ensures { result ≡ spec.begins_lower bytes.now }
{
    match bytes {
        [] => false,
        [first, ..] => is_lower(*first),
    }
}

fn is_lower(byte: u8) -> bool
    ensures { result ≡ spec.is_lower byte }
{
    97 <= byte && byte <= 122
}

fn is_key_byte(byte: u8) -> bool
    ensures { result ≡ spec.is_key_byte byte }
{
    is_lower(byte) || (48 <= byte && byte <= 57)
}

fn is_name_byte(byte: u8) -> bool
    ensures { result ≡ spec.is_name_byte byte }
{
    is_key_byte(byte) || byte == b'-'
}

fn all_key_bytes(bytes: &[u8]) -> bool
    ensures { result ≡ list_all spec.is_key_byte bytes.now }
{
    bytes.iter().all(|b| is_key_byte(*b))
}

fn all_name_bytes(bytes: &[u8]) -> bool
    ensures { result ≡ list_all spec.is_name_byte bytes.now }
{
    bytes.iter().all(|b| is_name_byte(*b))
}
