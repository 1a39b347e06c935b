//! The words of go and replace that are neither a module path nor a version: Go versions and file paths.

ghost use Rattle.std.specs.Prelude.{◌≡◌};
ghost use Rattle.std.specs.List.{list_all};
ghost use Rattle.std.specs.Char.{is_ascii_digit};
ghost use Rattle.gomod.specs.GoVersion.{is_decimal, is_tail, is_minor, is_go_version, is_file_path};

fn all_digits(text: &[u8]) -> bool
    ensures { result ≡ list_all is_ascii_digit text.now }
{
    text.iter().all(|b| b.is_ascii_digit())
}

#[tactic(auto, unfolding(crate::specs::GoVersion::is_decimal))]
fn is_decimal(text: &[u8]) -> bool
    ensures { result ≡ is_decimal text.now }
{
    let Some((first, others)) = text.split_first() else {
        return false;
    };
    all_digits(text) && (*first != b'0' || others.is_empty())
}

/// Whether a text may follow the minor number: nothing, a patch, a release candidate or a beta.
#[tactic(auto, unfolding(crate::specs::GoVersion::is_tail))]
fn is_tail(tail: &[u8]) -> bool
    ensures { result ≡ is_tail tail.now }
{
    tail.is_empty()
        || (tail.starts_with(b".".as_slice()) && is_decimal(&tail[1..]))
        || (tail.starts_with(b"rc".as_slice()) && is_decimal(&tail[2..]))
        || (tail.starts_with(b"beta".as_slice()) && is_decimal(&tail[4..]))
}

#[tactic(auto, unfolding(crate::specs::GoVersion::is_minor))]
fn is_minor(rest: &[u8]) -> bool
    ensures { result ≡ is_minor rest.now }
{
    let end = rest
        .iter()
        .position(|b| !b.is_ascii_digit())
        .unwrap_or(rest.len());
    let (minor, tail) = rest.split_at(end);
    is_decimal(minor) && is_tail(tail)
}

/// Whether a text is a Go version, such as `1.21`, `1.21.3`, `1.21rc1` or `1.21beta2`.
#[tactic(auto, unfolding(crate::specs::GoVersion::is_go_version))]
pub(crate) fn is_go_version(text: &[u8]) -> bool
    ensures { result ≡ is_go_version text.now }
{
    let Some(dot) = text.iter().position(|b| *b == b'.') else {
        return false;
    };
    is_decimal(&text[..dot]) && is_minor(&text[dot + 1..])
}

/// Whether a text is a file path: `.` or `..`, or one that begins with `./`, `../` or `/`.
#[tactic(auto, unfolding(crate::specs::GoVersion::is_file_path))]
pub(crate) fn is_file_path(text: &[u8]) -> bool
    ensures { result ≡ is_file_path text.now }
{
    text == b".".as_slice()
        || text == b"..".as_slice()
        || text.starts_with(b"./".as_slice())
        || text.starts_with(b"../".as_slice())
        || text.starts_with(b"/".as_slice())
}
