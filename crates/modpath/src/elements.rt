//! The elements of a path, which stand between its slashes. (Go Modules Reference, "Module paths".)

ghost use Rattle.std.specs.List.{list_all, list_any};
ghost use Rattle.std.specs.Prelude.{◌≡◌, ◌==◌};
ghost use Rattle.modpath.specs.Path as Spec;

use crate::fields::cut;
use crate::path::PathFault;

/// Passes if each element of `text` meets the rules of elements. Otherwise it fails with the first
/// rule that the leftmost bad element breaks.
pub fn check_elements(text: &str) -> Result<(), PathFault>
    ensures { result ≡ Spec.elements_check (Spec.elements text.now) }
{
    for element in text.split('/') {
        check_element(element.as_bytes())?;
    }
    Ok(())
}

fn check_element(element: &[u8]) -> Result<(), PathFault>
    ensures { result ≡ Spec.element_check element.now }
{
    if !is_element_text(element) {
        return Err(PathFault::Element);
    }
    if has_dot_end(element) {
        return Err(PathFault::DotEnd);
    }
    let name = stem(element);
    if is_reserved(name) {
        return Err(PathFault::Reserved);
    }
    if has_tilde_number(name) {
        return Err(PathFault::Tilde);
    }
    Ok(())
}

fn is_element_byte(byte: u8) -> bool
    ensures { result ≡ Spec.is_element_byte byte }
{
    byte.is_ascii_alphanumeric() || matches!(byte, b'-' | b'.' | b'_' | b'~')
}

fn is_element_text(element: &[u8]) -> bool
    ensures { result ≡ Spec.is_element_text element.now }
{
    !element.is_empty() && element.iter().all(|byte| is_element_byte(*byte))
}

fn has_dot_end(element: &[u8]) -> bool
    ensures { result ≡ Spec.has_dot_end element.now }
{
    element.first() == Some(&b'.') || element.last() == Some(&b'.')
}

/// The element up to its first dot, or all of it if it has no dot.
fn stem(element: &[u8]) -> &[u8]
    ensures { result.now ≡ Spec.stem element.now }
{
    match element.iter().position(|byte| *byte == b'.') {
        Some(at) => &element[..at],
        None => element,
    }
}

/// Whether `name` is one of the 22 names that Windows reserves, in any case.
fn is_reserved(name: &[u8]) -> bool
    ensures { result ≡ Spec.is_reserved name.now }
{
    is_device(name) || is_port(name)
}

fn is_device(name: &[u8]) -> bool
    ensures { result ≡ Spec.is_device name.now }
{
    same_ignoring_case(name, b"CON")
        || same_ignoring_case(name, b"PRN")
        || same_ignoring_case(name, b"AUX")
        || same_ignoring_case(name, b"NUL")
}

fn is_port(name: &[u8]) -> bool
    ensures { result ≡ Spec.is_port name.now }
{
    if name.is_empty() {
        return false;
    }
    let kind = &name[..name.len() - 1];
    let number = name[name.len() - 1];
    (same_ignoring_case(kind, b"COM") || same_ignoring_case(kind, b"LPT"))
        && b'1' <= number
        && number <= b'9'
}

fn same_ignoring_case(name: &[u8], word: &[u8]) -> bool
    ensures { result ≡ Spec.same_ignoring_case name.now word.now }
{
    name.eq_ignore_ascii_case(word)
}

/// Whether `name` ends with a tilde and one or more digits, as the short names of Windows do.
fn has_tilde_number(name: &[u8]) -> bool
    ensures { result ≡ Spec.has_tilde_number name.now }
{
    let digits = name
        .iter()
        .rev()
        .take_while(|byte| byte.is_ascii_digit())
        .count();
    digits > 0 && digits < name.len() && name[name.len() - digits - 1] == b'~'
}

/// The first element of a path: the text before its first slash, or all of it if it has no slash.
pub fn first_element(text: &[u8]) -> &[u8]
    ensures { result.now ≡ Spec.first_element (Spec.elements text.now) }
{
    match cut(text, b'/') {
        Some((first, _)) => first,
        None => text,
    }
}

/// Whether an element may be the first of a module path: lower-case letters, digits, dots and dashes,
/// with a dot, and no dash in front.
pub fn is_first_element(element: &[u8]) -> bool
    ensures { result ≡ Spec.is_first_element element.now }
{
    has_first_element_bytes(element) && has_dot(element) && element.first() != Some(&b'-')
}

fn is_first_element_byte(byte: u8) -> bool
    ensures { result ≡ Spec.is_first_element_byte byte }
{
    byte.is_ascii_lowercase() || byte.is_ascii_digit() || byte == b'-' || byte == b'.'
}

fn has_first_element_bytes(element: &[u8]) -> bool
    ensures { result ≡ list_all Spec.is_first_element_byte element.now }
{
    element.iter().all(|byte| is_first_element_byte(*byte))
}

fn has_dot(element: &[u8]) -> bool
    ensures { result ≡ list_any (λ b. b == 46) element.now }
{
    element.contains(&b'.')
}
