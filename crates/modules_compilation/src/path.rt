//! Paths between files. A key is a text of parts with `/` between them, below one folder for all;
//! before the parts it may begin with `/` or `~/`.
ghost use Rattle.std.specs.Prelude.{◌≡◌, ◌∷◌, ◌++◌, [], IfOk, MatchOption, None, Some, if◌then◌else◌};
ghost use Rattle.std.specs.Option.{option_and_then, option_map};
ghost use Rattle.std.specs.String.{string_bytes};
ghost use Rattle.modules_compilation.specs.Paths as spec;
ghost use Rattle.modules_compilation.specs.Paths.{but_last, components, walk};
ghost use Rattle.modules_compilation.specs.Tables.{texts};

use std::alloc::{AllocError, Global};

/// Whether the text can be a part of a key: not empty, and neither `.` nor `..`.
fn is_part(text: &str) -> bool
    ensures { result ≡ spec.is_part text.now }
{
    !(text.is_empty() || text == "." || text == "..")
}

/// Whether the path has one or more parts with `/` between them, none of which is empty, `.` or
/// `..`.
pub fn is_clean(path: &str) -> bool
    ensures { result ≡ spec.is_clean path.now }
{
    let mut rest = path;
    while let Some((part, others)) = rest.split_once('/') {
        if !is_part(part) {
            return false;
        }
        rest = others;
    }
    is_part(rest)
}

/// What a text begins with before its parts: `/`, `~/` or nothing.
fn front(text: &str) -> &'static str
    ensures { result.now ≡ spec.front text.now }
{
    let bytes = text.as_bytes();
    if bytes.starts_with(b"/") {
        "/"
    } else if bytes.starts_with(b"~/") {
        "~/"
    } else {
        ""
    }
}

/// What stands after the front of a text.
fn behind_front(text: &str) -> &str
    ensures { result.now ≡ spec.behind_front text.now }
{
    match text.strip_prefix(front(text)) {
        Some(rest) => rest,
        None => text,
    }
}

/// Whether the path begins with `/` or `~/`.
fn stands_alone(path: &str) -> bool
    ensures { result ≡ spec.stands_alone path.now }
{
    !front(path).is_empty()
}

/// Goes on to a component of a path: an empty one and `.` change nothing, `..` takes the last part
/// off, and any other is put after the others. False where `..` finds no part to take off.
fn enter<'a>(parts: &mut Vec<&'a str>, component: &'a str) -> Result<bool, AllocError>
    ensures { IfOk result (λ entered. spec.enter (texts parts.old.items) component.now ≡ (if entered then Some (texts parts.new.items) else None)) }
{
    if component.is_empty() || component == "." {
        return Ok(true);
    }
    if component == ".." {
        return Ok(parts.pop().is_some());
    }
    parts.push(component)?;
    Ok(true)
}

/// Goes on to all components of a text but its last, which is the answer; none where `..` finds no
/// part to take off.
fn enter_folder<'a>(parts: &mut Vec<&'a str>, text: &'a str) -> Result<Option<&'a str>, AllocError>
    ensures folder { IfOk result (λ last. walk (texts parts.old.items) (but_last (components text.now)) ≡ option_map (λ _. texts parts.new.items) last) }
    ensures whole { IfOk result (λ last. walk (texts parts.old.items) (components text.now) ≡ option_and_then (λ component. spec.enter (texts parts.new.items) component.now) last) }
{
    let mut rest = text;
    while let Some((component, others)) = rest.split_once('/') {
        if !enter(parts, component)? {
            return Ok(None);
        }
        rest = others;
    }
    Ok(Some(rest))
}

/// Goes on to all components of a text. False where `..` finds no part to take off.
fn enter_all<'a>(parts: &mut Vec<&'a str>, text: &'a str) -> Result<bool, AllocError>
    ensures { IfOk result (λ entered. walk (texts parts.old.items) (components text.now) ≡ (if entered then Some (texts parts.new.items) else None)) }
{
    match enter_folder(parts, text)? {
        Some(last) => enter(parts, last),
        None => Ok(false),
    }
}

/// The parts of the path from the file's folder on, after the file's front; none where it rises
/// above that.
fn parts_from<'a>(
    alloc: Global,
    file: &'a str,
    path: &'a str,
) -> Result<Option<Vec<&'a str>>, AllocError>
    ensures { IfOk result (λ parts. option_map (λ p. texts p.items) parts ≡ spec.parts_from file.now path.now) }
{
    let mut parts = Vec::new(alloc);
    if enter_folder(&mut parts, behind_front(file))?.is_none() {
        return Ok(None);
    }
    if enter_all(&mut parts, path)? {
        Ok(Some(parts))
    } else {
        Ok(None)
    }
}

/// The parts after the front, a `/` after each.
fn folder_text(alloc: Global, front: &str, parts: &[&str]) -> Result<String, AllocError>
    ensures { IfOk result (λ text. string_bytes text ≡ spec.folder_text front.now (texts parts.now)) }
{
    let mut text = String::from_str(alloc, front)?;
    for part in parts {
        text.push_str(part)?;
        text.push_str("/")?;
    }
    Ok(text)
}

/// The parts after the front, a `/` between two.
fn key_text(alloc: Global, front: &str, parts: &[&str]) -> Result<Option<String>, AllocError>
    ensures { IfOk result (λ text. option_map string_bytes text ≡ spec.key_text front.now (texts parts.now)) }
{
    let Some((last, others)) = parts.split_last() else {
        return Ok(None);
    };
    let mut text = folder_text(alloc, front, others)?;
    text.push_str(last)?;
    Ok(Some(text))
}

/// The key that a path names in the file with this key. A path that begins with `/` or `~/` names the
/// key of exactly that text. Another is joined to the file's folder: its empty parts and `.` are
/// dropped, and `..` takes the part before it off. It names no key where it rises above the folder
/// for all, or above the front of the file's key, and where no part is left.
pub fn key_from(alloc: Global, file: &str, path: &str) -> Result<Option<String>, AllocError>
    ensures { IfOk result (λ key. option_map string_bytes key ≡ spec.key_from file.now path.now) }
{
    if stands_alone(path) {
        return Ok(Some(String::from_str(alloc, path)?));
    }
    match parts_from(alloc, file, path)? {
        Some(parts) => key_text(alloc, front(file), parts.as_slice()),
        None => Ok(None),
    }
}

/// The folder that a path names in the file with this key, as the text before a name in it: a `/`
/// stands after each part. It is found as `key_from` finds a key, but may have no part.
pub fn folder_from(alloc: Global, file: &str, path: &str) -> Result<Option<String>, AllocError>
    ensures { IfOk result (λ folder. option_map string_bytes folder ≡ spec.folder_from file.now path.now) }
{
    if stands_alone(path) {
        return Ok(Some(format!(in alloc; "{path}/")?));
    }
    match parts_from(alloc, file, path)? {
        Some(parts) => Ok(Some(folder_text(alloc, front(file), parts.as_slice())?)),
        None => Ok(None),
    }
}
