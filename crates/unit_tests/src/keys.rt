//! Keys of files and paths of modules.

use just_value::Steps;
use modules_compilation::{Modulepath, Table, folder_from, is_clean, key_from};
use std::alloc::{AllocError, Global};
use std::test::Fail;

/// Whether each path names that key in that file; `-` stands for none.
fn are_keys(alloc: Global, rows: &[(&str, &str, &str)]) -> Result<bool, AllocError> {
    for (file, path, want) in rows {
        let key = key_from(alloc, file, path)?;
        if key.as_deref().unwrap_or("-") != *want {
            return Ok(false);
        }
    }
    Ok(true)
}

#[test]
fn keys_of_paths(rt: HostRuntime) -> Result<(), Fail> {
    const ROWS: &[(&str, &str, &str)] = &[
        ("justfile", "a", "a"),
        ("a/b/c", "../d", "a/d"),
        ("a/b/c", "../../../d", "-"),
        ("a/b/c", "..//./d/.", "a/d"),
        ("/a/b", "../c", "/c"),
        ("/a/b", "../../c", "-"),
        ("~/a/b", "../c", "~/c"),
        ("~/b", "../c", "-"),
        ("a/b", "/c//d", "/c//d"),
        ("a/b", "~/../d", "~/../d"),
        ("a/b", "~x", "a/~x"),
        ("a/b", "..", "-"),
        ("a/b", "", "a"),
    ];
    assert!(rt; are_keys(rt.alloc(), ROWS)?);
    Ok(())
}

#[test]
fn clean_paths(rt: HostRuntime) {
    const CLEAN: &[&str] = &["a", "a/b", "...", "a/.b"];
    const OTHERS: &[&str] = &["", "/", "/a", "a/", "a//b", ".", "..", "a/./b", "a/.."];
    assert!(rt; CLEAN.iter().all(|path| is_clean(path)));
    assert!(rt; !OTHERS.iter().any(|path| is_clean(path)));
}

/// The path that the words write, or `-`.
fn path(alloc: Global, words: &[&str]) -> Result<String, AllocError> {
    match Modulepath::try_from(alloc, words)? {
        Some(path) => path.to_string(alloc),
        None => String::from_str(alloc, "-"),
    }
}

/// Whether the words write each path; `-` stands for none.
fn are_paths(alloc: Global, rows: &[(&[&str], &str)]) -> Result<bool, AllocError> {
    for (words, want) in rows {
        let found = path(alloc, words)?;
        if found.as_str() != *want {
            return Ok(false);
        }
    }
    Ok(true)
}

#[test]
fn paths_of_modules(rt: HostRuntime) -> Result<(), Fail> {
    const ROWS: &[(&[&str], &str)] = &[
        (&["foo::bar"], "foo::bar"),
        (&["foo", "bar"], "foo::bar"),
        (&["foo-1", "_b"], "foo-1::_b"),
        (&[], ""),
        (&[""], "-"),
        (&["::"], "-"),
        (&["foo::"], "-"),
        (&["::foo"], "-"),
        (&["a:b"], "-"),
        (&["a:::b"], "-"),
        (&["1a"], "-"),
        (&["-a"], "-"),
        (&["a", "b c"], "-"),
        (&["a", "b::c"], "-"),
    ];
    assert!(rt; are_paths(rt.alloc(), ROWS)?);
    Ok(())
}

/// Whether the path names that folder in that file.
fn is_folder(
    alloc: Global,
    file: &str,
    path: &str,
    want: Option<&str>,
) -> Result<bool, AllocError> {
    let folder = folder_from(alloc, file, path)?;
    Ok(folder.as_deref() == want)
}

#[test]
fn folders(rt: HostRuntime) -> Result<(), Fail> {
    let alloc = rt.alloc();
    assert!(rt; is_folder(alloc, "a/b", "..", Some(""))?);
    assert!(rt; is_folder(alloc, "a/b", "c", Some("a/c/"))?);
    assert!(rt; is_folder(alloc, "a", "..", None)?);
    Ok(())
}

/// A table in which `b` stands twice, the later value over the earlier.
fn table(alloc: Global) -> Result<Table<'static, u8>, Fail> {
    let mut table = Table::new(alloc);
    table.insert("b", 1u8)?;
    table.insert("a", 2u8)?;
    table.insert("b", 3u8)?;
    Ok(table)
}

#[test]
fn tables(rt: HostRuntime) -> Result<(), Fail> {
    let mut table = table(rt.alloc())?;
    assert_eq!(rt; table.len(), 2);
    assert_eq!(rt; table.get("b").copied(), Some(3u8));
    assert_eq!(rt; table.pop(), Some(("a", 2u8)));
    Ok(())
}

/// A table of `a`, `c` and `e`.
fn letters(alloc: Global) -> Result<Table<'static, u8>, Fail> {
    let mut table = Table::new(alloc);
    table.insert("c", 1u8)?;
    table.insert("e", 2u8)?;
    table.insert("a", 3u8)?;
    Ok(table)
}

/// Whether the key's place is that, found by two comparisons at most.
fn is_place(table: &Table<'static, u8>, key: &str, want: Result<usize, usize>) -> bool {
    let mut steps = Steps { taken: 0 };
    table.position(key, &mut steps) == want && steps.taken <= 2
}

#[test]
fn places_in_tables(rt: HostRuntime) -> Result<(), Fail> {
    let table = letters(rt.alloc())?;
    assert!(rt; is_place(&table, "c", Ok(1)));
    assert!(rt; is_place(&table, "d", Err(2)));
    assert!(rt; is_place(&table, "f", Err(3)));
    Ok(())
}

#[test]
fn key_put_in_again(rt: HostRuntime) -> Result<(), Fail> {
    let mut table = letters(rt.alloc())?;
    assert_eq!(rt; table.insert("c", 4u8)?, Some(1u8));
    assert_eq!(rt; table.len(), 3);
    assert_eq!(rt; table.get("c").copied(), Some(4u8));
    Ok(())
}
