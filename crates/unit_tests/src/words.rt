//! Words by what they are for.

use crate::tokens::texts;
use just_text::Text;
use just_value::{Override, Positional};
use std::alloc::Global;
use std::process::Abort;
use std::test::Fail;

fn write_overrides(text: &mut String, overrides: &[Override]) -> Result<(), Fail> {
    for pair in overrides {
        let name = &pair.name;
        let value = &pair.value;
        write!(text, "[{name}={value}]")?;
    }
    Ok(())
}

fn write_arguments(text: &mut String, arguments: &[Text]) -> Result<(), Fail> {
    for argument in arguments {
        write!(text, "({argument})")?;
    }
    Ok(())
}

/// Overrides in brackets, the search directory in angles, arguments in parentheses.
fn told(alloc: Global, positional: &Positional) -> Result<String, Fail> {
    let mut text = String::new(alloc);
    write_overrides(&mut text, positional.overrides.as_slice())?;
    if let Some(directory) = &positional.search_directory {
        write!(text, "<{directory}>")?;
    }
    write_arguments(&mut text, positional.arguments.as_slice())?;
    Ok(text)
}

fn gives(alloc: Global, words: &str, want: &str) -> Result<bool, Fail> {
    let words = texts(alloc, words)?;
    let positional = Positional::from_values(alloc, words.as_slice())?;
    Ok(told(alloc, &positional)?.as_str() == want)
}

/// Holds the words to what is told of them.
fn tell(rt: &impl Abort, alloc: Global, rows: &[(&str, &str)]) -> Result<(), Fail> {
    for (words, want) in rows {
        assert!(rt; gives(alloc, words, want)?, "{words:?}");
    }
    Ok(())
}

#[test]
fn overrides_come_first(rt: HostRuntime) -> Result<(), Fail> {
    const ROWS: &[(&str, &str)] = &[
        ("foo=bar;bar=foo;.;garnor;", "[foo=bar][bar=foo]<.>(garnor)"),
        ("foo=bar;/;garnor;", "[foo=bar]</>(garnor)"),
        ("=x;", "[=x]"),
        ("a/b=c;", "[a/b=c]"),
        ("a=b=c;", "[a=b=c]"),
    ];
    tell(&rt, rt.alloc(), ROWS)
}

#[test]
fn a_search_directory_is_told(rt: HostRuntime) -> Result<(), Fail> {
    const ROWS: &[(&str, &str)] = &[
        ("the-dir/;baz;", "<the-dir/>(baz)"),
        ("..;a=b;", "<..>(a=b)"),
        ("x/y;", "<x/>(y)"),
        ("x/y/z;.;", "<x/y/>(z)(.)"),
    ];
    tell(&rt, rt.alloc(), ROWS)
}

#[test]
fn all_words_behind_an_argument_are_arguments(rt: HostRuntime) -> Result<(), Fail> {
    const ROWS: &[(&str, &str)] = &[
        ("baz;foo=bar;bar/;", "(baz)(foo=bar)(bar/)"),
        (";a=b;", "()(a=b)"),
        ("", ""),
    ];
    tell(&rt, rt.alloc(), ROWS)
}
