//! Lists by their texts.

use just_text::Text;
use just_value::List;
use std::alloc::{AllocError, Global};
use std::test::Fail;

/// The numbers from 1 on, listed with that word, or between backticks.
fn listed(alloc: Global, which: &str, numbers: &[u64]) -> Result<String, AllocError> {
    match which {
        "and" => List::and(numbers).to_string(alloc),
        "or" => List::or(numbers).to_string(alloc),
        "`and`" => List::and_ticked(numbers).to_string(alloc),
        _ => List::or_ticked(numbers).to_string(alloc),
    }
}

fn lists_to(alloc: Global, which: &str, numbers: &[u64], want: &str) -> Result<bool, AllocError> {
    Ok(listed(alloc, which, numbers)?.as_str() == want)
}

#[test]
fn lists_are_printed(rt: HostRuntime) -> Result<(), Fail> {
    const ROWS: &[(&str, &[u64], &str)] = &[
        ("and", &[], ""),
        ("and", &[1], "1"),
        ("and", &[1, 2], "1 and 2"),
        ("and", &[1, 2, 3, 4], "1, 2, 3, and 4"),
        ("or", &[1, 2, 3], "1, 2, or 3"),
        ("`or`", &[1, 2, 3], "`1`, `2`, or `3`"),
        ("`and`", &[1, 2], "`1` and `2`"),
    ];
    for (which, numbers, want) in ROWS {
        assert!(rt;
            lists_to(rt.alloc(), which, numbers, want)?,
            "{which} of {numbers:?}"
        );
    }
    Ok(())
}

/// Whether the text alone is listed between backticks.
fn is_ticked(alloc: Global, text: &str, want: &str) -> Result<bool, AllocError> {
    let texts = [Text::from_text(alloc, text)?];
    Ok(
        List::and_ticked(texts.as_slice())
            .to_string(alloc)?
            .as_str()
            == want,
    )
}

#[test]
fn texts_are_listed(rt: HostRuntime) -> Result<(), Fail> {
    assert!(rt; is_ticked(rt.alloc(), "x", "`x`")?);
    Ok(())
}
