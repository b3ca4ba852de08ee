//! Keywords and counts as they are printed.

use just_text::{Count, Keyword};
use std::test::Fail;

#[test]
fn spells_words_with_dashes(rt: HostRuntime) {
    for (keyword, word) in [
        (Keyword::Alias, "alias"),
        (Keyword::DotenvRequired, "dotenv-required"),
        (Keyword::MinimumVersion, "minimum-version"),
        (Keyword::X, "x"),
    ] {
        assert!(rt; keyword.spells(word), "{word}");
        assert!(rt; !keyword.spells("Alias"), "{word}");
    }
}

#[test]
fn prints_one_and_many(rt: HostRuntime) -> Result<(), Fail> {
    let cases = [
        (Count::numbered("argument", 0), "0 arguments"),
        (Count::numbered("argument", 1), "1 argument"),
        (Count::numbered("argument", 12), "12 arguments"),
        (Count::numbered_irregular("alias", "aliases", 1), "1 alias"),
        (
            Count::numbered_irregular("alias", "aliases", 2),
            "2 aliases",
        ),
        (
            Count::unnumbered("environment variable", 1),
            "environment variable",
        ),
        (
            Count::unnumbered("environment variable", 2),
            "environment variables",
        ),
    ];
    for (count, expected) in cases {
        assert_eq!(rt; format!(in rt.alloc(); "{count}")?.as_str(), expected);
    }
    Ok(())
}
