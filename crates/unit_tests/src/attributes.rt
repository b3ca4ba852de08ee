//! Names of attributes, and indentations.

use crate::tokens::name;
use std::test::Fail;
use tree_attributes::{Indentation, kind_from_name};
use tree_items::Keyed;

#[test]
fn knows_names(rt: HostRuntime) -> Result<(), Fail> {
    assert!(rt; kind_from_name("no-cd").is_some());
    assert!(rt; kind_from_name("no_cd").is_none());
    assert_eq!(rt; name("x").key(), "x");
    Ok(())
}

#[test]
fn reads_indentations(rt: HostRuntime) -> Result<(), Fail> {
    assert!(rt; "\t".parse::<Indentation>().is_ok());
    assert!(rt; "\t ".parse::<Indentation>().is_err());
    assert!(rt; Indentation::from_text("\t").is_some());
    assert!(rt; Indentation::from_text(" \t").is_none());
    assert_eq!(rt; Indentation::default().as_str(), "    ");
    Ok(())
}
