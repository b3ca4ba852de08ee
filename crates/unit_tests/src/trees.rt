//! The marks of a body line.

use crate::tokens::token;
use just_text::TokenKind;
use std::test::Fail;
use tree_items::{Fragment, Line};

#[test]
fn reads_marks(rt: HostRuntime) -> Result<(), Fail> {
    let mut fragments = Vec::new(rt.alloc());
    fragments.push(Fragment::Text {
        token: token("@-?@\\", TokenKind::Identifier),
    })?;
    let line = Line { fragments };
    let sigils = line.sigils(false);
    assert!(rt; sigils.quiet && sigils.infallible && !sigils.guard);
    assert!(rt; line.sigils(true).guard);
    assert!(rt; line.is_continuation() && !line.is_comment());
    assert!(rt; line.sigils(true).count() == 3);
    assert!(rt; !line.begins_with_space() && !line.is_shebang());
    Ok(())
}
