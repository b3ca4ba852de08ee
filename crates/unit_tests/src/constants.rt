//! Constants by their place.

use just_value::constants;
use std::test::Fail;

#[test]
fn constants_are_told(rt: HostRuntime) -> Result<(), Fail> {
    let rows = constants();
    assert_eq!(rt; rows.len(), 29);
    assert_eq!(rt; rows[5].0, "CLEAR");
    assert_eq!(rt; rows[5].1, "\x1bc");
    assert_eq!(rt; rows[13].1, "\x1b[30m");
    assert_eq!(rt; rows[28].0, "BG_WHITE");
    Ok(())
}
