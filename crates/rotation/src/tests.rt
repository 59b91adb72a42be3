// The worked rows of the age rule, and pages in a row.

use crate::{Home, Turner, least, needs_rotation};
use std::test::Fail;

#[test]
fn the_age_rule(rt: HostRuntime) -> Result<(), Fail> {
    let rows = [
        (1, 2, 1, false),
        (1, 3, 1, true),
        (0, 1, 7, true),
        (0, 0, 7, false),
        (5, 9, 0, false),
        (4294967295, 4294967295, 1, false),
        (0, 5, 0, false),
    ];
    for (version, latest, age, due) in rows {
        assert_eq!(rt; needs_rotation(version, latest, age), due);
    }
    Ok(())
}

#[test]
fn the_first_page_that_is_due(rt: HostRuntime) -> Result<(), Fail> {
    let homes = [
        Home::Clean(0),
        Home::Unused,
        Home::Clean(3),
        Home::Dirty,
        Home::Clean(1),
        Home::Clean(0),
    ];
    let mut turner = Turner::new();
    assert_eq!(rt; turner.next(&homes, 3, 1), Some(4));
    assert_eq!(rt; turner.next(&homes, 2, 1), Some(5));
    assert_eq!(rt; turner.next(&homes, 9, 1), Some(2));
    assert_eq!(rt; turner.next(&homes, 9, 0), None);
    assert_eq!(rt; turner.next(&homes[..2], 9, 1), None);
    Ok(())
}

#[test]
fn the_least_version(rt: HostRuntime) -> Result<(), Fail> {
    let homes = [
        Home::Clean(0),
        Home::Unused,
        Home::Clean(3),
        Home::Clean(2),
        Home::Clean(7),
    ];
    assert_eq!(rt; least(&homes), Some(2));
    assert_eq!(rt; least(&homes[..3]), Some(3));
    assert_eq!(rt; least(&homes[..2]), None);
    assert_eq!(rt; least(&[]), None);
    Ok(())
}
