//! Signs worked out by hand, level by level.

use super::*;
use acl_bits::Row;
use acl_model::Sign;
use std::test::Fail;

/// The set of these numbers.
fn row(numbers: &[u8]) -> Row {
    let mut row = Row::none();
    for number in numbers {
        row.put(u16::from(*number));
    }
    row
}

// The rules are `+ //Folder`, `- //Admin` and `+ //SSN`; the elements Hospital, Folder, Admin and SSN are
// opened in this order.
#[test]
fn the_nearest_level_with_a_rule_decides(rt: HostRuntime) -> Result<(), Fail> {
    let grants = row(&[0, 2]);
    let denies = row(&[1]);
    let mut signs = Signs::new(rt.alloc(), grants, denies, 4)?;
    assert_eq!(rt; (signs.sign(), signs.decider()), (Some(Sign::Deny), None));
    signs.set(1, row(&[]), row(&[]));
    assert_eq!(rt; (signs.sign(), signs.decider()), (Some(Sign::Deny), None));
    signs.set(2, row(&[0]), row(&[0]));
    assert_eq!(rt;
        (signs.sign(), signs.decider()),
        (Some(Sign::Grant), Some(0))
    );
    signs.set(3, row(&[1]), row(&[1]));
    assert_eq!(rt;
        (signs.sign(), signs.decider()),
        (Some(Sign::Deny), Some(1))
    );
    signs.set(4, row(&[2]), row(&[2]));
    assert_eq!(rt;
        (signs.sign(), signs.decider()),
        (Some(Sign::Grant), Some(2))
    );

    // Back at Admin, and then at a sibling of it that no rule selects.
    let mut other = Signs::new(rt.alloc(), grants, denies, 4)?;
    signs.cut(3);
    other.copy_from(&signs);
    assert_eq!(rt;
        (other.sign(), other.decider()),
        (Some(Sign::Deny), Some(1))
    );
    other.set(3, row(&[]), row(&[]));
    assert_eq!(rt;
        (other.sign(), other.decider()),
        (Some(Sign::Grant), Some(0))
    );
    assert_eq!(rt;
        (signs.sign(), signs.decider()),
        (Some(Sign::Deny), Some(1))
    );
    Ok(())
}

/// The sets of an element, and the sign and rule to expect. Its parent is granted by rule 3 alone; rules
/// 0 and 3 grant, and 1 and 4 deny.
struct Case<'a> {
    what: &'a str,
    sure: &'a [u8],
    may: &'a [u8],
    sign: Option<Sign>,
    rule: u16,
}

const CASES: [Case<'static>; 7] = [
    Case {
        what: "nothing",
        sure: &[],
        may: &[],
        sign: Some(Sign::Grant),
        rule: 3,
    },
    Case {
        what: "both signs",
        sure: &[0, 1],
        may: &[0, 1],
        sign: Some(Sign::Deny),
        rule: 1,
    },
    Case {
        what: "two denials",
        sure: &[1, 4],
        may: &[1, 4],
        sign: Some(Sign::Deny),
        rule: 1,
    },
    Case {
        what: "a denial and what may be",
        sure: &[4],
        may: &[0, 1, 4],
        sign: Some(Sign::Deny),
        rule: 4,
    },
    Case {
        what: "a grant beside a possible denial",
        sure: &[0],
        may: &[0, 4],
        sign: None,
        rule: 0,
    },
    Case {
        what: "a grant beside a possible grant",
        sure: &[3],
        may: &[0, 3],
        sign: Some(Sign::Grant),
        rule: 3,
    },
    Case {
        what: "a possible grant",
        sure: &[],
        may: &[0],
        sign: None,
        rule: 3,
    },
];

#[test]
fn what_is_not_settled_is_not_said(rt: HostRuntime) -> Result<(), Fail> {
    for case in &CASES {
        let mut signs = Signs::new(rt.alloc(), row(&[0, 3]), row(&[1, 4]), 2)?;
        signs.set(1, row(&[3]), row(&[3]));
        signs.set(2, row(case.sure), row(case.may));
        assert_eq!(rt; signs.sign(), case.sign, "{}", case.what);
        assert_eq!(rt; signs.decider(), Some(case.rule), "{}", case.what);
    }
    Ok(())
}
