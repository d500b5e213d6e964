//! Values, operands and attributes, compared by this project's profile of XPath 1.0, 3.4. All answers are worked out by
//! hand.

use super::*;
use acl_model::{Bytes, Cmp, Op, Operand};
use std::alloc::Global;
use std::process::Abort;
use std::test::Fail;

/// A comparison with a whole number.
fn with_number(op: Op, number: i64) -> Cmp {
    Cmp {
        op,
        operand: Operand::Number(number),
    }
}

/// A comparison with a literal.
fn with_text(alloc: Global, op: Op, text: &str) -> Result<Cmp, Fail> {
    let bytes = Bytes::from_slice(alloc, text.as_bytes())?;
    Ok(Cmp {
        op,
        operand: Operand::Text(bytes),
    })
}

/// Asserts the result of a comparison for the whole value, for the value cut in two at each index, and for its bytes
/// fed one by one.
fn assert_answer(rt: &impl Abort, cmp: &Cmp, value: &str, holds: bool) {
    let (bytes, op) = (value.as_bytes(), cmp.op);
    assert_eq!(rt; does_satisfy(cmp, bytes), holds, "'{value}' {op:?}");
    let mut single = begun();
    for (middle, byte) in bytes.iter().enumerate() {
        let first = feed(begun(), &cmp.operand, &bytes[..middle]);
        let both = feed(first, &cmp.operand, &bytes[middle..]);
        assert_eq!(rt;
            is_satisfied(cmp, both),
            holds,
            "'{value}' {op:?}, cut at {middle}"
        );
        single = feed(single, &cmp.operand, &[*byte]);
    }
    assert_eq!(rt;
        is_satisfied(cmp, single),
        holds,
        "'{value}' {op:?}, by its bytes"
    );
}

// A whole number is 1 to 18 digits, with or without a '-' before them, and nothing else.
#[test]
fn a_value_is_a_number_where_it_is_whole(rt: HostRuntime) {
    for (value, number, is_equal) in [
        ("9", 9, true),
        ("9", 8, false),
        ("-9", -9, true),
        ("-9", 9, false),
        ("0", 0, true),
        ("-0", 0, true),
        ("009", 9, true),
        ("000000000000000009", 9, true),
        ("0000000000000000009", 9, false),
        ("999999999999999999", 999_999_999_999_999_999, true),
        ("-999999999999999999", -999_999_999_999_999_999, true),
        ("1000000000000000000", 1_000_000_000_000_000_000, false),
        ("-1000000000000000000", -1_000_000_000_000_000_000, false),
        ("00000000000000000000000009", 9, false),
        ("", 0, false),
        ("-", 0, false),
        ("--1", 1, false),
        ("+1", 1, false),
        ("1-", 1, false),
        (" 9", 9, false),
        ("9 ", 9, false),
        ("12.50", 12, false),
        ("1e3", 1000, false),
        ("nine", 9, false),
    ] {
        let equal = with_number(Op::Eq, number);
        assert_answer(&rt, &equal, value, is_equal);
        let other = with_number(Op::Ne, number);
        assert_answer(&rt, &other, value, !is_equal);
    }
}

#[test]
fn a_value_is_a_literal_where_the_bytes_are_the_same(rt: HostRuntime) -> Result<(), Fail> {
    for (value, literal, is_equal) in [
        ("Rose", "Rose", true),
        ("", "", true),
        ("Ros", "Rose", false),
        ("Roses", "Rose", false),
        ("rose", "Rose", false),
        ("", "Rose", false),
        ("Rose", "", false),
        ("09", "9", false),
        (" Rose", "Rose", false),
    ] {
        let equal = with_text(rt.alloc(), Op::Eq, literal)?;
        assert_answer(&rt, &equal, value, is_equal);
        let other = with_text(rt.alloc(), Op::Ne, literal)?;
        assert_answer(&rt, &other, value, !is_equal);
        let user = Cmp {
            op: Op::Eq,
            operand: Operand::User(Bytes::from_slice(rt.alloc(), literal.as_bytes())?),
        };
        assert_answer(&rt, &user, value, is_equal);
    }
    Ok(())
}

// Where one of the two is not a whole number, neither is less, and they are not equal.
#[test]
fn values_are_ordered_as_numbers(rt: HostRuntime) -> Result<(), Fail> {
    for (value, literal, [less, at_most, greater, at_least]) in [
        ("9", "10", [true, true, false, false]),
        ("10", "9", [false, false, true, true]),
        ("009", "9", [false, true, false, true]),
        ("-2", "-1", [true, true, false, false]),
        ("a", "b", [false, false, false, false]),
        ("9", "b", [false, false, false, false]),
        ("a", "9", [false, false, false, false]),
        ("9.5", "10", [false, false, false, false]),
    ] {
        for (op, holds) in [
            (Op::Lt, less),
            (Op::Le, at_most),
            (Op::Gt, greater),
            (Op::Ge, at_least),
        ] {
            let cmp = with_text(rt.alloc(), op, literal)?;
            assert_answer(&rt, &cmp, value, holds);
        }
    }
    Ok(())
}

// A raw attribute is a name, a space and a type, and perhaps a space and a value.
#[test]
fn an_attribute_counts_by_its_name_and_its_value(rt: HostRuntime) -> Result<(), Fail> {
    for (raw, has_value, is_rose) in [
        ("Id CDATA Rose", true, true),
        ("Id TOKEN Rose", true, true),
        ("Id CDATA ", true, false),
        ("Id CDATA", true, false),
        ("Id", true, false),
        ("Id CDATA  Rose", true, false),
        ("Id CDATA Rose Red", true, false),
        ("Id CDATA IMPLIED", true, false),
        ("Id IMPLIED", false, false),
        ("Id IMPLIED Rose", false, false),
        ("Id  CDATA Rose", true, false),
        ("Id  Rose", true, true),
        ("Ids CDATA Rose", false, false),
        ("I CDATA Rose", false, false),
        ("id CDATA Rose", false, false),
        (" Id CDATA Rose", false, false),
        ("IdCDATA Rose", false, false),
        ("", false, false),
    ] {
        let raw_bytes = raw.as_bytes();
        assert_eq!(rt;
            is_attribute_enough(b"Id", &None, raw_bytes),
            has_value,
            "{raw}"
        );
        let rose = Some(with_text(rt.alloc(), Op::Eq, "Rose")?);
        assert_eq!(rt;
            is_attribute_enough(b"Id", &rose, raw_bytes),
            is_rose,
            "{raw} = 'Rose'"
        );
    }
    Ok(())
}

#[test]
fn one_attribute_of_several_is_enough(rt: HostRuntime) -> Result<(), Fail> {
    let mut attributes = Vec::new(rt.alloc());
    for raw in ["Id CDATA Lily", "Kind CDATA Rose", "Id CDATA 7"] {
        attributes.push(Bytes::from_slice(rt.alloc(), raw.as_bytes())?)?;
    }
    let seven = Some(with_number(Op::Eq, 7));
    let eight = Some(with_number(Op::Eq, 8));
    for (name, cmp, is_enough) in [
        ("Id", &seven, true),
        ("Id", &eight, false),
        ("Id", &None, true),
        ("Kind", &seven, false),
        ("Kind", &None, true),
        ("Name", &None, false),
    ] {
        let found = is_any_attribute_enough(name.as_bytes(), cmp, &attributes);
        assert_eq!(rt; found, is_enough, "{name}");
    }
    assert!(rt; !is_any_attribute_enough(b"Id", &None, &[]));
    Ok(())
}

#[test]
fn any_value_is_enough_without_a_comparison(rt: HostRuntime) {
    assert!(rt; is_enough(&None, b""));
    assert!(rt; is_enough(&Some(with_number(Op::Gt, 8)), b"9"));
    assert!(rt; !is_enough(&Some(with_number(Op::Gt, 9)), b"9"));
}

// A progress is settled once the value differs from the literal and cannot become a whole number.
#[test]
fn a_progress_is_settled_where_no_byte_can_change_it(rt: HostRuntime) -> Result<(), Fail> {
    let rose = with_text(rt.alloc(), Op::Eq, "Rose")?;
    let nine = with_number(Op::Eq, 9);
    for (cmp, value, settled) in [
        (&rose, "", false),
        (&rose, "R", false),
        (&rose, "Rose", false),
        (&rose, "Roses", true),
        (&rose, "Lily", true),
        (&rose, "7", false),
        (&rose, "7s", true),
        (&nine, "", false),
        (&nine, "-", false),
        (&nine, "8", false),
        (&nine, "9 ", true),
        (&nine, "+", true),
        (&nine, "000000000000000009", false),
        (&nine, "0000000000000000009", true),
    ] {
        let progress = feed(begun(), &cmp.operand, value.as_bytes());
        assert_eq!(rt; is_settled(progress), settled, "'{value}'");
        let further = feed(progress, &cmp.operand, b"Rose");
        assert!(rt; !settled || is_settled(further), "'{value}' and more");
    }
    Ok(())
}
