//! Tables of small rules, worked out by hand.

use super::*;
use acl_bits::Row;
use acl_model::{
    Axis, Bytes, Cmp, Name, Op, Operand, Path, Pred, PredStep, Rule, Sequence, Sign, Step, Test,
};
use std::alloc::{AllocError, Global};
use std::test::Fail;

/// Names, in the order of their tags.
fn names(alloc: Global, texts: &[&str]) -> Result<Vec<Name>, AllocError> {
    let mut names = Vec::new(alloc);
    for text in texts {
        names.push(Name::from_slice(alloc, text.as_bytes())?)?;
    }
    Ok(names)
}

/// The test of this name. The name `*` gives the test for each name.
fn test(alloc: Global, name: &str) -> Result<Test, AllocError> {
    if name == "*" {
        return Ok(Test::Any);
    }
    Ok(Test::Named(Name::from_slice(alloc, name.as_bytes())?))
}

/// A rule with these steps.
fn rule(alloc: Global, sign: Sign, path: &[(Axis, &str)]) -> Result<Rule, AllocError> {
    let mut steps = Vec::new(alloc);
    for (axis, name) in path {
        let test = test(alloc, name)?;
        let preds = Sequence::new(alloc);
        steps.push(Step {
            axis: *axis,
            test,
            preds,
        })?;
    }
    Ok(Rule {
        id: Bytes::new(alloc),
        sign,
        path: Path {
            steps: Sequence::from_vec(steps),
        },
    })
}

// The rules are `+ //Folder`, `- /Hospital//*` and `+ /-/x`; the names are Hospital, Folder and `-`.
#[test]
fn a_rule_has_a_state_for_each_step(rt: HostRuntime) -> Result<(), Fail> {
    let alloc = rt.alloc();
    let names = names(alloc, &["Hospital", "Folder", "-"])?;
    let rules = vec![in alloc;
        rule(alloc, Sign::Grant, &[(Axis::Descendant, "Folder")])?,
        rule(
            alloc,
            Sign::Deny,
            &[(Axis::Child, "Hospital"), (Axis::Descendant, "*")]
        )?,
        rule(
            alloc,
            Sign::Grant,
            &[(Axis::Child, "-"), (Axis::Child, "x")]
        )?,
    ]?;
    assert!(rt; are_within_limits(rules.as_slice(), names.as_slice()));
    let tables = compile(alloc, rules.as_slice(), names.as_slice())?;
    let wanted = [
        (Axis::Descendant, TagTest::Only(1), Some(0)),
        (Axis::Child, TagTest::Only(0), None),
        (Axis::Descendant, TagTest::Each, Some(1)),
        (Axis::Child, TagTest::Never, None),
        (Axis::Child, TagTest::Never, Some(2)),
    ];
    assert_eq!(rt; tables.states().len(), wanted.len());
    for (state, (axis, test, ends)) in tables.states().iter().zip(wanted) {
        assert_eq!(rt; *state, State { axis, test, ends });
    }
    let mut denies = Row::none();
    denies.put(1);
    assert_eq!(rt; tables.denies(), denies);
    assert!(rt; tables.grants().has(0) && tables.grants().has(2) && tables.grants().count() == 2);
    assert!(rt; TagTest::Each.does_pass(256) && !TagTest::Never.does_pass(256));
    assert!(rt; TagTest::Only(1).does_pass(1) && !TagTest::Only(1).does_pass(0));
    Ok(())
}

/// A predicate with this path, which asks for nothing else.
fn pred(alloc: Global, path: &[(Axis, &str)]) -> Result<Pred, AllocError> {
    let mut way = Vec::new(alloc);
    for (axis, name) in path {
        way.push(PredStep {
            axis: *axis,
            test: test(alloc, name)?,
        })?;
    }
    Ok(Pred {
        way: Sequence::from_vec(way),
        attribute: None,
        cmp: None,
    })
}

/// The rule `+ //Folder[Act/RPhys = "Ana"]/Admin[@Id][.//b]`.
fn rule_with_predicates(alloc: Global) -> Result<Rule, AllocError> {
    let mut is_ana = pred(alloc, &[(Axis::Child, "Act"), (Axis::Child, "RPhys")])?;
    is_ana.cmp = Some(Cmp {
        op: Op::Eq,
        operand: Operand::Text(Bytes::from_slice(alloc, b"Ana")?),
    });
    let mut has_id = pred(alloc, &[])?;
    has_id.attribute = Some(Name::from_slice(alloc, b"Id")?);
    let has_b = pred(alloc, &[(Axis::Descendant, "b")])?;
    let folder = Step {
        axis: Axis::Descendant,
        test: test(alloc, "Folder")?,
        preds: Sequence::from_vec(vec![in alloc; is_ana]?),
    };
    let admin = Step {
        axis: Axis::Child,
        test: test(alloc, "Admin")?,
        preds: Sequence::from_vec(vec![in alloc; has_id, has_b]?),
    };
    Ok(Rule {
        id: Bytes::new(alloc),
        sign: Sign::Grant,
        path: Path {
            steps: Sequence::from_vec(vec![in alloc; folder, admin]?),
        },
    })
}

/// The bytes of a name, if there is one.
fn name_bytes(name: &Option<Name>) -> Option<&[u8]> {
    match name {
        Some(name) => Some(name.as_slice()),
        None => None,
    }
}

/// The text with which values are compared for equality, if they are.
fn equal_text(cmp: &Option<Cmp>) -> Option<&[u8]> {
    match cmp {
        Some(
            Cmp {
                op: Op::Eq,
                operand: Operand::Text(text),
            },
        ) => Some(text.as_slice()),
        _ => None,
    }
}

// The rules are `- /Folder` and the one above; the names are Folder, Act, RPhys and Admin.
#[test]
fn a_predicate_has_a_state_for_each_suffix(rt: HostRuntime) -> Result<(), Fail> {
    let alloc = rt.alloc();
    let names = names(alloc, &["Folder", "Act", "RPhys", "Admin"])?;
    let rules = vec![in alloc;
        rule(alloc, Sign::Deny, &[(Axis::Child, "Folder")])?,
        rule_with_predicates(alloc)?,
    ]?;
    assert!(rt; are_within_limits(rules.as_slice(), names.as_slice()));
    let tables = compile(alloc, rules.as_slice(), names.as_slice())?;
    assert_eq!(rt; tables.states().len(), 3);
    let step = |axis, test| Some(SuffixStep { axis, test });
    let suffixes = [
        None,
        step(Axis::Child, TagTest::Only(2)),
        step(Axis::Child, TagTest::Only(1)),
        None,
        None,
        step(Axis::Descendant, TagTest::Never),
    ];
    assert_eq!(rt; tables.suffixes().len(), suffixes.len());
    for (suffix, step) in tables.suffixes().iter().zip(suffixes) {
        assert_eq!(rt; suffix.step, step);
    }
    let bearings = [
        (1, 0, 2, None, Some(&b"Ana"[..])),
        (2, 3, 3, Some(&b"Id"[..]), None),
        (2, 4, 5, None, None),
    ];
    assert_eq!(rt; tables.bearings().len(), bearings.len());
    for (bearing, (step, first, whole, attribute, text)) in tables.bearings().iter().zip(bearings) {
        let numbers = (bearing.step, bearing.first, bearing.whole);
        assert_eq!(rt; numbers, (step, first, whole));
        assert_eq!(rt; name_bytes(&bearing.attribute), attribute);
        assert_eq!(rt; equal_text(&bearing.cmp), text);
    }
    assert!(rt; tables.bearings()[1].cmp.is_none() && tables.bearings()[2].cmp.is_none());
    Ok(())
}
