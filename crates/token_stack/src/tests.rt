//! Sets of rules worked out by hand, tag by tag.

ghost use Rattle.std.specs.Prelude.{◌≡◌, ◌≤◌, ◌+◌, length};

use super::*;
use acl_bits::{Piece, Row};
use acl_model::{Axis, Bytes, Name, Path, Rule, Sequence, Sign, Step, Test};
use arrayvec::ArrayVec;
use rule_automata::{Tables, are_within_limits, compile};
use std::alloc::{AllocError, Global};
use std::test::Fail;

const CHILD: Axis = Axis::Child;

const BELOW: Axis = Axis::Descendant;

/// A rule with these steps. The name `*` gives the test for each name.
fn rule(alloc: Global, path: &[(Axis, &str)]) -> Result<Rule, AllocError> {
    let mut steps = Vec::new(alloc);
    for (axis, name) in path {
        let test = if *name == "*" {
            Test::Any
        } else {
            Test::Named(Name::from_slice(alloc, name.as_bytes())?)
        };
        let preds = Sequence::new(alloc);
        steps.push(Step {
            axis: *axis,
            test,
            preds,
        })?;
    }
    Ok(Rule {
        id: Bytes::new(alloc),
        sign: Sign::Grant,
        path: Path {
            steps: Sequence::from_vec(steps),
        },
    })
}

/// The tables of rules, by their steps, over names in the order of their tags.
fn tables_of(alloc: Global, names: &[&str], paths: &[&[(Axis, &str)]]) -> Result<Tables, Fail> {
    let mut all = Vec::new(alloc);
    for name in names {
        all.push(Name::from_slice(alloc, name.as_bytes())?)?;
    }
    let mut rules = Vec::new(alloc);
    for path in paths {
        rules.push(rule(alloc, path)?)?;
    }
    if !are_within_limits(rules.as_slice(), all.as_slice()) {
        return Err("rules past the limits".into());
    }
    Ok(compile(alloc, rules.as_slice(), all.as_slice())?)
}

/// Opens elements with these tags, each in the one before.
fn begin_all(tokens: &mut Tokens, tables: &Tables, tags: &[u16])
    requires tables { length tables.now.states ≡ tokens.old.states }
    requires some { 1 ≤ length tokens.old.levels }
    requires room { length tokens.old.levels + length tags.now ≤ tokens.old.depth + 1 }
    ensures states { tokens.new.states ≡ tokens.old.states }
    ensures depth { tokens.new.depth ≡ tokens.old.depth }
    ensures levels { length tokens.new.levels ≡ length tokens.old.levels + length tags.now }
{
    for tag in tags {
        tokens.begin(tables, *tag);
    }
}

/// The set of these numbers.
fn row(numbers: &[u8]) -> Row {
    let mut row = Row::none();
    for number in numbers {
        row.put(u16::from(*number));
    }
    row
}

// `//Folder`, `//Admin` and `//SSN`, after the starts of Hospital, Folder, Admin and SSN.
#[test]
fn each_open_element_has_the_rules_that_select_it(rt: HostRuntime) -> Result<(), Fail> {
    let tables = tables_of(
        rt.alloc(),
        &["Hospital", "Folder", "Admin", "SSN"],
        &[&[(BELOW, "Folder")], &[(BELOW, "Admin")], &[(BELOW, "SSN")]],
    )?;
    let mut tokens = Tokens::new(rt.alloc(), &tables, 4)?;
    begin_all(&mut tokens, &tables, &[0, 1, 2, 3]);
    for (level, rules) in [&[][..], &[], &[0], &[1], &[2], &[]].iter().enumerate() {
        assert_eq!(rt; tokens.sure(level as u16), row(rules), "level {level}");
        assert_eq!(rt; tokens.may(level as u16), row(rules), "level {level}");
    }
    assert!(rt; tokens.entries() <= 15);
    Ok(())
}

// `/a/b`, `//b`, `//a//a` and `/*/a`, where `a` has an `a` with a `b`, and then a `b` with a dummy.
#[test]
fn steps_go_as_far_as_their_axes(rt: HostRuntime) -> Result<(), Fail> {
    let tables = tables_of(
        rt.alloc(),
        &["a", "b"],
        &[
            &[(CHILD, "a"), (CHILD, "b")],
            &[(BELOW, "b")],
            &[(BELOW, "a"), (BELOW, "a")],
            &[(CHILD, "*"), (CHILD, "a")],
        ],
    )?;
    let mut tokens = Tokens::new(rt.alloc(), &tables, 3)?;
    let mut ahead = Tokens::new(rt.alloc(), &tables, 3)?;
    tokens.begin(&tables, 0);
    let piece = Piece {
        bytes: ArrayVec::new(),
        last: true,
    };
    tokens.attr(&tables, &piece);
    tokens.head_end(&tables);
    ahead.copy_from(&tokens);
    begin_all(&mut ahead, &tables, &[0, 1]);
    ahead.text(&tables, b"x");
    assert_eq!(rt; (ahead.sure(1), ahead.sure(2)), (row(&[]), row(&[2, 3])));
    assert_eq!(rt; ahead.sure(3), row(&[1]));
    ahead.settle(&tables);
    ahead.finish(&tables);
    tokens.learn(&tables, &ahead, 1);
    begin_all(&mut tokens, &tables, &[1, 256]);
    assert_eq!(rt; (tokens.sure(1), tokens.sure(2)), (row(&[]), row(&[0, 1])));
    assert_eq!(rt; tokens.sure(3), row(&[]));
    Ok(())
}

// Twenty steps `//a` over 255 elements `a`, each inside the one before.
#[test]
fn a_state_has_one_entry_at_a_level(rt: HostRuntime) -> Result<(), Fail> {
    let tables = tables_of(rt.alloc(), &["a"], &[&[(BELOW, "a"); 20]])?;
    let mut tokens = Tokens::new(rt.alloc(), &tables, 255)?;
    begin_all(&mut tokens, &tables, &[0; 255]);
    assert!(rt; tokens.entries() <= 256 * 20);
    assert_eq!(rt; (tokens.sure(19), tokens.sure(20)), (row(&[]), row(&[0])));
    assert_eq!(rt; tokens.sure(255), row(&[0]));
    Ok(())
}
