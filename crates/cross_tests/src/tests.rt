//! Compares what tokens and signs say at each element with what the rules mean on the tree.

use super::*;
use acl_bits::Row;
use acl_model::{Axis, Bytes, Doc, Name, Path, Place, Rule, Sequence, Sign, Step, Test};
use acl_outside::NoMemory;
use acl_walk::{Event, TreeWalk, Walk, can_be_walked};
use rule_automata::{Tables, are_within_limits, compile};
use sign_stack::Signs;
use std::alloc::{AllocError, Global};
use std::test::Fail;
use token_stack::Tokens;
use tree_meaning::{Told, explain_tree, selected, sign_at};

/// The most elements that are open at once.
const DEPTH: u16 = 4;

/// The start or the end of an element.
#[derive(Clone, Copy, Debug)]
enum Edge {
    Start(u16),
    End,
}

/// A step to the elements of this name, or to all.
fn step(alloc: Global, axis: Axis, name: Option<&[u8]>) -> Result<Step, AllocError> {
    let test = match name {
        None => Test::Any,
        Some(name) => Test::Named(Name::from_slice(alloc, name)?),
    };
    Ok(Step {
        axis,
        test,
        preds: Sequence::new(alloc),
    })
}

/// A step to one of the names, or to each.
fn some_step(alloc: Global, draws: &mut Draws) -> Result<Step, AllocError> {
    let axis = if draws.below(2) == 0 {
        Axis::Child
    } else {
        Axis::Descendant
    };
    match draws.below(4) {
        0 => step(alloc, axis, Some(b"a")),
        1 => step(alloc, axis, Some(b"b")),
        2 => step(alloc, axis, Some(b"c")),
        _ => step(alloc, axis, None),
    }
}

/// A rule of one to three steps.
fn some_rule(alloc: Global, draws: &mut Draws) -> Result<Rule, AllocError> {
    let mut steps = Vec::new(alloc);
    for _step in 0..draws.below(3) + 1 {
        steps.push(some_step(alloc, draws)?)?;
    }
    let sign = if draws.below(2) == 0 {
        Sign::Grant
    } else {
        Sign::Deny
    };
    Ok(Rule {
        id: Bytes::new(alloc),
        sign,
        path: Path {
            steps: Sequence::from_vec(steps),
        },
    })
}

/// A document and rules, and what the rules mean on it.
#[derive(Drop)]
struct Meaning {
    doc: Doc,
    rules: Vec<Rule>,
    told: Vec<Told>,
    /// The places of all elements, in document order.
    places: Vec<Place>,
}

fn meaning_of(alloc: Global, doc: Doc, rules: Vec<Rule>) -> Result<Meaning, Fail> {
    if rules.len() > 64 {
        return Err("too many rules".into());
    }
    let everywhere = Path {
        steps: Sequence::from_vec(vec![in alloc; step(alloc, Axis::Descendant, None)?]?),
    };
    let places = selected(alloc, &doc, &everywhere)?;
    let told = explain_tree(alloc, &doc, rules.as_slice())?;
    Ok(Meaning {
        doc,
        rules,
        told,
        places,
    })
}

fn does_select(alloc: Global, doc: &Doc, rule: &Rule, place: &[u64]) -> Result<bool, NoMemory> {
    let places = selected(alloc, doc, &rule.path)?;
    Ok(places.iter().any(|other| other.as_slice() == place))
}

/// Whether the set has exactly the rules that select the place.
fn is_row_meant(
    alloc: Global,
    meaning: &Meaning,
    place: &Place,
    row: Row,
) -> Result<bool, NoMemory> {
    for (number, rule) in (0..64u16).zip(meaning.rules.as_slice()) {
        if row.has(number) != does_select(alloc, &meaning.doc, rule, place.as_slice())? {
            return Ok(false);
        }
    }
    Ok(true)
}

/// Whether the sign is that of the place, and the rule is the one that an explanation names, if it has an
/// entry for the place.
fn is_sign_meant(
    alloc: Global,
    meaning: &Meaning,
    place: &Place,
    signs: &Signs,
) -> Result<bool, NoMemory> {
    let sign = sign_at(alloc, &meaning.doc, meaning.rules.as_slice(), place)?;
    for one in meaning.told.as_slice() {
        if one.place.as_slice() == place.as_slice() && signs.decider() != one.rule {
            return Ok(false);
        }
    }
    Ok(signs.sign() == sign)
}

/// The starts and ends of elements as a walk over the document gives them.
fn edges_of(alloc: Global, doc: &Doc, names: &[Name]) -> Result<Vec<Edge>, Fail> {
    if !can_be_walked(doc, names) {
        return Err("no walk".into());
    }
    let mut walk = TreeWalk::new(doc, names);
    let mut spot = walk.new_spot(alloc)?;
    let mut edges = Vec::new(alloc);
    for _event in 0..10_000u16 {
        match walk.next(&mut spot) {
            Ok(Event::Begin { tag, .. }) => edges.push(Edge::Start(tag))?,
            Ok(Event::Finish { .. }) => edges.push(Edge::End)?,
            Ok(Event::End) => return Ok(edges),
            Ok(_) => {}
            Err(_) => return Err("a refusal".into()),
        }
    }
    Err("no end".into())
}

/// Feeds tokens and signs with the starts and ends of a document. Returns whether they are right at each
/// start.
fn is_followed(
    alloc: Global,
    tables: &Tables,
    edges: &[Edge],
    meaning: &Meaning,
) -> Result<bool, NoMemory> {
    let mut tokens = Tokens::new(alloc, tables, DEPTH)?;
    let mut signs = Signs::new(alloc, tables.grants(), tables.denies(), DEPTH)?;
    let mut left = meaning.places.as_slice();
    let mut level = 0;
    for edge in edges {
        match (*edge, left) {
            (Edge::Start(tag), [place, rest @ ..]) if level < DEPTH => {
                tokens.begin(tables, tag);
                level += 1;
                let row = tokens.sure(level);
                signs.set(level, row, tokens.may(level));
                if !is_row_meant(alloc, meaning, place, row)?
                    || !is_sign_meant(alloc, meaning, place, &signs)?
                {
                    return Ok(false);
                }
                left = rest;
            }
            (Edge::End, _) if level > 0 => {
                tokens.finish(tables);
                level -= 1;
                signs.cut(level);
            }
            _ => return Ok(false),
        }
    }
    Ok(level == 0 && left.is_empty())
}

/// Whether tokens and signs are right for one more document with three rules.
fn is_next_followed(alloc: Global, names: &[Name], draws: &mut Draws) -> Result<bool, Fail> {
    let doc = some_document(alloc, draws, DEPTH)?;
    let rules = vec![in alloc;
        some_rule(alloc, draws)?,
        some_rule(alloc, draws)?,
        some_rule(alloc, draws)?,
    ]?;
    if !are_within_limits(rules.as_slice(), names) {
        return Err("rules past the limits".into());
    }
    let tables = compile(alloc, rules.as_slice(), names)?;
    let edges = edges_of(alloc, &doc, names)?;
    let meaning = meaning_of(alloc, doc, rules)?;
    Ok(is_followed(alloc, &tables, edges.as_slice(), &meaning)?)
}

#[test]
fn tokens_and_signs_say_what_the_rules_mean(rt: HostRuntime) -> Result<(), Fail> {
    let alloc = rt.alloc();
    let names = vec![in alloc;
        Name::from_slice(alloc, b"a")?,
        Name::from_slice(alloc, b"b")?,
        Name::from_slice(alloc, b"c")?,
    ]?;
    let mut draws = Draws::from_seed(2004);
    for document in 0..100u16 {
        assert!(rt;
            is_next_followed(alloc, names.as_slice(), &mut draws)?,
            "document {document}"
        );
    }
    Ok(())
}
