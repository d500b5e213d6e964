//! Flags worked out by hand from the meaning of a predicate: some target that its steps lead to has a
//! value that is enough (XPath 1.0, 2.4). A document is written as its lines with `;` between them.

use acl_bits::Flags;
use acl_model::{
    Axis, Bytes, Cmp, Doc, Element, Item, Name, Op, Operand, Pred, PredStep, Sequence, Test,
};
use predicate_walk::{PredRef, does_pass, find_truths};
use sqlite_items::{Boxed, Items};
use std::alloc::Global;
use std::test::Fail;

// ---- documents, as lines

#[derive(Drop)]
struct OpenElement {
    name: Name,
    attributes: Vec<Bytes>,
    items: Vec<Item>,
}

/// Adds an item to the innermost open element.
fn add(open: &mut Vec<OpenElement>, item: Item) -> Result<(), Fail> {
    match open.last_mut() {
        Some(around) => around.items.push(item)?,
        None => return Err("nothing is open".into()),
    }
    Ok(())
}

/// The element that an end tag completes.
fn closed(open: OpenElement) -> Element {
    Element {
        name: open.name,
        attributes: Sequence::from_vec(open.attributes),
        items: Items::from_vec(open.items),
    }
}

/// The document of these lines.
fn document(alloc: Global, lines: &str) -> Result<Doc, Fail> {
    let mut open = Vec::new(alloc);
    let mut attributes = Vec::new(alloc);
    for line in lines.split(';') {
        match line.as_bytes() {
            [b'A', raw @ ..] => attributes.push(Bytes::from_slice(alloc, raw)?)?,
            [b'(', name @ ..] => {
                let name = Name::from_slice(alloc, name)?;
                open.push(OpenElement {
                    name,
                    attributes,
                    items: Vec::new(alloc),
                })?;
                attributes = Vec::new(alloc);
            }
            [b'-', text @ ..] => add(&mut open, Item::Text(Bytes::from_slice(alloc, text)?))?,
            _ => {
                let root = closed(open.pop().ok_or("nothing is open")?);
                if open.is_empty() {
                    return Ok(Doc { root });
                }
                add(&mut open, Item::Child(Boxed::new(alloc, root)?))?;
            }
        }
    }
    Err("an element is open".into())
}

// ---- predicates, as text

/// The steps of a text such as `a//b/@c`, and the attribute at its end. A step after `/` is a child,
/// and one after `//` a descendant.
fn steps(alloc: Global, text: &str) -> Result<(Vec<PredStep>, Option<Name>), Fail> {
    let mut steps = Vec::new(alloc);
    let mut attribute = None;
    let mut axis = Axis::Child;
    for piece in text.split('/') {
        match piece.as_bytes() {
            [] => axis = Axis::Descendant,
            [b'@', name @ ..] => attribute = Some(Name::from_slice(alloc, name)?),
            [b'*'] => steps.push(PredStep {
                axis,
                test: Test::Any,
            })?,
            name => {
                let test = Test::Named(Name::from_slice(alloc, name)?);
                steps.push(PredStep { axis, test })?;
            }
        }
        if !piece.is_empty() {
            axis = Axis::Child;
        }
    }
    Ok((steps, attribute))
}

/// A literal between `'`, `USER` for the user Ana, or a number.
fn operand(alloc: Global, text: &str) -> Result<Operand, Fail> {
    match text.as_bytes() {
        [b'\'', literal @ .., b'\''] => Ok(Operand::Text(Bytes::from_slice(alloc, literal)?)),
        b"USER" => Ok(Operand::User(Bytes::from_slice(alloc, b"Ana")?)),
        _ => Ok(Operand::Number(text.parse()?)),
    }
}

/// The text before a comparison, and the comparison.
fn split_comparison<'a>(alloc: Global, text: &'a str) -> Result<(&'a str, Option<Cmp>), Fail> {
    for (sign, op) in [
        ("!=", Op::Ne),
        ("<=", Op::Le),
        (">=", Op::Ge),
        ("=", Op::Eq),
        ("<", Op::Lt),
        (">", Op::Gt),
    ] {
        if let Some((way, after)) = text.split_once(sign) {
            let operand = operand(alloc, after)?;
            return Ok((way, Some(Cmp { op, operand })));
        }
    }
    Ok((text, None))
}

/// The predicate of a text such as `a//b='x'`.
fn predicate(alloc: Global, text: &str) -> Result<Pred, Fail> {
    let (way, cmp) = split_comparison(alloc, text)?;
    let (way, attribute) = steps(alloc, way.strip_prefix('.').unwrap_or(way))?;
    Ok(Pred {
        way: Sequence::from_vec(way),
        attribute,
        cmp,
    })
}

// ---- flags

/// The flags of these predicates at each element of the document.
fn truths_of(alloc: Global, preds: &[Pred], lines: &str) -> Result<Flags, Fail> {
    let mut refs = Vec::new(alloc);
    for pred in preds {
        refs.push(PredRef { pred })?;
    }
    let doc = document(alloc, lines)?;
    Ok(find_truths(alloc, refs.as_slice(), &doc.root)?)
}

/// The same as text: each flag as `1` or `0`.
fn digits_of(alloc: Global, preds: &[Pred], lines: &str) -> Result<String, Fail> {
    let flags = truths_of(alloc, preds, lines)?;
    let mut digits = String::new(alloc);
    for n in 0..flags.len() {
        digits.push_str(if flags.has(n) { "1" } else { "0" })?;
    }
    Ok(digits)
}

/// The lines of this many elements, each inside the one before, with a text in the innermost.
fn nested(alloc: Global, name: &str, depth: usize, text: &str) -> Result<String, Fail> {
    let mut lines = String::new(alloc);
    for _ in 0..depth {
        lines.push_str(format!(in alloc; "({name};")?.as_str())?;
    }
    lines.push_str(format!(in alloc; "-{text}")?.as_str())?;
    for _ in 0..depth {
        lines.push_str(format!(in alloc; ";){name}")?.as_str())?;
    }
    Ok(lines)
}

/// The texts are 1, 2, .. 7, in document order.
const MIXED: &str = "(r;-1;(n;-2;)n;-3;(n;-4;(m;-5;)m;-6;)n;-7;)r";

/// An `a` inside an `a`, both with a `b`.
const NESTED: &str = "(a;(a;(b;-y;)b;)a;(b;-x;)b;)a";

/// The second `b` has an attribute `id` without a value.
const ATTRIBUTES: &str = "Aid CDATA 7;(a;Aid CDATA 8;Akind TOKEN x;(b;)b;Aid IMPLIED;(b;)b;)a";

// A document, a predicate, and its flag at each element in document order.
#[test]
fn a_predicate_holds_where_some_target_is_enough(rt: HostRuntime) -> Result<(), Fail> {
    let alloc = rt.alloc();
    for (lines, text, flags) in [
        // a, a, b, b
        (NESTED, ".", "1111"),
        (NESTED, "*", "1100"),
        (NESTED, "a", "1000"),
        (NESTED, "c", "0000"),
        (NESTED, "b='x'", "1000"),
        (NESTED, "b='y'", "0100"),
        (NESTED, ".//b='x'", "1000"),
        (NESTED, ".//b='y'", "1100"),
        (NESTED, "a/b='y'", "1000"),
        (NESTED, "a/b='x'", "0000"),
        (NESTED, ".//a//b='y'", "1000"),
        (NESTED, ".//*//b", "1000"),
        (NESTED, ".='x'", "0001"),
        (NESTED, ".='yx'", "1000"),
        (NESTED, "b!='y'", "1000"),
        // r, n, n, m
        (MIXED, ".=1234567", "1000"),
        (MIXED, ".=456", "0010"),
        (MIXED, "n=2", "1000"),
        (MIXED, "n=456", "1000"),
        (MIXED, "n=2456", "0000"),
        (MIXED, "n>2", "1000"),
        (MIXED, "n<2", "0000"),
        (MIXED, "m=5", "0010"),
        (MIXED, ".//m=5", "1010"),
        (MIXED, "n/m=5", "1000"),
        // a, b, b
        (ATTRIBUTES, "@id", "110"),
        (ATTRIBUTES, "@id=8", "010"),
        (ATTRIBUTES, "@kind='x'", "010"),
        (ATTRIBUTES, "b/@id=8", "100"),
        (ATTRIBUTES, "b/@id=7", "000"),
        (ATTRIBUTES, ".//*/@kind", "100"),
        // -, a, -
        ("(-;(a;)a;(-;)-;)-", "*", "100"),
        ("(-;(a;)a;(-;)-;)-", ".='-'", "000"),
    ] {
        let preds = [predicate(alloc, text)?];
        let digits = digits_of(alloc, preds.as_slice(), lines)?;
        assert_eq!(rt; digits.as_str(), flags, "{text} at {lines}");
    }
    Ok(())
}

// Each element has the flags of all predicates, in their order.
#[test]
fn flags_are_ordered_by_element_and_predicate(rt: HostRuntime) -> Result<(), Fail> {
    let alloc = rt.alloc();
    let preds = [
        predicate(alloc, ".//b='y'")?,
        predicate(alloc, "b='x'")?,
        predicate(alloc, ".")?,
    ];
    let digits = digits_of(alloc, preds.as_slice(), NESTED)?;
    assert_eq!(rt; digits.as_str(), "111101001001");
    let digits = digits_of(alloc, &[], NESTED)?;
    assert_eq!(rt; digits.as_str(), "");
    Ok(())
}

/// 66 steps `/a` over 70 nested `a`. They lead to an element from the first four.
#[test]
fn a_path_may_have_more_than_64_steps(rt: HostRuntime) -> Result<(), Fail> {
    let alloc = rt.alloc();
    let mut text = String::from_str(alloc, "a")?;
    for _ in 0..65 {
        text.push_str("/a")?;
    }
    let preds = [predicate(alloc, text.as_str())?];
    let lines = nested(alloc, "a", 70, "y")?;
    let flags = truths_of(alloc, preds.as_slice(), lines.as_str())?;
    assert_eq!(rt; flags.len(), 70);
    for n in 0..70 {
        assert_eq!(rt; flags.has(n), n < 4, "{n}");
    }
    Ok(())
}

/// There are 200 predicates `.=0`, `.=1` and so on. The one with the number of the text holds, at both elements.
#[test]
fn there_may_be_more_predicates_than_a_word_has_bits(rt: HostRuntime) -> Result<(), Fail> {
    let alloc = rt.alloc();
    let mut preds = Vec::new(alloc);
    for n in 0..200u32 {
        preds.push(predicate(alloc, format!(in alloc; ".={n}")?.as_str())?)?;
    }
    let flags = truths_of(alloc, preds.as_slice(), "(a;(a;-130;)a;)a")?;
    assert_eq!(rt; flags.len(), 400);
    for n in 0..400 {
        assert_eq!(rt; flags.has(n), n % 200 == 130, "{n}");
    }
    Ok(())
}

/// Seven steps `//a` over 255 nested `a`: too many combinations to try each. They lead to a target
/// from each element with at least seven more inside it.
#[test]
fn many_descendant_steps_end_at_once(rt: HostRuntime) -> Result<(), Fail> {
    let alloc = rt.alloc();
    let preds = [
        predicate(alloc, ".//a//a//a//a//a//a//a='y'")?,
        predicate(alloc, ".//a//a//a//a//a//a//a='x'")?,
    ];
    let lines = nested(alloc, "a", 255, "y")?;
    let flags = truths_of(alloc, preds.as_slice(), lines.as_str())?;
    assert_eq!(rt; flags.len(), 510);
    for n in 0..510 {
        assert_eq!(rt; flags.has(n), n % 2 == 0 && n / 2 < 248, "{n}");
    }
    Ok(())
}

// `*` passes every name. A name passes itself alone, and never the name of a dummy (XPath 1.0, 2.3).
#[test]
fn a_test_passes_its_name(rt: HostRuntime) -> Result<(), Fail> {
    let alloc = rt.alloc();
    for (wanted, name, passes) in [
        ("a", "a", true),
        ("a", "ab", false),
        ("ab", "a", false),
        ("a", "A", false),
        ("-", "-", false),
    ] {
        let test = Test::Named(Name::from_slice(alloc, wanted.as_bytes())?);
        assert_eq!(rt;
            does_pass(&test, name.as_bytes()),
            passes,
            "{wanted} at {name}"
        );
        assert!(rt; does_pass(&Test::Any, name.as_bytes()), "{name}");
    }
    Ok(())
}
