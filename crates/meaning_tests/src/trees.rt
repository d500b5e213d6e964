//! Rules over documents, with answers worked out by hand. A path selects step by step. The nearest selected element
//! decides, and a denial wins at the same element. Predicates see the whole document.
//!
//! Documents and answers are written as their lines with `;` after each, and rules with `;` between them. The id of a
//! rule is its own text. Memory is ample, so `NoMemory` fails a test.

use acl_model::{
    Axis, Bytes, Cmp, Doc, Element, Item, Name, Op, Operand, Path, Place, Pred, PredStep, Rule,
    Sequence, Sign, Step, Test,
};
use acl_outside::MemSink;
use line_writer::write_explanation_line;
use sqlite_items::{Boxed, Items};
use std::alloc::Global;
use std::process::Abort;
use std::test::Fail;
use tree_meaning::{
    explain_tree, selected, sign_at, view_tree, write_explanation, write_explanation_of, write_view,
};

// ---- documents, as lines

#[derive(Drop)]
struct OpenElement {
    name: Name,
    attributes: Vec<Bytes>,
    items: Vec<Item>,
}

/// Adds an item to the innermost open element.
fn add(open: &mut Vec<OpenElement>, item: Item) -> Result<(), Fail> {
    match open.last_mut() {
        Some(around) => around.items.push(item)?,
        None => return Err("nothing is open".into()),
    }
    Ok(())
}

/// The element that an end tag completes.
fn closed(open: OpenElement) -> Element {
    Element {
        name: open.name,
        attributes: Sequence::from_vec(open.attributes),
        items: Items::from_vec(open.items),
    }
}

/// The document of these lines.
fn document(alloc: Global, lines: &str) -> Result<Doc, Fail> {
    let mut open = Vec::new(alloc);
    let mut attributes = Vec::new(alloc);
    for line in lines.split(';') {
        match line.as_bytes() {
            [b'A', raw @ ..] => attributes.push(Bytes::from_slice(alloc, raw)?)?,
            [b'(', name @ ..] => {
                let name = Name::from_slice(alloc, name)?;
                open.push(OpenElement {
                    name,
                    attributes,
                    items: Vec::new(alloc),
                })?;
                attributes = Vec::new(alloc);
            }
            [b'-', text @ ..] => add(&mut open, Item::Text(Bytes::from_slice(alloc, text)?))?,
            _ => {
                let root = closed(open.pop().ok_or("nothing is open")?);
                if open.is_empty() {
                    return Ok(Doc { root });
                }
                add(&mut open, Item::Child(Boxed::new(alloc, root)?))?;
            }
        }
    }
    Err("an element is open".into())
}

// ---- rules, as text

/// The steps of a text such as `a//b/@c`, and the attribute at its end. A step after `/` is a child, and one after `//`
/// is a descendant.
fn steps(alloc: Global, text: &str) -> Result<(Vec<PredStep>, Option<Name>), Fail> {
    let mut steps = Vec::new(alloc);
    let mut attribute = None;
    let mut axis = Axis::Child;
    for piece in text.split('/') {
        match piece.as_bytes() {
            [] => axis = Axis::Descendant,
            [b'@', name @ ..] => attribute = Some(Name::from_slice(alloc, name)?),
            [b'*'] => steps.push(PredStep {
                axis,
                test: Test::Any,
            })?,
            name => {
                let test = Test::Named(Name::from_slice(alloc, name)?);
                steps.push(PredStep { axis, test })?;
            }
        }
        if !piece.is_empty() {
            axis = Axis::Child;
        }
    }
    Ok((steps, attribute))
}

/// A literal between `'`, `USER` for the user Ana, or a number.
fn operand(alloc: Global, text: &str) -> Result<Operand, Fail> {
    match text.as_bytes() {
        [b'\'', literal @ .., b'\''] => Ok(Operand::Text(Bytes::from_slice(alloc, literal)?)),
        b"USER" => Ok(Operand::User(Bytes::from_slice(alloc, b"Ana")?)),
        _ => Ok(Operand::Number(text.parse()?)),
    }
}

/// The comparison of a text such as `!= 'x'`.
fn comparison(alloc: Global, text: &str) -> Result<Cmp, Fail> {
    let (sign, value) = text.split_once(' ').ok_or("no value")?;
    let op = match sign.as_bytes() {
        b"=" => Op::Eq,
        b"!=" => Op::Ne,
        b"<" => Op::Lt,
        b"<=" => Op::Le,
        b">" => Op::Gt,
        _ => Op::Ge,
    };
    let operand = operand(alloc, value)?;
    Ok(Cmp { op, operand })
}

/// The predicate of a text such as `.//b/@c != 'x'`.
fn predicate(alloc: Global, text: &str) -> Result<Pred, Fail> {
    let (way, cmp) = match text.split_once(' ') {
        Some((way, after)) => (way, Some(comparison(alloc, after)?)),
        None => (text, None),
    };
    let (way, attribute) = steps(alloc, way.strip_prefix('.').unwrap_or(way))?;
    Ok(Pred {
        way: Sequence::from_vec(way),
        attribute,
        cmp,
    })
}

/// Appends the steps of a part of a path that has no predicates.
fn add_steps(alloc: Global, all: &mut Vec<Step>, text: &str) -> Result<(), Fail> {
    let (steps, _) = steps(alloc, text)?;
    for PredStep { axis, test } in steps {
        all.push(Step {
            axis,
            test,
            preds: Sequence::new(alloc),
        })?;
    }
    Ok(())
}

/// Appends a predicate to the last step.
fn add_predicate(alloc: Global, all: &mut Vec<Step>, text: &str) -> Result<(), Fail> {
    let Step { axis, test, preds } = all.pop().ok_or("a predicate without a step")?;
    let mut preds = preds.into_vec();
    preds.push(predicate(alloc, text)?)?;
    all.push(Step {
        axis,
        test,
        preds: Sequence::from_vec(preds),
    })?;
    Ok(())
}

/// The path of a text such as `//a[b][c = 'x']/d`.
fn path(alloc: Global, text: &str) -> Result<Path, Fail> {
    let mut all = Vec::new(alloc);
    for part in text.split(']') {
        let (way, inside) = part.split_once('[').unwrap_or((part, ""));
        if let Some(way) = way.strip_prefix('/') {
            add_steps(alloc, &mut all, way)?;
        }
        if !inside.is_empty() {
            add_predicate(alloc, &mut all, inside)?;
        }
    }
    Ok(Path {
        steps: Sequence::from_vec(all),
    })
}

/// The rules of a text such as `+//a;-/b`.
fn rules(alloc: Global, text: &str) -> Result<Vec<Rule>, Fail> {
    let mut all = Vec::new(alloc);
    for one in text.split_terminator(';') {
        let (sign, path_text) = match one.strip_prefix('+') {
            Some(after) => (Sign::Grant, after),
            None => (Sign::Deny, one.strip_prefix('-').ok_or("no sign")?),
        };
        let id = Bytes::from_slice(alloc, one.as_bytes())?;
        all.push(Rule {
            id,
            sign,
            path: path(alloc, path_text)?,
        })?;
    }
    Ok(all)
}

// ---- answers, as text

/// The text of the view as it is written. The view as a document has the same text: a query on it for all its elements
/// gives that.
fn view_text(alloc: Global, doc: &Doc, text: &str) -> Result<MemSink, Fail> {
    let own = rules(alloc, text)?;
    let all = rules(alloc, "+/*")?;
    let mut sink = MemSink::new(alloc, 1 << 17, Vec::new(alloc))?;
    write_view(alloc, doc, own.as_slice(), &mut sink)?;
    let mut of_tree = MemSink::new(alloc, 1 << 17, Vec::new(alloc))?;
    if let Some(tree) = view_tree(alloc, doc, own.as_slice())? {
        write_view(alloc, &tree, all.as_slice(), &mut of_tree)?;
    }
    if of_tree.written() != sink.written() {
        return Err("the view as a document has other lines".into());
    }
    Ok(sink)
}

/// The text of the explanation as it is written. The explanation as a list has the same text.
fn explanation_text(alloc: Global, doc: &Doc, text: &str) -> Result<MemSink, Fail> {
    let rules = rules(alloc, text)?;
    if rules.len() > 3 {
        return Err("three rules at most".into());
    }
    let mut sink = MemSink::new(alloc, 1 << 17, Vec::new(alloc))?;
    write_explanation_of(alloc, doc, rules.as_slice(), &mut sink)?;
    let told = explain_tree(alloc, doc, rules.as_slice())?;
    let mut of_list = MemSink::new(alloc, 1 << 17, Vec::new(alloc))?;
    write_explanation(told.as_slice(), rules.as_slice(), &mut of_list)?;
    if of_list.written() != sink.written() {
        return Err("the explanation as a list has other lines".into());
    }
    Ok(sink)
}

/// The places that the path selects, each with the sign of its element: a line for each. There is no element at `/9`.
fn places_text(alloc: Global, doc: &Doc, rule_text: &str, text: &str) -> Result<MemSink, Fail> {
    let rules = rules(alloc, rule_text)?;
    let path = path(alloc, text)?;
    let places = selected(alloc, doc, &path)?;
    let mut sink = MemSink::new(alloc, 1 << 17, Vec::new(alloc))?;
    for place in places.as_slice() {
        let sign = sign_at(alloc, doc, rules.as_slice(), place)?.ok_or("no element")?;
        write_explanation_line(sign, b"at", place.as_slice(), &mut sink)?;
    }
    let ninth = Place::from_slice(alloc, &[9])?;
    if sign_at(alloc, doc, rules.as_slice(), &ninth)?.is_some() {
        return Err("an element at /9".into());
    }
    Ok(sink)
}

// ---- tables, a line for each case

const HOSPITAL: &str =
    "(Hospital;(Folder;(Admin;(SSN;-123;)SSN;(Fname;-Li;)Fname;)Admin;(Act;(RPhys;-Ana;)RPhys;(Details;-calm;)Details;)Act;)Folder;)Hospital;";

/// The view of the hospital with the administrative part of the folder alone.
const ADMIN: &str = "(-;(-;(Admin;(SSN;-123;)SSN;(Fname;-Li;)Fname;)Admin;)-;)-;";

const FOLDER: &str = "AId CDATA f1;ANote IMPLIED;AId TOKEN 12;(Folder;-a;(x;)x;)Folder;";

/// Elements `a` with a child `b`, and one without.
const CONTEXTS: &str = "(r;(a;(c;)c;(b;)b;)a;-x;(a;(c;)c;)a;(x;(a;(b;)b;)a;)x;)r;";

/// The document that a name in capitals stands for, or else the text itself.
fn in_full(text: &str) -> &str {
    match text.as_bytes() {
        b"HOSPITAL" => HOSPITAL,
        b"ADMIN" => ADMIN,
        b"FOLDER" => FOLDER,
        b"CONTEXTS" => CONTEXTS,
        _ => text,
    }
}

/// The rules or the path of a case, its document, and the answer, with `|` between them. `SAME` is the whole document. A
/// line that begins with `#` is no case.
fn fields(line: &str) -> Result<Option<(&str, &str, &str)>, Fail> {
    if line.starts_with('#') {
        return Ok(None);
    }
    let (first, rest) = line.split_once('|').ok_or("one field")?;
    let (second, third) = rest.split_once('|').ok_or("two fields")?;
    let lines = in_full(second);
    let answer = match third.as_bytes() {
        b"SAME" => lines,
        _ => in_full(third),
    };
    Ok(Some((first, lines, answer)))
}

/// What is asked in a table.
#[derive(Clone, Copy)]
enum Call {
    View,
    Explanation,
    /// Of a path, without rules.
    Places,
    /// Of all elements, under rules.
    Signs,
}

/// Whether a case has its answer.
fn is_right(alloc: Global, call: Call, line: &str) -> Result<bool, Fail> {
    let Some((text, lines, answer)) = fields(line)? else {
        return Ok(true);
    };
    let doc = document(alloc, lines)?;
    let made = match call {
        Call::View => view_text(alloc, &doc, text)?,
        Call::Explanation => explanation_text(alloc, &doc, text)?,
        Call::Places => places_text(alloc, &doc, "", text)?,
        Call::Signs => places_text(alloc, &doc, text, "//*")?,
    };
    let answer = answer.replace(alloc, ';', "\n")?;
    Ok(made.written() == answer.as_bytes())
}

/// Checks each case of a table.
fn check(rt: &impl Abort, alloc: Global, call: Call, table: &str) -> Result<(), Fail> {
    for line in table.lines() {
        assert!(rt; is_right(alloc, call, line)?, "{line}");
    }
    Ok(())
}

/// Rules, a document, and its view.
const VIEWS: &str = "# The nearest selected element decides, and a denial wins at the same element.
|(a;-x;)a;|
+/a|(a;-x;(b;)b;)a;|SAME
+/a/b|(a;-x;(b;-y;)b;)a;|(-;(b;-y;)b;)-;
+/a;-/a/b;+/a/b/c|(a;(b;-x;(c;-y;)c;)b;-z;)a;|(a;(-;(c;-y;)c;)-;-z;)a;
+/a/b;-/a/b|(a;(b;)b;)a;|
+/a;-/a/b|(a;(b;(c;)c;)b;(c;)c;)a;|(a;(c;)c;)a;
+//Folder;-//Admin;+//SSN|HOSPITAL|(-;(Folder;(-;(SSN;-123;)SSN;)-;(Act;(RPhys;-Ana;)RPhys;(Details;-calm;)Details;)Act;)Folder;)-;
# Steps to children and to descendants, by a name and by `*`.
+//a|(a;(b;)b;)a;|SAME
+//a//a|(a;-x;(a;-y;)a;)a;|(-;(a;-y;)a;)-;
+/*|(r;-x;)r;|SAME
+/*/*|(r;-x;(s;)s;)r;|(-;(s;)s;)-;
+//b/c|(a;(b;(d;(c;-1;)c;)d;(c;-2;)c;)b;)a;|(-;(-;(c;-2;)c;)-;)-;
+//b//c|(a;(b;(d;(c;-1;)c;)d;)b;(c;-2;)c;)a;|(-;(-;(-;(c;-1;)c;)-;)-;)-;
+/a//a/b|(a;(b;-1;)b;(a;(b;-2;)b;)a;)a;|(-;(-;(b;-2;)b;)-;)-;
# Predicates see the whole document.
# What the predicate needs comes after the target: by a literal, by the user, missing, or in a denied part.
+//Folder[Act/RPhys = 'Ana']/Admin|HOSPITAL|ADMIN
+//Folder[Act/RPhys = USER]/Admin|HOSPITAL|ADMIN
+//Folder[Act/RPhys = 'Bea']/Admin|HOSPITAL|
-//Act;+//Folder[Act/RPhys = 'Ana']/Admin|HOSPITAL|ADMIN
# It comes after and before the target.
+//a[b]//c|(a;(a;(c;)c;)a;(b;)b;)a;|(-;(-;(c;)c;)-;)-;
+//a[b]//c|(a;(b;)b;(a;(c;)c;)a;)a;|(-;(-;(c;)c;)-;)-;
# A string-value joins the texts inside one element, and not those of several targets.
+//Act[. = 'Anacalm']|HOSPITAL|(-;(-;(Act;(RPhys;-Ana;)RPhys;(Details;-calm;)Details;)Act;)-;)-;
+/r[x = '12']|(r;(x;-1;)x;(x;-2;)x;)r;|
+/r[x = '12']|(r;(x;-1;(y;-2;)y;)x;)r;|SAME
# One value of several is enough, for `!=` too. Without a target there is no value.
+/r[x != '1']|(r;(x;-1;)x;(x;-2;)x;)r;|SAME
+/r[x != '1']|(r;(y;-2;)y;)r;|
+/r[x = '']|(r;(x;)x;)r;|SAME
# Descendants are inside the context node at any depth, and it is not one of them.
+/r[.//x]|(r;(y;(x;)x;)y;)r;|SAME
+/r[x]|(r;(y;(x;)x;)y;)r;|
+/x[.//x]|(x;(y;)y;)x;|
+/r[.//x//z = '1']|(r;(x;(y;(z;-1;)z;)y;)x;)r;|SAME
# All predicates of a step count, and those of each step.
+/r[x][y]|(r;(x;)x;)r;|
+/r[x][y]|(r;(x;)x;(y;)y;)r;|SAME
+/r[x]/s[y]/t[z]|(r;(x;)x;(s;(y;)y;(t;(z;)z;)t;(t;)t;)s;)r;|(-;(-;(t;(z;)z;)t;)-;)-;
# An attribute has a value unless it is implied.
+/Folder[@Id]|FOLDER|SAME
+/Folder[@Note]|FOLDER|
+/Folder[@I]|FOLDER|
+/Folder[@Id = 'f1']|FOLDER|SAME
+/Folder[@Id = 12]|FOLDER|SAME
+/Folder[x/@Id]|FOLDER|
+//x|FOLDER|(-;(x;)x;)-;
+/r[x/@k = 'v w']|(r;Ak CDATA v w;(x;)x;)r;|SAME
+/r[*/@k = 'IMPLIED']|(r;Ak CDATA IMPLIED;(x;)x;)r;|SAME
+/r[*/@k]|(r;Ak IMPLIED v;(x;)x;)r;|
+/r[@k = '']|Ak CDATA;(r;)r;|SAME
# A query on a view: no name passes a dummy.
+//*|(-;(b;)b;)-;|SAME
+/-|(-;(b;)b;)-;|
+//*[b]|(-;(-;(b;)b;)-;)-;|SAME";

#[test]
fn a_view_has_what_its_rules_let_through(rt: HostRuntime) -> Result<(), Fail> {
    check(&rt, rt.alloc(), Call::View, VIEWS)
}

/// A rule with a comparison, a document, and its view: the whole document where the comparison is true.
const COMPARISONS: &str = "+/r[n < 10]|(r;(n;-9;)n;)r;|SAME
+/r[n = 9]|(r;(n;-09;)n;)r;|SAME
+/r[n = '09']|(r;(n;-9;)n;)r;|
+/r[n >= 'x']|(r;(n;-9;)n;)r;|
+/r[n < '10']|(r;(n;-9;)n;)r;|SAME
+/r[n != 9]|(r;(n;-9;)n;)r;|
+/r[n != 9]|(r;(n;-x;)n;)r;|SAME
+/r[n = 9]|(r;(n;- 9;)n;)r;|
+/r[n = '']|(r;(n;-;)n;)r;|SAME
+/r[n < 1]|(r;(n;-;)n;)r;|
+/r[n = 0]|(r;(n;--0;)n;)r;|SAME
+/r[n >= -1]|(r;(n;--1;)n;)r;|SAME
+/r[n < 0]|(r;(n;---1;)n;)r;|
+/r[n <= 9]|(r;(n;-10;)n;)r;|
+/r[n > 9]|(r;(n;-10;)n;)r;|SAME
+/r[n > 999999999999999998]|(r;(n;-999999999999999999;)n;)r;|SAME
+/r[n > 999999999999999998]|(r;(n;-9999999999999999999;)n;)r;|
+/r[n = 9]|(r;(n;-0000000000000000009;)n;)r;|
+/r[n = USER]|(r;(n;-Ana;)n;)r;|SAME
+/r[n = USER]|(r;(n;-An;)n;)r;|
+/r[n != USER]|(r;(n;-An;)n;)r;|SAME";

#[test]
fn a_value_is_compared_as_a_text_or_as_a_whole_number(rt: HostRuntime) -> Result<(), Fail> {
    check(&rt, rt.alloc(), Call::View, COMPARISONS)
}

/// A path, a document, and the places that the path selects. Without rules each element is denied.
const SELECTED: &str = "/a|(a;(b;(c;)c;)b;-x;(c;(c;)c;)c;)a;|- at /;
//c|(a;(b;(c;)c;)b;-x;(c;(c;)c;)c;)a;|- at /1/1;- at /2;- at /2/1;
//*[c]|(a;(b;(c;)c;)b;-x;(c;(c;)c;)c;)a;|- at /;- at /1;- at /2;
/c|(a;(b;(c;)c;)b;-x;(c;(c;)c;)c;)a;|";

#[test]
fn a_path_selects_places_in_document_order(rt: HostRuntime) -> Result<(), Fail> {
    check(&rt, rt.alloc(), Call::Places, SELECTED)
}

/// Rules, a document, and its explanation.
const EXPLANATIONS: &str = "|(a;(b;)b;)a;|- closed /;
+//Folder;-//Admin;+//SSN|HOSPITAL|- closed /;+ +//Folder /1;- -//Admin /1/1;+ +//SSN /1/1/1;
+//b;-/a/b;-//b|(a;-x;(c;)c;(b;)b;)a;|- closed /;- -/a/b /2;
-/a/b;+/*;+//a|(a;(b;)b;)a;|+ +/* /;- -/a/b /1;
+//a[b];-//c|(r;(a;(c;)c;(b;)b;)a;(a;(c;)c;)a;)r;|- closed /;+ +//a[b] /1;- -//c /1/1;- -//c /2/1;";

#[test]
fn each_sign_is_told_with_its_rule_and_its_place(rt: HostRuntime) -> Result<(), Fail> {
    check(&rt, rt.alloc(), Call::Explanation, EXPLANATIONS)
}

/// Rules, a document, and the sign and the place of each element.
const SIGNS: &str =
    "+//Folder;-//Admin;+//SSN|HOSPITAL|- at /;+ at /1;- at /1/1;+ at /1/1/1;- at /1/1/2;+ at /1/2;+ at /1/2/1;+ at /1/2/2;
+//a[b];-//c|CONTEXTS|- at /;+ at /1;- at /1/1;+ at /1/2;- at /2;- at /2/1;- at /3;+ at /3/1;+ at /3/1/1;";

#[test]
fn a_sign_is_that_of_the_nearest_selected_element(rt: HostRuntime) -> Result<(), Fail> {
    check(&rt, rt.alloc(), Call::Signs, SIGNS)
}

// ---- deep documents

/// 255 elements `a`, each inside the one before.
fn nested(alloc: Global) -> Result<Doc, Fail> {
    let mut lines = "(a;".repeat(alloc, 255)?;
    let ends = ")a;".repeat(alloc, 255)?;
    lines.push_str(ends.as_str())?;
    document(alloc, lines.as_str())
}

/// Twenty steps `//a`: recursion over the ancestors at each step would never end.
#[test]
fn many_descendant_steps_end_at_once(rt: HostRuntime) -> Result<(), Fail> {
    let doc = nested(rt.alloc())?;
    let rule = "+//a//a//a//a//a//a//a//a//a//a//a//a//a//a//a//a//a//a//a//a[. = '']";
    let made = view_text(rt.alloc(), &doc, rule)?;
    // 19 dummies and 236 elements, each with a start of 3 bytes and an end of 3.
    assert_eq!(rt; made.written().len(), 255 * 6);
    assert!(rt; made.written().starts_with(b"(-\n(-\n"));
    Ok(())
}

/// Each element is selected, and has `/1` more in its place than its parent.
#[test]
fn each_nested_element_has_its_line(rt: HostRuntime) -> Result<(), Fail> {
    let doc = nested(rt.alloc())?;
    let made = explanation_text(rt.alloc(), &doc, "+//*")?;
    // 9 bytes for the root, and 8 and those of the place for each of the 254 others: 2, 4, .. 508.
    assert_eq!(rt; made.written().len(), 9 + 254 * 8 + 254 * 255);
    assert!(rt;
        made.written()
            .starts_with(b"+ +//* /\n+ +//* /1\n+ +//* /1/1\n")
    );
    Ok(())
}
