//! Tables of paths: each accepted form with the nearest refused one. The canonical spellings and the
//! offsets of faults were worked out by hand from the grammar.

use acl_model::{Axis, Bytes, Op, Operand, Path, Pred, Test};
use std::alloc::{AllocError, Global};
use std::test::Fail;
use xpath_rules::{PathError, States, count_states, read_path, write_path};

// The offset of the fault in the bytes, or `None` where they are a path for Ana.
fn place(alloc: Global, bytes: &[u8]) -> Result<Option<u32>, Fail> {
    match read_path(alloc, bytes, b"Ana") {
        Ok(_) => Ok(None),
        Err(PathError::Fault { at }) => Ok(Some(at)),
        Err(PathError::NoMemory) => Err("no memory".into()),
    }
}

// The path that the bytes spell for Ana.
fn path_of(alloc: Global, bytes: &[u8]) -> Result<Path, Fail> {
    Ok(read_path(alloc, bytes, b"Ana").ok().ok_or("no path")?)
}

// The canonical spelling of the path that the bytes spell.
fn rewritten(alloc: Global, bytes: &[u8]) -> Result<Bytes, Fail> {
    let path = path_of(alloc, bytes)?;
    Ok(write_path(alloc, &path).ok().ok_or("no memory")?)
}

// The parts, each repeated as often as its number says.
fn repeated(alloc: Global, parts: &[(&[u8], u32)]) -> Result<Vec<u8>, AllocError> {
    let mut bytes = Vec::new(alloc);
    for (part, count) in parts {
        for _ in 0..*count {
            bytes.extend_from_slice(part)?;
        }
    }
    Ok(bytes)
}

// Checks a row, whose fields have `|` between them: its title, a path, bytes that are none, and the offset of their
// fault.
fn is_told(alloc: Global, row: &str) -> Result<bool, Fail> {
    let (_, rest) = row.split_once('|').ok_or("one field")?;
    let (path, rest) = rest.split_once('|').ok_or("two fields")?;
    let (refused, at) = rest.split_once('|').ok_or("three fields")?;
    are_told(alloc, path.as_bytes(), refused.as_bytes(), at.parse()?)
}

// Whether the first bytes are a path, and the others are refused at this offset.
fn are_told(alloc: Global, path: &[u8], refused: &[u8], at: u32) -> Result<bool, Fail> {
    Ok(place(alloc, path)?.is_none() && place(alloc, refused)? == Some(at))
}

const STEPS: &str = "a path is not empty|/a||0
a slash comes first|/Hospital|Hospital|0
a test after it|/a|/|1
or after two|//a|//|2
and not three|//a//b|///a|2
also after a step|/a/b//c|/a/|3
none is open at the end|/a//b|/a//|4
no space before|/a| /a|0
none in between|/a|/ a|1
none after|/a|/a |2
a name goes on|/a-b.c:9_|/a+b|2
it begins with a letter|/a.5|/.5|1
or an underscore|/_5|/5|1
or a colon|/:-|/-|1
NUL is in no name|/a|/a\x00|2
the user is a name there|/USER|/U SER|2
a star is a test|/*//*|/**|2
a whole one|/*/a|/*a|2
and in no name|/a/*|/a*|2
no attribute is a step|/a[@b]|/@b|1
nor after one|/a[b/@c]|/a/@b|3
nor deep below one|/a[.//b/@c]|/a//@b|4
a name ends at its predicate|/a[@b]/c|/a[@b]c|6";

#[test]
fn steps_have_slashes_and_tests(rt: HostRuntime) -> Result<(), Fail> {
    for row in STEPS.lines() {
        assert!(rt; is_told(rt.alloc(), row)?, "{row}");
    }
    Ok(())
}

const PREDICATES: &str = "a predicate ends|//a[b]|//a[b|5
it is not empty|/a[b]|/a[]|3
a name is whole|/a[USERS]|/a[USER S]|8
nor only spaces|/a[  b  ]|/a[  ]|5
no other blank|/a[ b]|/a[\tb]|3
it follows its step|/a[b][c]|/a [b]|2
directly|/a[b][c]|/a[b] [c]|5
one path|/a[b/c]|/a[b c]|5
it is relative|/a[b//c/*]|/a[/b]|3
in both axes|/a[.//b]|/a[//b]|3
it has a test last|/a[b/c]|/a[b/]|5
no predicate in it|/a[b]|/a[b[c]]|4
a dot goes deep|/a[.//*]|/a[./b]|5
not after a space|/a[ .//b]|/a[. //b]|5
to a test|/a[.//b]|/a[.//]|6
a dot alone is compared|//a[.=1]|//a[.]|5
also after spaces|/a[ . = 1 ]|/a[ . ]|6
one dot|/a[.=1]|/a[..]|4
an attribute has a name|/a[@b.c]|/a[@]|4
no star|/a[@b]|/a[@*]|4
directly after|/a[ @b ]|/a[@ b]|4
it ends the body|/a[@b]|/a[@b/c]|5
also after a path|/a[b/@c]|/a[b/@c/d]|7
as an attribute of its end|/a[b/@c]|/a[b//@c]|6
and no nearer|/a[.//b/@c]|/a[.//@c]|6
one attribute|/a[b/c/@d]|/a[@b@c]|5";

#[test]
fn predicates_have_bodies(rt: HostRuntime) -> Result<(), Fail> {
    for row in PREDICATES.lines() {
        assert!(rt; is_told(rt.alloc(), row)?, "{row}");
    }
    Ok(())
}

const COMPARISONS: &str = "equal|/a[b = 1]|/a[b==1]|5
unequal|/a[b  !=1]|/a[b! =1]|5
less|/a[b<1]|/a[b<>1]|5
at most|/a[b <= 1]|/a[b < = 1]|7
greater|/a[b> 1]|/a[b>>1]|5
at least|/a[b >= 1]|/a[b => 1]|6
a sign is whole|/a[b!=1]|/a[b!1]|5
an operand is there|//a[b = 1]|//a[b = ]|8
it is no path|/a[b='c']|/a[b=c]|5
on the right|/a[b=1]|/a[1=b]|3
one comparison|/a[b=1]|/a[b=1=1]|6
a body is compared|/a[@b='c']|/a['c']|3
the user|/a[b = USER ]|/a[b=USERS]|9
whole|/a[b=USER]|/a[b=USE]|8
in capitals|/a[USER=USER]|/a[b=User]|6
no letter alone|/a[U=USER]|/a[b=U]|6
nor two|/a[US=USER]|/a[b=US]|7
a digit|/a[b=0]|/a[b=]|5
zeros before it|/a[b=0090]|/a[b=0 90]|7
less than nothing|/a[b=-07]|/a[b=--7]|6
a digit after a minus|/a[b= -7]|/a[b=- 7]|6
nothing is not negative|/a[b=-0]|/a[b=-]|6
with zeros too|/a[b!=-000]|/a[b=+0]|5
a whole number|/a[b=15]|/a[b=1.5]|6
in decimal|/a[b=10]|/a[b=1e1]|6
of 18 digits|/a[b=-999999999999999999]|/a[b=-9999999999999999999]|24
or above nothing|/a[b=999999999999999999]|/a[b=9999999999999999999]|23
zeros counted|/a[b=000000000000000001]|/a[b=0000000000000000001]|23";

#[test]
fn bodies_are_compared(rt: HostRuntime) -> Result<(), Fail> {
    for row in COMPARISONS.lines() {
        assert!(rt; is_told(rt.alloc(), row)?, "{row}");
    }
    Ok(())
}

const LITERALS: &str = "double|/a[b=\"x\"]|/a[b=\"x]|8
single|/a[b='x']|/a[b='x]|8
empty|/a[b='']|/a[b=''']|7
equal ones|/a[b='x']|/a[b='x\"]|9
the other inside|//a[ b = 'x\"y' ]|//a[b='x'y']|9
both ways|/a[b=\"x'y\"]|/a[b=\"x\"y\"]|8
spaces are kept|/a[b= ' x ' ]|/a[b=' x ' ']|11
brackets too|/a[b=']/[']|/a[b=']|7
no keyword inside|/a[b='USER']|/a[b='USER]|11
no number inside|/a[b='007']|/a[b='007]|10";

#[test]
fn literals_stand_between_equal_quotes(rt: HostRuntime) -> Result<(), Fail> {
    for row in LITERALS.lines() {
        assert!(rt; is_told(rt.alloc(), row)?, "{row}");
    }
    Ok(())
}

#[test]
fn names_and_literals_have_bytes_that_are_no_text(rt: HostRuntime) -> Result<(), Fail> {
    let rows: [(&str, &[u8], &[u8], u32); 3] = [
        ("or a byte from 128 on", b"/\x80\xff", b"/\x7f", 1),
        ("spaces come after", b"/a[b ]", b"/a[b\n]", 4),
        ("any byte", b"/a[b='\x00\xff\r']", b"/a[b='\x00\n']", 7),
    ];
    for (what, path, refused, at) in rows {
        assert!(rt; are_told(rt.alloc(), path, refused, at)?, "{what}");
    }
    let any = b"/a[b='\x00\xff\r']";
    assert!(rt; is_written_as(rt.alloc(), any, b"/a[b=\"\x00\xff\r\"]")?);
    Ok(())
}

// Whether a path is written in this spelling, and the spelling itself is written unchanged.
fn is_written_as(alloc: Global, path: &[u8], wanted: &[u8]) -> Result<bool, Fail> {
    let canonical = rewritten(alloc, path)?;
    let again = rewritten(alloc, wanted)?;
    Ok(canonical.as_slice() == wanted && again.as_slice() == wanted)
}

// Checks a row: a path, `|`, and its canonical spelling.
fn is_written_as_told(alloc: Global, row: &str) -> Result<bool, Fail> {
    let (path, wanted) = row.split_once('|').ok_or("one field")?;
    is_written_as(alloc, path.as_bytes(), wanted.as_bytes())
}

const CANONICAL: &str = "//a/*//:-|//a/*//:-
/a[b//c/*]|/a[b//c/*]
/a[.//*/@c]|/a[.//*/@c]
/a[b][@c]|/a[b][@c]
/a[b<1][b>1]|/a[b<1][b>1]
/a[b='\"']|/a[b='\"']
/a[  b  ]|/a[b]
/a[ b]|/a[b]
/a[ .//b]|/a[.//b]
/a[ . = 1 ]|/a[.=1]
/a[ @b ]|/a[@b]
/a[b = 1]|/a[b=1]
/a[b  !=1]|/a[b!=1]
/a[b <= 1]|/a[b<=1]
/a[b> 1]|/a[b>1]
/a[b >= 1]|/a[b>=1]
//a[b = 1]|//a[b=1]
/a[b='c']|/a[b=\"c\"]
/a[@b='c']|/a[@b=\"c\"]
/a[b = USER ]|/a[b=USER]
/a[b=0090]|/a[b=90]
/a[b=-07]|/a[b=-7]
/a[b= -7]|/a[b=-7]
/a[b=-0]|/a[b=0]
/a[b!=-000]|/a[b!=0]
/a[b=000000000000000001]|/a[b=1]
/a[b='x']|/a[b=\"x\"]
/a[b='']|/a[b=\"\"]
/a[b='x']|/a[b=\"x\"]
//a[ b = 'x\"y' ]|//a[b='x\"y']
/a[b= ' x ' ]|/a[b=\" x \"]
/a[b=']/[']|/a[b=\"]/[\"]
/a[b='USER']|/a[b=\"USER\"]
/a[b='007']|/a[b=\"007\"]";

#[test]
fn a_path_is_written_without_what_its_spelling_adds(rt: HostRuntime) -> Result<(), Fail> {
    for row in CANONICAL.lines() {
        assert!(rt; is_written_as_told(rt.alloc(), row)?, "{row}");
    }
    Ok(())
}

#[test]
fn a_path_ends_after_a_step_alone(rt: HostRuntime) -> Result<(), Fail> {
    let text = b"//a[ .//b/@c != 'x' ]/*[. <= -10]";
    for end in 0..text.len() {
        let whole = end == 3 || end == 21 || end == 23;
        let wanted = if whole { None } else { Some(end as u32) };
        assert_eq!(rt; place(rt.alloc(), &text[..end])?, wanted);
    }
    assert_eq!(rt; place(rt.alloc(), text)?, None);
    let other = b"/a[b=USER][b>\"x\"]";
    for end in 0..other.len() {
        let whole = end == 2 || end == 10;
        let wanted = if whole { None } else { Some(end as u32) };
        assert_eq!(rt; place(rt.alloc(), &other[..end])?, wanted);
    }
    assert_eq!(rt; place(rt.alloc(), other)?, None);
    Ok(())
}

#[test]
fn names_and_literals_have_at_most_255_bytes(rt: HostRuntime) -> Result<(), Fail> {
    let alloc = rt.alloc();
    let rows: [(&[u8], &[u8]); 5] = [
        (b"/", b""),
        (b"/a[", b"]"),
        (b"/a[b/@", b"]"),
        (b"/a[b='", b"']"),
        (b"/a[b=\"", b"\"]"),
    ];
    for (before, after) in rows {
        let path = repeated(alloc, &[(before, 1), (b"n", 255), (after, 1)])?;
        assert_eq!(rt; place(alloc, path.as_slice())?, None);
        let longer = repeated(alloc, &[(before, 1), (b"n", 256), (after, 1)])?;
        assert_eq!(rt;
            place(alloc, longer.as_slice())?,
            Some(before.len() as u32 + 255)
        );
    }
    Ok(())
}

// Four steps of a slash and a name of 255 bytes: 1,024 bytes.
fn four_steps(alloc: Global) -> Result<Vec<u8>, AllocError> {
    let step = repeated(alloc, &[(b"/", 1), (b"n", 255)])?;
    repeated(alloc, &[(step.as_slice(), 4)])
}

#[test]
fn a_path_has_at_most_1024_bytes(rt: HostRuntime) -> Result<(), Fail> {
    let alloc = rt.alloc();
    let four = four_steps(alloc)?;
    assert_eq!(rt; four.len(), 1024);
    assert_eq!(rt; place(alloc, four.as_slice())?, None);
    let step = repeated(alloc, &[(b"/", 1), (b"n", 255)])?;
    let shorter = repeated(alloc, &[(step.as_slice(), 3), (b"/", 1), (b"n", 254)])?;
    assert_eq!(rt; shorter.len(), 1023);
    assert_eq!(rt; place(alloc, shorter.as_slice())?, None);
    let rows: [(&str, &[u8]); 4] = [
        ("one more slash", b"/"),
        ("one more step", b"/n"),
        ("a fault after the 1,025th byte", b"/]"),
        ("a fault at the 1,025th byte", b"n"),
    ];
    for (what, more) in rows {
        println!(rt; "{what}")?;
        let longer = repeated(alloc, &[(four.as_slice(), 1), (more, 1)])?;
        assert_eq!(rt; place(alloc, longer.as_slice())?, Some(1024));
    }
    let early = repeated(alloc, &[(b"/a[", 1), (b" ", 1020), (b"]b", 1)])?;
    assert_eq!(rt; place(alloc, early.as_slice())?, Some(1023));
    let late = repeated(alloc, &[(b"/a[", 1), (b" ", 1021), (b"]b", 1)])?;
    assert_eq!(rt; place(alloc, late.as_slice())?, Some(1024));
    let wide = repeated(alloc, &[(b"/a[", 1), (b" ", 1019), (b"b]", 1)])?;
    let written = rewritten(alloc, wide.as_slice())?;
    assert_eq!(rt; written.as_slice(), b"/a[b]".as_slice());
    let wider = repeated(alloc, &[(b"/a[", 1), (b" ", 1020), (b"b]", 1)])?;
    assert_eq!(rt; place(alloc, wider.as_slice())?, Some(1024));
    Ok(())
}

#[test]
fn a_path_has_the_parts_that_its_text_has(rt: HostRuntime) -> Result<(), Fail> {
    let path = path_of(rt.alloc(), b"//a[b//c/@d <= -7]/*[. = USER][.//e != 'f']")?;
    let [first, second] = path.steps.as_slice() else {
        return Err("two steps".into());
    };
    assert!(rt; matches!(first.axis, Axis::Descendant));
    assert!(rt; matches!(second.axis, Axis::Child));
    assert!(rt; is_named(&first.test, b"a"));
    assert!(rt; matches!(&second.test, Test::Any));
    let [pred] = first.preds.as_slice() else {
        return Err("one predicate".into());
    };
    let [b, c] = pred.way.as_slice() else {
        return Err("two tests".into());
    };
    assert!(rt; matches!(b.axis, Axis::Child));
    assert!(rt; matches!(c.axis, Axis::Descendant));
    assert!(rt; is_named(&c.test, b"c"));
    let Some(name) = &pred.attribute else {
        return Err("an attribute".into());
    };
    assert_eq!(rt; name.as_slice(), b"d".as_slice());
    let Some(cmp) = &pred.cmp else {
        return Err("a comparison".into());
    };
    assert!(rt; matches!(cmp.op, Op::Le));
    assert!(rt; matches!(cmp.operand, Operand::Number(-7)));
    let [own, deep] = second.preds.as_slice() else {
        return Err("two predicates".into());
    };
    assert!(rt; own.way.is_empty() && own.attribute.is_none());
    assert!(rt; is_compared_with(own, b"", b"Ana"));
    assert!(rt; is_compared_with(deep, b"f", b""));
    Ok(())
}

fn is_named(test: &Test, wanted: &[u8]) -> bool {
    match test {
        Test::Any => false,
        Test::Named(name) => name.as_slice() == wanted,
    }
}

// Whether the operand is this literal, or the user with these bytes, and no number.
fn is_compared_with(pred: &Pred, literal: &[u8], of_user: &[u8]) -> bool {
    let Some(cmp) = &pred.cmp else {
        return false;
    };
    match &cmp.operand {
        Operand::Text(text) => text.as_slice() == literal,
        Operand::Number(_) => false,
        Operand::User(user) => user.as_slice() == of_user,
    }
}

#[test]
fn steps_and_predicates_are_counted(rt: HostRuntime) -> Result<(), Fail> {
    let rows: [(&[u8], u32, u32, u32); 4] = [
        (b"/a", 1, 0, 0),
        (b"/a[.=1][@b]", 1, 0, 2),
        (b"/a[b/c][@d]//*[.//e/@f = 1]", 2, 3, 3),
        (b"/a[b]/a[b//c]/a[*]", 3, 4, 3),
    ];
    for (bytes, steps, pred_steps, preds) in rows {
        let path = path_of(rt.alloc(), bytes)?;
        let wanted = States {
            steps,
            pred_steps,
            preds,
        };
        assert_eq!(rt; count_states(&path), wanted);
    }
    let long = repeated(rt.alloc(), &[(b"/a", 257)])?;
    let path = path_of(rt.alloc(), long.as_slice())?;
    assert_eq!(rt; count_states(&path).steps, 257);
    Ok(())
}
