//! Bytes are read as documents. The expected answers were worked out by hand from the rules on lines. In a table each line
//! is a case, `|` separates its fields, `;` is a line feed, and a fault is written as its message.

use acl_outside::{MemSink, MemSource, SureSource};
use esis_lines::{DocFault, read_doc, write_doc};
use std::alloc::Global;
use std::test::Fail;

// Whether the document that is read has this text.
fn is_read_as(alloc: Global, bytes: &[u8], text: &[u8]) -> Result<bool, Fail> {
    let doc = read_doc(alloc, &mut SureSource::new(Vec::from_slice(alloc, bytes)?))?;
    let mut sink = MemSink::new(alloc, text.len() + 1, Vec::new(alloc))
        .ok()
        .ok_or("no memory")?;
    Ok(write_doc(&doc, &mut sink).is_ok() && sink.written() == text)
}

// Why the bytes are refused, or nothing where they are a document.
fn fault(alloc: Global, bytes: Vec<u8>) -> Result<String, Fail> {
    match read_doc(alloc, &mut SureSource::new(bytes)) {
        Ok(_) => Ok(String::new(alloc)),
        Err(fault) => Ok(format!(in alloc; "{fault}")?),
    }
}

// A document, lines that are refused, and their fault.
const LINES: &str = "(a;)a;||no root
(a;)a;|?(a;#)a;|no root
(a;)a;|C;|no root
(a;-xyz;)a;|xyz;|line 1: bad form
(a;-hi;)a;|-hi;|line 1: unbalanced
(a;-;)a;|(a;)a;-;|line 3: unbalanced
(a;)a;|(a;|line 2: unbalanced
(ab;)ab;|(ab;)a;|line 2: unbalanced
(a;(b;)b;)a;|(a;(b;)a;|line 3: unbalanced
(a;(b;)b;)a;|(a;)a;(b|line 3: second root
Ax A;(a;)a;|(a;)a;Ax A|line 3: second root
(_;)_;|(;);|line 1: bad form
(a1;)a1;|(1a;)1a;|line 1: bad form
(a-.;)a-.;|(-;)-;|line 1: bad form
(a;-;)a;|(a;;)a;|line 2: bad form
(a;)a;|(a;)a;;|line 3: bad form
(a;-\r;)a;|(a\r;)a\r;|line 1: bad form
(a;-Nx;)a;|(a;Nx|line 2: kind 78 is unsupported
Ax T ;(a;)a;|Ax  T;(a;)a;|line 1: bad form
Ax IMPLIED;(a;)a;|Ax;(a;)a;|line 1: bad form
Ax T 1;(a;)a;|Ax t 1;(a;)a;|line 1: bad form
Ax A 1;Ax A 2;(a;)a;|Ax A;A;|line 2: bad form
(b;Ax A;(a;)a;)b;|(b;Ax A;)b|line 3: unbalanced
(b;-1;)b;|(b;Ax A;-1;)b;|line 3: unbalanced
Ax A;(a;)a;|Ax A;|line 2: unbalanced";

// Checks a row, whose fields have `|` between them.
fn is_told(alloc: Global, row: &str) -> Result<bool, Fail> {
    let (text, rest) = row.split_once('|').ok_or("one field")?;
    let (refused, want) = rest.split_once('|').ok_or("two fields")?;
    let text = text.replace(alloc, ';', "\n")?;
    let refused = refused.replace(alloc, ';', "\n")?;
    are_told(alloc, text.as_bytes(), refused.as_bytes(), want)
}

// Whether a document is read, also without its last line feed, and other bytes are refused with a fault.
fn are_told(alloc: Global, text: &[u8], refused: &[u8], want: &str) -> Result<bool, Fail> {
    let prefix = &text[..text.len().saturating_sub(1)];
    let refused = fault(alloc, Vec::from_slice(alloc, refused)?)?;
    Ok(
        is_read_as(alloc, text, text)?
            && is_read_as(alloc, prefix, text)?
            && refused.as_str() == want,
    )
}

// Each refused form, with the nearest one that is accepted.
#[test]
fn lines_are_refused_and_the_nearest_others_taken(rt: HostRuntime) -> Result<(), Fail> {
    for row in LINES.lines() {
        assert!(rt; is_told(rt.alloc(), row)?, "{row}");
    }
    Ok(())
}

// Lines with bytes that are no text.
#[test]
fn names_texts_and_attributes_have_bytes_that_are_no_text(rt: HostRuntime) -> Result<(), Fail> {
    let alloc = rt.alloc();
    let text = b"Ax T \xff \r\n(:\x80_\n-\x00\xff\r\n):\x80_\n";
    assert!(rt; are_told(alloc, text, b"(a\n):\x80 \n", "line 2: bad form")?);
    assert!(rt; are_told(alloc, text, b"AT \xff\n", "line 1: bad form")?);
    Ok(())
}

// The bytes of parts with `|` between them. Each part is a text, `*`, and how often the text is repeated.
fn made_of(alloc: Global, parts: &str) -> Result<Vec<u8>, Fail> {
    let mut bytes = Vec::new(alloc);
    for part in parts.split('|') {
        let (text, count) = part.rsplit_once('*').ok_or("no count")?;
        let text = text.replace(alloc, ';', "\n")?;
        bytes.extend_from_slice(text.repeat(alloc, count.parse()?)?.as_bytes())?;
    }
    Ok(bytes)
}

// Whether the bytes of a row's parts have the row's fault, or are a document where the fault is empty.
fn has_its_fault(alloc: Global, row: &str) -> Result<bool, Fail> {
    let (want, parts) = row.split_once('|').ok_or("no parts")?;
    Ok(fault(alloc, made_of(alloc, parts)?)?.as_str() == want)
}

// Each pair of causes that one line can have: the fault, and the lines.
const CAUSES: &str = "line 4: bad form|(a;)a;C;*1|N*1
line 4: bad form|(a;)a;C;*1|(*1|n*256
line 4: bad form|(a;)a;C;*1|(*1|n*1
line 4: bad form|(a;)a;C;*1|)*1|n*1
line 4: bad form|(a;)a;C;*1|#*1|n*1
line 4: bad form|(a;)a;C;*1|C*1
line 1: bad form|(*1|n*256| *1
line 1: bad form|A*1|n*256| a*1
line 3: bad form|(a;)a;*1|(*1|n*1| *1
line 1: bad form|)*1|n*1| *1
line 2: bad form|(a;*1|C*1|n*1
line 256: bad form|(a;*255|(*1|n*1| *1
line 65536: bad form|Ax A;*65535|A*1|n*1
line 3: name too long|(a;)a;*1|(*1|n*256
line 3: name too long|(a;)a;*1|A*1|n*256| A*1
line 1: name too long|)*1|n*256
line 256: name too long|(a;*255|(*1|n*256
line 65536: name too long|Ax A;*65535|A*1|n*256| A*1
line 256: too deep|(a;*255|(*1|n*255
line 65536: too many attributes|Ax A;*65535|A*1|n*255| A*1
line 65536: unbalanced|Ax A;*65535|)*1|n*255
line 65536: unbalanced|Ax A;*65534|A*1|n*255| A*1";

#[test]
fn of_two_causes_the_first_of_the_table_is_named(rt: HostRuntime) -> Result<(), Fail> {
    for row in CAUSES.lines() {
        assert!(rt; has_its_fault(rt.alloc(), row)?, "{row}");
    }
    Ok(())
}

const PASSED_BY: &str = "?xml version=\"1.0\";Aid CDATA f1;(Folder;-a\\nb;)Folder;C;
Aid CDATA f1;#C;L;(Folder;?(b;-a\\nb;)Folder;LC;C
Aid CDATA f1;(Folder;-a\\nb;#)Folder;)Folder;?;L;#";

// The closing line at each position: the fault, or nothing, and the lines.
const CLOSED: &str = "line 2: bad form|C;(a;-x;)a;
line 2: unbalanced|(a;C;-x;)a;
|(a;-x;)a;C;
line 2: unbalanced|Ax A;C;(a;)a;
line 5: bad form|(a;-x;)a;C;;
line 5: unbalanced|?;(a;#;L;)b;";

// Whether the lines of a row are this document.
fn is_folder(alloc: Global, row: &str) -> Result<bool, Fail> {
    let text = "Aid CDATA f1;(Folder;-a\\nb;)Folder;".replace(alloc, ';', "\n")?;
    let bytes = row.replace(alloc, ';', "\n")?;
    is_read_as(alloc, bytes.as_bytes(), text.as_bytes())
}

// Whether the lines of a row have the row's fault.
fn is_closed_so(alloc: Global, row: &str) -> Result<bool, Fail> {
    let (want, text) = row.split_once('|').ok_or("one field")?;
    let text = text.replace(alloc, ';', "\n")?;
    Ok(fault(alloc, Vec::from_slice(alloc, text.as_bytes())?)?.as_str() == want)
}

#[test]
fn lines_of_no_document_are_passed_by(rt: HostRuntime) -> Result<(), Fail> {
    for row in PASSED_BY.lines() {
        assert!(rt; is_folder(rt.alloc(), row)?, "{row}");
    }
    for row in CLOSED.lines() {
        assert!(rt; is_closed_so(rt.alloc(), row)?, "{row}");
    }
    Ok(())
}

// Limits: the fault, or nothing where the bytes are a document, and the parts.
const LIMITS: &str = "|(a;*254|)a;*254
|(a;*255|)a;*255
line 256: too deep|(a;*256
|A*1|n*255| T;(a;)a;*1
line 1: name too long|(*1|n*256|;*1
|Ax T;*65535|(a;)a;*1
line 65536: too many attributes|Ax T;*65536
|(a;-*1|12345678*4194303|;)a;*1
more than 33554432 bytes|(a;-0*1|12345678*4194303|;)a;*1";

#[test]
fn depth_names_attributes_and_bytes_have_limits(rt: HostRuntime) -> Result<(), Fail> {
    for row in LIMITS.lines() {
        assert!(rt; has_its_fault(rt.alloc(), row)?, "{row}");
    }
    let bytes = made_of(rt.alloc(), "(a;*1|-;-;-;-;-;*1677721|)a;*1")?;
    let doc = read_doc(rt.alloc(), &mut SureSource::new(bytes))?;
    assert_eq!(rt; doc.root.items.len(), 8_388_605);
    Ok(())
}

// Each read gives one of fourteen bytes, and the fifteenth read is at the end.
#[test]
fn bytes_come_one_by_one_and_a_failure_is_told(rt: HostRuntime) -> Result<(), Fail> {
    for number in 0..17 {
        let bytes = Vec::from_slice(rt.alloc(), b"Ax A\n(a\n-1\n)a\n")?;
        let fails = Vec::from_slice(rt.alloc(), &[number])?;
        let answer = read_doc(rt.alloc(), &mut MemSource::new(bytes, 1, fails));
        let failed = matches!(&answer, Err(DocFault::SourceFault));
        assert_eq!(rt; answer.is_ok(), number > 14, "read {number}");
        assert_eq!(rt; failed, number <= 14, "read {number}");
    }
    Ok(())
}
