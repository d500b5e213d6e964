//! The sample document and its line, worked out by hand. Folder i has i mod 4 acts. The physician of its act j is Ana,
//! Bea or Cy, where (i + j) mod 3 is 0, 1 or 2.

use super::*;
use acl_model::{Element, Item, Sign};
use std::test::Fail;

/// Writes the lines of an element, with `;` instead of each line feed.
fn write(text: &mut String, element: &Element) -> Result<(), Fail> {
    let name = str::from_utf8(element.name.as_slice())?;
    for raw in element.attributes.as_slice() {
        write!(text, "A{};", str::from_utf8(raw.as_slice())?)?;
    }
    write!(text, "({name};")?;
    for item in element.items.as_slice() {
        match item {
            Item::Text(bytes) => write!(text, "-{};", str::from_utf8(bytes.as_slice())?)?,
            Item::Child(child) => write(text, child.get())?,
        }
    }
    write!(text, "){name};")?;
    Ok(())
}

#[test]
fn the_last_folder_is_spelled_so(rt: HostRuntime) -> Result<(), Fail> {
    for (n, lines) in [
        (
            1,
            "AId CDATA f1;(Folder;(Admin;(SSN;-100007001;)SSN;(Fname;-Patient1;)Fname;(Age;-21;)Age;)Admin;\
            (Act;(RPhys;-Cy;)RPhys;(Details;-note 1.1;)Details;)Act;)Folder;",
        ),
        (
            2,
            "AId CDATA f2;(Folder;(Admin;(SSN;-100014002;)SSN;(Fname;-Patient2;)Fname;(Age;-22;)Age;)Admin;\
            (Act;(RPhys;-Ana;)RPhys;(Details;-note 2.1;)Details;)Act;\
            (Act;(RPhys;-Bea;)RPhys;(Details;-note 2.2;)Details;)Act;)Folder;",
        ),
        (
            140,
            "AId CDATA f140;(Folder;(Admin;(SSN;-100980140;)SSN;(Fname;-Patient140;)Fname;(Age;-20;)Age;)Admin;)Folder;",
        ),
    ] {
        let doc = hospital(rt.alloc(), n)?;
        assert_eq!(rt; doc.root.name.as_slice(), b"Hospital".as_slice());
        assert!(rt; doc.root.attributes.is_empty());
        assert_eq!(rt; doc.root.items.len(), n as usize);
        let mut text = String::new(rt.alloc());
        match doc.root.items.as_slice() {
            [.., Item::Child(folder)] => write(&mut text, folder.get())?,
            _ => return Err("no folder".into()),
        }
        assert_eq!(rt; text.as_str(), lines);
    }
    Ok(())
}

#[test]
fn the_line_counts_elements_lines_and_the_patients_of_ana(rt: HostRuntime) -> Result<(), Fail> {
    for (n, line) in [
        (1, "sample elements=9 lines=24 view=0\n"),
        (2, "sample elements=20 lines=54 view=15\n"),
        (4, "sample elements=39 lines=106 view=28\n"),
    ] {
        let doc = hospital(rt.alloc(), n)?;
        let made = sample_line(rt.alloc(), n, &doc)?;
        assert_eq!(rt; made.as_slice(), line.as_bytes());
    }
    Ok(())
}

#[test]
fn the_rule_is_spelled_so(rt: HostRuntime) -> Result<(), Fail> {
    let rule = rule::sample_rule(rt.alloc())?;
    assert_eq!(rt; rule.id.as_slice(), b"S".as_slice());
    assert_eq!(rt; rule.sign, Sign::Grant);
    let path = xpath_rules::write_path(rt.alloc(), &rule.path)?;
    let canonical = b"//Folder[Act/RPhys=\"Ana\"]/Admin".as_slice();
    assert_eq!(rt; path.as_slice(), canonical);
    Ok(())
}
