//! Runs of `encode`.

use super::*;

/// Documents, the lengths of their files, and their roots by Python's hashlib and openssl.
const FILES: &str =
    "(a;-hi;)a|352|root d34472f628c9cb7e82921bf1840cf8d6ce4a11d5ce0e694e859f4f4e91ad8eb2
HOSPITAL|352|root 192458bf220db5d92fd62d4af0d3cecb63490b62c211eba93d9f548995a1a1d0
(r;{255*(n#;)n#;})r|3296|root 7c0f72eaed827353c0504faaabed9bbe9528a9942d60a3a359d7974b7fb13ce1";

#[test]
fn a_document_is_encoded_and_its_root_noted(rt: HostRuntime) -> Result<(), Fail> {
    let alloc = rt.alloc();
    for row in FILES.lines() {
        let (document, rest) = cut(row, '|')?;
        let (length, note) = cut(rest, '|')?;
        let length: usize = length.parse()?;
        let ended = run_over(alloc, "encode;k", "KEYS", document)?;
        assert_eq!(rt; ended.outcome, Outcome::Done, "{row}");
        let file = ended.out.written();
        assert_eq!(rt; file.len(), length, "{row}");
        assert!(rt; file.starts_with(b"SKIPIDX1"), "{row}");
        assert_lines(&rt, row, ended.note.written(), note)?;
    }
    Ok(())
}
