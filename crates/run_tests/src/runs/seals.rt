//! Runs of `seal`.

use super::*;

/// HMAC with SHA-256 of the 121 bytes of the body, made by another program.
const SEAL: &str = "seal b2b13ed42a630e66985702f0df35207554b4024a20e0e70a50a10faa606c56e2";

#[test]
fn a_body_is_sealed_as_it_stands(rt: HostRuntime) -> Result<(), Fail> {
    let alloc = rt.alloc();
    let body = "licence 1;root {64*0};user Ana;+ R1 /Hospital/Folder/Admin;end";
    let row = format!(in alloc; "seal;k|KEYS|{body}||{SEAL};{body}|")?;
    assert_row(&rt, row.as_str())
}
