//! Tables of texts: accepted ones with the nearest ones that are refused. Each expected answer was worked out by hand
//! from the rules of the format. In a table each line is a case, `|` separates its fields, and `;` is a line feed.

use acl_model::{Operand, Sign};
use licence::{
    KeysError, LicenceFault, read_body, read_keys, read_licence, seal_text, sealed_is_read,
    written_is_read,
};
use std::alloc::{AllocError, Global};
use std::test::Fail;

const HEAD: &str =
    "licence 1\nroot 0000000000000000000000000000000000000000000000000000000000000000\nuser Ana\n";

/// The answer as text, without the licence and without the seals.
fn told<T: Drop>(alloc: Global, answer: Result<T, LicenceFault>) -> Result<String, AllocError> {
    match answer {
        Ok(_) => Ok(format!(in alloc; "read")?),
        Err(LicenceFault::BadLicence { line }) => Ok(format!(in alloc; "line {line}")?),
        Err(LicenceFault::BadRule { line, at }) => Ok(format!(in alloc; "line {line} at {at}")?),
        Err(LicenceFault::TooManyRules) => Ok(format!(in alloc; "rules")?),
        Err(LicenceFault::TooManyStates) => Ok(format!(in alloc; "states")?),
        Err(LicenceFault::BadSeal { .. } | LicenceFault::NoMemory) => {
            Ok(format!(in alloc; "other")?)
        }
    }
}

/// Whether this is the answer to the body.
fn is_answer(alloc: Global, body: &str, want: &str) -> Result<bool, Fail> {
    Ok(told(alloc, read_body(alloc, body.as_bytes()))?.as_str() == want)
}

// The answer, and the body, in which `Z` is 62 zeros.
const HEADS: &str = "line 1|
line 1|licence 2;root Z;
line 1|licence 1\r;root Z;
line 2|licence 1
read|licence 1;root FaZ;user A;end;
line 2|licence 1;root 0Z;user A;
line 2|licence 1;root 000Z;user A;
line 2|licence 1;root g0Z;user A;
line 3|licence 1;root 00Z
line 3|licence 1;root 00Z;user ;end
line 4|licence 1;root 00Z;user A;";

fn is_head_answered(alloc: Global, row: &str) -> Result<bool, Fail> {
    let (want, body) = row.split_once('|').ok_or("one field")?;
    let body = body.replace(alloc, ';', "\n")?;
    let body = body.replace(alloc, "Z", "0".repeat(alloc, 62)?.as_str())?;
    is_answer(alloc, body.as_str(), want)
}

#[test]
fn the_first_three_lines_have_their_forms(rt: HostRuntime) -> Result<(), Fail> {
    for row in HEADS.lines() {
        assert!(rt; is_head_answered(rt.alloc(), row)?, "{row}");
    }
    Ok(())
}

// The answer, a byte, and how many of it the user has.
const USERS: &str = "line 3|97|0
read|97|1
read|97|255
line 3|97|256
line 3|31|1
read|32|1
read|126|1
line 3|127|1
read|128|1
read|255|1";

fn is_user_answered(alloc: Global, row: &str) -> Result<bool, Fail> {
    let (want, rest) = row.split_once('|').ok_or("one field")?;
    let (byte, count) = rest.split_once('|').ok_or("two fields")?;
    let byte: u32 = byte.parse()?;
    if byte > 255 {
        return Err("no byte".into());
    }
    let byte = byte as u8;
    let count: u32 = count.parse()?;
    let head = HEAD.as_bytes();
    let mut body = Vec::from_slice(alloc, &head[..head.len() - 4])?;
    for _ in 0..count {
        body.push(byte)?;
    }
    body.extend_from_slice("\nend\n".as_bytes())?;
    Ok(told(alloc, read_body(alloc, body.as_slice()))?.as_str() == want)
}

#[test]
fn a_user_has_1_to_255_bytes_that_are_no_control_characters(rt: HostRuntime) -> Result<(), Fail> {
    for row in USERS.lines() {
        assert!(rt; is_user_answered(rt.alloc(), row)?, "{row}");
    }
    Ok(())
}

// The answer, and the lines after the user's: each cause alone, pairs of them in both orders, and the bytes of an id.
const RESTS: &str = "read|end;
read|end
read|+ A /a;- B /a;end;
line 4|end\r;
line 4|;end;
line 5|+ A /a;
line 5|end;;
line 5|end;+ A a;
line 4 at 0|+ A a;end;;
line 4|* A /a;+ B a;end;
line 4 at 0|+ B a;* A /a;end;
line 5|+ A /a;+ A a;end;
line 5|+ A /a;+ A /b;+ B b;end;
line 5 at 0|+ A /a;+ B b;+ A /b;end;
line 6|+ A /a;+ B /a;- A /a;end;
read|+ A /a;+ a /a;end;
line 4 at 5|+ A //a[.];end;
line 4 at 2|+ A /a\r;end;
line 4 at 0|+ A ;end;
line 4|+ A;end;
read|+ - /a;end;
read|+ abcdefghijklmnopqrstuvwxyz_-.012 /a;end;
read|+ ABCDEFGHIJKLMNOPQRSTUVWXYZ345678 /a;end;
line 4|+ abcdefghijklmnopqrstuvwxyz_-.0129 /a;end;
line 4|+ a/b /a;end;
line 4|+ \u{e9} /a;end;
line 4 at 0|+ a b /a;end;
line 4|+  A /a;end;
line 4|+A /a;end;";

fn is_rest_answered(alloc: Global, row: &str) -> Result<bool, Fail> {
    let (want, rest) = row.split_once('|').ok_or("one field")?;
    let rest = rest.replace(alloc, ';', "\n")?;
    let body = format!(in alloc; "{HEAD}{rest}")?;
    is_answer(alloc, body.as_str(), want)
}

#[test]
fn the_first_refused_line_is_named(rt: HostRuntime) -> Result<(), Fail> {
    for row in RESTS.lines() {
        assert!(rt; is_rest_answered(rt.alloc(), row)?, "{row}");
    }
    Ok(())
}

// The answer, the number of rules, the path of each, and the lines after them.
const COUNTS: &str = "read|64|/a|end;
rules|65|/a|end;
rules|64|/a|-;end;
line 68|64|/a|;end;
line 68|64|/a|R;end;
line 67|63|/a|-;end;
line 68|64|/a|
line 69|64|/a|end;end;
rules|65|/a/a/a/a/a|end;
states|52|/a/a/a/a/a|end;
line 56 at 0|52|/a/a/a/a/a|+ S a;end;
line 57|52|/a/a/a/a/a|end;;";

/// As many rules as `count` says, each with this path.
fn rules(alloc: Global, count: u32, path: &str) -> Result<String, AllocError> {
    let mut text = String::new(alloc);
    for number in 0..count {
        text.push_str(format!(in alloc; "+ R{number} {path}\n")?.as_str())?;
    }
    Ok(text)
}

fn is_count_answered(alloc: Global, row: &str) -> Result<bool, Fail> {
    let (want, rest) = row.split_once('|').ok_or("one field")?;
    let (count, rest) = rest.split_once('|').ok_or("two fields")?;
    let (path, rest) = rest.split_once('|').ok_or("three fields")?;
    let rules = rules(alloc, count.parse()?, path)?;
    let rest = rest.replace(alloc, ';', "\n")?;
    let body = format!(in alloc; "{HEAD}{rules}{rest}")?;
    is_answer(alloc, body.as_str(), want)
}

#[test]
fn there_are_at_most_64_rules(rt: HostRuntime) -> Result<(), Fail> {
    for row in COUNTS.lines() {
        assert!(rt; is_count_answered(rt.alloc(), row)?, "{row}");
    }
    Ok(())
}

// The answer, and one rule's path: what it begins with, a part, how often the part is there, and the rest of the body.
// `N` is a name of 255 bytes.
const LIMITS: &str = "read||/a|256|;
states||/a|257|;
read||/a|255|;+ S /a;
states||/a|256|;+ S /a;
read|/a[b|/b|255|];
states|/a[b|/b|256|];
read|/a[b|/b|254|];+ S /a[b];
states|/a[b|/b|255|];+ S /a[b];
read|/a|[b]|64|;
states|/a|[b]|65|;
read|/a|[b]|63|;+ S /a[@b];
states|/a|[b]|64|;+ S /a[@b];
read||/N|4|;
line 4 at 1024||/N|4|/;";

fn is_limit_answered(alloc: Global, row: &str) -> Result<bool, Fail> {
    let (want, rest) = row.split_once('|').ok_or("one field")?;
    let (prefix, rest) = rest.split_once('|').ok_or("two fields")?;
    let (part, rest) = rest.split_once('|').ok_or("three fields")?;
    let (count, rest) = rest.split_once('|').ok_or("four fields")?;
    let part = part.replace(alloc, "N", "a".repeat(alloc, 255)?.as_str())?;
    let part = part.as_str().repeat(alloc, count.parse()?)?;
    let rest = rest.replace(alloc, ';', "\n")?;
    let body = format!(in alloc; "{HEAD}+ R {prefix}{part}{rest}end\n")?;
    is_answer(alloc, body.as_str(), want)
}

#[test]
fn the_limits_are_over_all_rules(rt: HostRuntime) -> Result<(), Fail> {
    for row in LIMITS.lines() {
        assert!(rt; is_limit_answered(rt.alloc(), row)?, "{row}");
    }
    Ok(())
}

#[test]
fn a_licence_has_the_parts_of_its_body(rt: HostRuntime) -> Result<(), Fail> {
    written_is_read();
    let body = format!(in rt.alloc(); "{HEAD}- R0 /a[. = USER]\nend\n")?;
    let licence = read_body(rt.alloc(), body.as_bytes())?;
    assert_eq!(rt; licence.root, [0; 32]);
    assert_eq!(rt; licence.user.as_slice(), b"Ana".as_slice());
    let [rule] = licence.rules.as_slice() else {
        return Err("one rule".into());
    };
    assert_eq!(rt;
        (rule.id.as_slice(), rule.sign),
        (b"R0".as_slice(), Sign::Deny)
    );
    let [step] = rule.path.steps.as_slice() else {
        return Err("one step".into());
    };
    let [pred] = step.preds.as_slice() else {
        return Err("one predicate".into());
    };
    let Some(cmp) = &pred.cmp else {
        return Err("a comparison".into());
    };
    assert!(rt;
        matches!(&cmp.operand, Operand::User(user) if user.as_slice() == b"Ana".as_slice())
    );
    Ok(())
}

/// The seal key of the bytes 00 to 1F.
fn seal_key() -> [u8; 32] {
    let mut key = [0; 32];
    let mut byte = 0u8;
    for place in key.iter_mut() {
        *place = byte;
        byte = byte.wrapping_add(1);
    }
    key
}

// Seals under this key, made by the module `hmac` of Python 3.11. `OF_GOOD` is that of `HEAD` and `GOOD_RULE`.
const OF_GOOD: &str = "3c5ddfa07433accf481c32ea5f93078ff989e0aefd21c990bb8aa6e1264e4e9d";

const OF_GOOD_FOR_BEA: &str = "3f519f26050a72a648821f560fa7e942cbc39bc0f6e6062e0c2cea94cbd58618";

const OF_GOOD_VERSION_2: &str = "322b008c739efe4d82950eee8a78236ef20fc1e508c7ac08c1f51cd2c1fa2869";

const OF_NOTHING: &str = "d38b42096d80f45f826b44a9d5607de72496a415d3f4a1a8c88e3bb9da8dc1cb";

const GOOD_RULE: &str = "+ R /a[b = USER]\nend\n";

// The answer, and the text, in which `G` is the seal of a good body, `Y` that of no bytes, and `Z` is `HEAD`.
const SEALED: &str = "read|seal G;Z+ R /a[b = USER];end;
read|seal 3C5DDFA07433ACCF481C32EA5F93078FF989E0AEFD21C990BB8AA6E1264E4E9D;Z+ R /a[b = USER];end;
line 2|seal Y;
line 3|seal f555a1cb1dfa635af69e94011caa36d80cc5e853271acb6a8067bdc9fe3ad8a0;licence 1;
line 5 at 0|seal 2ef03ab38e87755696b5f12e8cf20c206a27a6969375a522ace96a57e81c9a6f;Z+ R a;end;
line 6|seal ac0034aaec5d8b000ab5c0e249301ae565a65217a9402f0864e0736c8ceed2bc;Zend;;
line 1|seal Y
line 1|seal Y\r;
line 1|seal Y0;
line 1|seal  Y;
line 1|Seal Y;
line 1|Z+ R /a[b = USER];end;";

fn is_seal_answered(alloc: Global, row: &str) -> Result<bool, Fail> {
    let (want, text) = row.split_once('|').ok_or("one field")?;
    let text = text.replace(alloc, "G", OF_GOOD)?;
    let text = text.replace(alloc, "Y", OF_NOTHING)?;
    let text = text.replace(alloc, "Z", HEAD)?;
    let text = text.replace(alloc, ';', "\n")?;
    let answer = read_licence(alloc, text.as_bytes(), &seal_key());
    Ok(told(alloc, answer)?.as_str() == want)
}

#[test]
fn a_sealed_licence_is_refused_by_its_own_lines(rt: HostRuntime) -> Result<(), Fail> {
    for row in SEALED.lines() {
        assert!(rt; is_seal_answered(rt.alloc(), row)?, "{row}");
    }
    Ok(())
}

#[test]
fn what_is_sealed_is_read_again_and_nothing_else_is(rt: HostRuntime) -> Result<(), Fail> {
    sealed_is_read();
    let alloc = rt.alloc();
    let body = format!(in alloc; "{HEAD}{GOOD_RULE}")?;
    let want = format!(in alloc; "seal {OF_GOOD}\n{body}")?;
    let text = seal_text(alloc, body.as_bytes(), &seal_key())?;
    assert_eq!(rt; text.as_slice(), want.as_bytes());
    let refused = seal_text(alloc, b"licence 1\n", &seal_key());
    assert_eq!(rt; told(alloc, refused)?.as_str(), "line 2");
    // A changed body is refused for its seal, also where it is refused for itself.
    for (old, new, made_of_it) in [
        ("Ana", "Bea", OF_GOOD_FOR_BEA),
        ("e 1", "e 2", OF_GOOD_VERSION_2),
    ] {
        let changed = want.replace(alloc, old, new)?;
        match read_licence(alloc, changed.as_bytes(), &seal_key()) {
            Err(LicenceFault::BadSeal { given, made }) => {
                assert_eq!(rt; hex::encode(alloc, given.as_slice())?.as_str(), OF_GOOD);
                assert_eq!(rt; hex::encode(alloc, made.as_slice())?.as_str(), made_of_it);
            }
            _ => return Err("another seal".into()),
        }
    }
    Ok(())
}

// The refused line, or 0, and the text, in which `Z` is 30 zeros.
const KEYS: &str = "0|document ffZ;seal 0fZZ00;
0|document FFZ;seal 0FZZ00
1|
1|document 00
1|document 0Z;
1|seal 00ZZ00;document 00Z;
1|document 00Z\r;seal 00ZZ00;
2|document 00Z;
2|document 00Z;seal 00Z;
2|document 00Z;;seal 00ZZ00;
3|document 00Z;seal 00ZZ00;;
3|document 00Z;seal 00ZZ00;end";

fn are_keys_answered(alloc: Global, row: &str) -> Result<bool, Fail> {
    let (want, text) = row.split_once('|').ok_or("one field")?;
    let text = text.replace(alloc, ';', "\n")?;
    let text = text.replace(alloc, "Z", "0".repeat(alloc, 30)?.as_str())?;
    let line = match read_keys(alloc, text.as_bytes()) {
        Ok(keys) if keys.document[0] == 255 && keys.seal[0] == 15 => 0,
        Ok(_) | Err(KeysError::NoMemory) => 9,
        Err(KeysError::BadKeys { line }) => line,
    };
    let want: u32 = want.parse()?;
    Ok(line == want)
}

#[test]
fn keys_are_two_lines(rt: HostRuntime) -> Result<(), Fail> {
    for row in KEYS.lines() {
        assert!(rt; are_keys_answered(rt.alloc(), row)?, "{row}");
    }
    Ok(())
}
