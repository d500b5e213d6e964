//! Name tests (a name or `*`), read byte by byte.

ghost use Rattle.std.specs.Prelude.{◌≡◌, IfOk};
ghost use Rattle.xpath_rules.specs.PathMachine.{choose, test_rows, longer_test, has_room};

use crate::lists::{only, with_last};
use acl_model::limits::MOST_NAME_BYTES;
use acl_model::{Test, may_begin_name};
use std::alloc::{AllocError, Global};

/// The test that begins with this byte. `None` where none does.
pub fn first_test(alloc: Global, byte: u8) -> Result<Option<Test>, AllocError>
    ensures { IfOk result (λ test. test ≡ choose (test_rows (λ t. t)) byte) }
{
    if byte == b'*' {
        return Ok(Some(Test::Any));
    }
    if !may_begin_name(byte) {
        return Ok(None);
    }
    Ok(Some(Test::Named(only(alloc, byte)?)))
}

/// Whether the test is a name of fewer than 255 bytes.
pub fn has_room(test: &Test) -> bool
    ensures { result ≡ has_room test.now }
{
    match test {
        Test::Any => false,
        Test::Named(name) => name.len() < MOST_NAME_BYTES,
    }
}

/// The test with one more byte at the end of its name.
pub fn longer(test: Test, byte: u8) -> Result<Test, AllocError>
    ensures { IfOk result (λ test'. test' ≡ longer_test test byte) }
{
    match test {
        Test::Any => Ok(Test::Any),
        Test::Named(name) => Ok(Test::Named(with_last(name, byte)?)),
    }
}
