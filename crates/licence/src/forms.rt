//! A keyword followed by hexadecimal digits. Several lines have this form.

ghost use Rattle.std.specs.Prelude.{◌≡◌};
ghost use Rattle.std.specs.Option.{option_copied};
ghost use Rattle.licence.specs.Forms.{text_after, bytes_after};

/// What follows the keyword in the line. `None` where the line doesn't begin with it.
pub fn rest_after<'a>(word: &[u8], line: &'a [u8]) -> Option<&'a [u8]>
    ensures { option_copied result ≡ text_after word.now line.now }
{
    line.strip_prefix(word)
}

/// The 16 bytes whose digits follow the keyword. `None` where the line is not of this form.
pub fn read_16_bytes(word: &[u8], line: &[u8]) -> Option<[u8; 16]>
    ensures { result ≡ bytes_after word.now 16 line.now }
{
    let digits = rest_after(word, line)?;
    let mut bytes = [0; 16];
    match hex::decode_to_slice(digits, &mut bytes) {
        Ok(()) => Some(bytes),
        Err(_) => None,
    }
}

/// The 32 bytes whose digits follow the keyword. `None` where the line is not of this form.
pub fn read_32_bytes(word: &[u8], line: &[u8]) -> Option<[u8; 32]>
    ensures { result ≡ bytes_after word.now 32 line.now }
{
    let digits = rest_after(word, line)?;
    let mut bytes = [0; 32];
    match hex::decode_to_slice(digits, &mut bytes) {
        Ok(()) => Some(bytes),
        Err(_) => None,
    }
}
