//! Text of the command line, as it is written to a terminal.

use std::alloc::{AllocError, Global};

/// The text with each control character escaped, as in `\n` or `\u{1b}`: none of them reaches the terminal.
pub fn shown(alloc: Global, text: &str) -> Result<String, AllocError> {
    let mut all = String::new(alloc);
    for char in text.chars() {
        if char.is_control() {
            for part in char.escape_default() {
                all.push(part)?;
            }
        } else {
            all.push(char)?;
        }
    }
    Ok(all)
}
