//! Bytes as text.
use std::str;

/// The text that bytes are, or an empty one where they are none.
pub fn text_of(bytes: &[u8]) -> &str {
    str::from_utf8(bytes).unwrap_or("")
}

/// The text that bytes are, or what is printed in its place where they are none.
pub fn shown_text(bytes: &[u8]) -> &str {
    str::from_utf8(bytes).unwrap_or("not text")
}
