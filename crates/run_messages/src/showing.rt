//! Bytes of words and files, made safe to show on a terminal.
use std::{fmt, str};

/// How many bytes are shown: a few rows of a terminal.
const SHOWN: usize = 300;

/// The first bytes of a word or line, as many as are shown: a file that lost its line feeds is one
/// long line. No character is cut in two. Each control character but the tab is shown as a question
/// mark, so that a file cannot steer the terminal. If the bytes are not UTF-8, or have a control
/// character beyond ASCII, each byte above 127 is shown as an escape.
#[derive(Clone, Copy)]
pub struct Shown<'a>(pub &'a [u8]);

/// The first bytes, without a character that is cut in two.
fn front_of(bytes: &[u8]) -> &[u8] {
    let Some(front) = bytes.get(..SHOWN) else {
        return bytes;
    };
    match str::from_utf8(front) {
        Err(error) if error.error_len().is_none() => {
            front.get(..error.valid_up_to()).unwrap_or(front)
        }
        _ => front,
    }
}

/// The text of these bytes, if they are UTF-8 without control characters beyond ASCII.
fn text_of(bytes: &[u8]) -> Option<&str> {
    let text = str::from_utf8(bytes).ok()?;
    if text.chars().any(|c| !c.is_ascii() && c.is_control()) {
        return None;
    }
    Some(text)
}

fn write_text<W: fmt::Write>(f: &mut fmt::Formatter<W>, text: &str) -> fmt::Result {
    for c in text.chars() {
        f.write_char(if c.is_control() && c != '\t' { '?' } else { c })?;
    }
    Ok(())
}

fn write_byte<W: fmt::Write>(f: &mut fmt::Formatter<W>, byte: u8) -> fmt::Result {
    match byte {
        b'\t' | b' '..=b'~' => f.write_char(byte as char),
        0..=127 => f.write_char('?'),
        _ => write!(f, "\\x{byte:02x}"),
    }
}

impl<'a> fmt::Display for Shown<'a> {
    fn fmt<W: fmt::Write>(&self, f: &mut fmt::Formatter<W>) -> fmt::Result {
        let bytes = front_of(self.0);
        if let Some(text) = text_of(bytes) {
            return write_text(f, text);
        }
        for byte in bytes {
            write_byte(f, *byte)?;
        }
        Ok(())
    }
}
