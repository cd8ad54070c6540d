//! Names as router files write them.
ghost use Rattle.arc_base.specs.NameForms.{face_kinds};
ghost use Rattle.ios_words.specs.Names.{is_unit, is_of_kind, is_face_name};
ghost use Rattle.ios_words.specs.Units.{next, ends};
ghost use Rattle.std.specs.Char.{is_ascii_digit};
ghost use Rattle.std.specs.List.{list_any};
ghost use Rattle.std.specs.Prelude.{◌≡◌};

use arc_base::limits::NAME_LIMIT;

/// Whether a word is the name of an interface: a known kind and its numbers, at most `NAME_LIMIT`
/// bytes in all.
pub(crate) fn is_face_name(word: &[u8]) -> bool
    ensures { result ≡ is_face_name word.now }
{
    if word.len() > NAME_LIMIT {
        return false;
    }
    is_of_some_kind(word)
}

/// Whether a word is a known kind and then numbers joined by slashes.
fn is_of_some_kind(word: &[u8]) -> bool
    ensures { result ≡ list_any (is_of_kind word.now) face_kinds }
{
    if is_of_kind(word, b"Ethernet") {
        return true;
    }
    if is_of_kind(word, b"FastEthernet") {
        return true;
    }
    if is_of_kind(word, b"GigabitEthernet") {
        return true;
    }
    if is_of_kind(word, b"TenGigabitEthernet") {
        return true;
    }
    if is_of_kind(word, b"Serial") {
        return true;
    }
    is_of_kind(word, b"Loopback")
}

/// Whether a word is this kind and then numbers joined by slashes.
fn is_of_kind(word: &[u8], kind: &[u8]) -> bool
    ensures { result ≡ is_of_kind word.now kind.now }
{
    if word.len() < kind.len() {
        return false;
    }
    let (front, unit) = word.split_at(kind.len());
    front == kind && is_unit(unit)
}

/// What comes before a byte of numbers joined by slashes.
#[derive(Clone, Copy, Debug, PartialEq, Eq)]
enum Before {
    /// Nothing, or a slash.
    Start,
    /// A number's first digit, which is a zero.
    Zero,
    /// A digit of another number.
    Digit,
}

/// Whether a text is decimal numbers joined by slashes.
fn is_unit(text: &[u8]) -> bool
    ensures { result ≡ is_unit text.now }
{
    let mut before = Before::Start;
    for byte in text {
        match next(before, *byte) {
            Some(after) => before = after,
            None => return false,
        }
    }
    ends(before)
}

/// The state after this byte, if it is allowed here.
fn next(before: Before, byte: u8) -> Option<Before>
    ensures { result ≡ next before byte }
{
    match before {
        Before::Start if byte == b'0' => Some(Before::Zero),
        Before::Start if byte.is_ascii_digit() => Some(Before::Digit),
        Before::Start => None,
        Before::Zero if byte == b'/' => Some(Before::Start),
        Before::Zero => None,
        Before::Digit if byte == b'/' => Some(Before::Start),
        Before::Digit if byte.is_ascii_digit() => Some(Before::Digit),
        Before::Digit => None,
    }
}

/// Whether the numbers may end here.
fn ends(before: Before) -> bool
    ensures { result ≡ ends before }
{
    !matches!(before, Before::Start)
}
