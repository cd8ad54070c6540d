//! What a line is.
ghost use Rattle.arc_base.specs.Words.{words};
ghost use Rattle.ios_lines.specs.Kinds.{after_line, is_head, is_inert, kind, kind_within};
ghost use Rattle.ios_lines.specs.Kinds.{opens_block, top_kind};
ghost use Rattle.std.specs.List.{starts_with};
ghost use Rattle.std.specs.Prelude.{◌≡◌, ◌∷◌, []};
ghost use Rattle.std.specs.Str.{bytes_eq};

use crate::banner::{Delimiter, begun, stands};
use crate::blanks::{first_word, is_indented, is_mark};

const HOSTNAME: &[u8] = b"hostname";

const ACCESS_LIST: &[u8] = b"access-list";

const IP: &[u8] = b"ip";

const PREFIX_LIST: &[u8] = b"prefix-list";

const BANNER: &[u8] = b"banner";

/// What a line is.
#[derive(Clone, Copy, Debug, PartialEq, Eq)]
pub(crate) enum Kind {
    /// A line without words.
    Blank,
    /// A comment that closes the open block.
    Comment,
    /// An indented comment.
    Remark,
    /// An indented line, which belongs to the open block.
    Inner,
    /// A top line that opens no block.
    Single,
    /// A top line that opens a block.
    Head,
    /// A line of a banner.
    Banner,
}

/// Whether the first word of a line is this one.
fn begins_with(line: &[u8], word: &[u8]) -> bool
    ensures { result ≡ starts_with bytes_eq (words line.now) (word.now ∷ []) }
{
    match first_word(line) {
        Some((first, _)) => first == word,
        None => false,
    }
}

/// Whether a top line of this first word, and this after it, opens a block, where it begins no
/// banner.
fn opens_block(word: &[u8], rest: &[u8]) -> bool
    ensures { result ≡ opens_block (word.now ∷ words rest.now) }
{
    if word == HOSTNAME || word == ACCESS_LIST {
        return false;
    }
    if word == IP {
        return !begins_with(rest, PREFIX_LIST);
    }
    true
}

/// What a top line of this first word, and this after it, is.
fn top_kind(word: &[u8], rest: &[u8]) -> Kind
    ensures { result ≡ top_kind (word.now ∷ words rest.now) }
{
    if word == BANNER {
        Kind::Banner
    } else if opens_block(word, rest) {
        Kind::Head
    } else {
        Kind::Single
    }
}

/// What a line is where no banner is open.
fn kind_alone(line: &[u8]) -> Kind
    ensures { result ≡ kind line.now }
{
    let Some((word, rest)) = first_word(line) else {
        return Kind::Blank;
    };
    match (is_indented(line), is_mark(word)) {
        (true, true) => Kind::Remark,
        (true, false) => Kind::Inner,
        (false, true) => Kind::Comment,
        (false, false) => top_kind(word, rest),
    }
}

/// What a line is, where a banner is open before it or none.
pub(crate) fn kind_within(banner: Option<Delimiter>, line: &[u8]) -> Kind
    ensures { result ≡ kind_within banner line.now }
{
    match banner {
        None => kind_alone(line),
        Some(_) => Kind::Banner,
    }
}

/// What ends the banner that is open after a line of this kind, from that before it.
pub(crate) fn banner_after(banner: Option<Delimiter>, kind: Kind, line: &[u8]) -> Option<Delimiter>
    requires { kind ≡ kind_within banner line.now }
    ensures { result ≡ after_line banner line.now }
{
    match banner {
        Some(delimiter) if stands(delimiter, line) => None,
        Some(delimiter) => Some(delimiter),
        None if kind == Kind::Banner => begun(line),
        None => None,
    }
}

impl Kind {
    /// Whether a line of this kind heads a block.
    pub(crate) fn is_head(self) -> bool
        ensures { result ≡ is_head self }
    {
        matches!(self, Kind::Head)
    }

    /// Whether a line of this kind says nothing.
    pub(crate) fn is_inert(self) -> bool
        ensures { result ≡ is_inert self }
    {
        matches!(
            self,
            Kind::Blank | Kind::Comment | Kind::Remark | Kind::Banner
        )
    }
}
