//! Where a line ends.
ghost use Rattle.ios_lines.specs.Texts.{HasNoFeed, IsLine};
ghost use Rattle.std.specs.Prelude.{◌≡◌, ◌<◌, ◌≤◌, length, slice_index};

use bstr::ByteSlice;

/// Where the line that begins at a place ends, and of how many bytes its end is.
pub(crate) fn line_end(bytes: &[u8], from: usize) -> (usize, u8)
    requires { from < length bytes.now }
    ensures { IsLine bytes.now from result.0 result.1 }
{
    let rest = &bytes[from..];
    match rest.find_byte(b'\n') {
        None => (bytes.len(), 0),
        Some(len) => feed_end(bytes, from, from + len),
    }
}

/// Where a line ends with a line feed, which may have a carriage return of the line before it.
fn feed_end(bytes: &[u8], from: usize, feed: usize) -> (usize, u8)
    requires order { from ≤ feed }
    requires within { feed < length bytes.now }
    requires feed { slice_index bytes.now feed ≡ 10 }
    requires first { HasNoFeed bytes.now from feed }
    ensures { IsLine bytes.now from result.0 result.1 }
{
    if from < feed && bytes[feed - 1] == b'\r' {
        (feed - 1, 2)
    } else {
        (feed, 1)
    }
}
