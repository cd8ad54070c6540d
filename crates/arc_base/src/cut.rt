//! Cutting a text at a byte, in one look at each byte up to there.
ghost use Rattle.arc_base.specs.Cuts.{cut_at};
ghost use Rattle.std.specs.Prelude.{◌≡◌, ◌==◌, option_map, position, IfSome, ◌<◌, length};

/// The parts of a text before and after the first of these bytes, if there is one.
pub fn cut_at(text: &[u8], byte: u8) -> Option<(&[u8], &[u8])>
    ensures { option_map (λ parts. (parts.0.now, parts.1.now)) result ≡ cut_at byte text.now }
{
    let place = place_of(text, byte)?;
    Some((&text[..place], &text[place + 1..]))
}

/// The index of the first of these bytes.
fn place_of(text: &[u8], byte: u8) -> Option<usize>
    ensures place { result ≡ position (λ b. b == byte) text.now }
    ensures within { IfSome result (λ place. place < length text.now) }
{
    text.iter().position(|b| *b == byte)
}
