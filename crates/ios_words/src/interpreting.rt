//! A line is read by the rows of its block.
ghost use Rattle.ios_words.specs.Commands.{HasWordsIn, IsAnswer, is_extended_block};
ghost use Rattle.ios_words.specs.Language.{rows};
ghost use Rattle.ios_words.specs.Rows.{rule_of};
ghost use Rattle.ios_words.specs.Trials.{is_short, SaysTheSame};
ghost use Rattle.ios_words.specs.Views.{words_of};
ghost use Rattle.std.specs.List.{list_all};
ghost use Rattle.std.specs.Prelude.{◌≡◌, IsTrue, map};

use crate::block_rows::{bgp_rows, extended_rows, inert_block_rows, ospf_rows, standard_rows};
use crate::commands::Command;
use crate::interface_rows::{interface_ip_rows, interface_rows};
use crate::kinds::{BlockKind, WordFault};
use crate::rows::Row;
use crate::top_rows::{top_ip_rows, top_rows};
use crate::trying::try_rows;
use crate::words::Words;
use ios_lines::Line;
use std::alloc::Global;

/// What a line says in a block of this kind, or why it says nothing. The line is one of those that
/// `cut` gives for the text, and not one that is inert by itself: a blank line, a comment or a line
/// of a banner matches no row, but in an inert block.
pub fn command(
    alloc: Global,
    text: &[u8],
    line: &Line,
    within: BlockKind,
) -> Result<Command, WordFault>
    requires { HasWordsIn text.now line.now }
    ensures { IsAnswer text.now line.now within result }
{
    let words = Words::at(text, line.words.slice());
    let rows = candidates(within, words);
    try_rows(alloc, rows, words, is_extended(within))
}

/// Whether a side of an entry in the block is that of an extended list.
fn is_extended(within: BlockKind) -> bool
    ensures { result ≡ is_extended_block within }
{
    matches!(within, BlockKind::Extended)
}

/// The rows of a block that may match these words: the others don't.
fn candidates(within: BlockKind, words: Words) -> &'static [Row]
    ensures same { SaysTheSame (words_of words.entry) (map rule_of result.now) (rows within) }
    ensures short { IsTrue (list_all is_short (map rule_of result.now)) }
{
    let after_ip = words.begin_with(b"ip");
    match within {
        BlockKind::Top if after_ip => top_ip_rows(words.rest().letter()),
        BlockKind::Top => top_rows(words.letter()),
        BlockKind::Interface if after_ip => interface_ip_rows(words.rest().letter()),
        BlockKind::Interface => interface_rows(words.letter()),
        BlockKind::Ospf => ospf_rows(),
        BlockKind::Bgp => bgp_rows(),
        BlockKind::Extended => extended_rows(),
        BlockKind::Standard => standard_rows(),
        BlockKind::Inert => inert_block_rows(),
    }
}
