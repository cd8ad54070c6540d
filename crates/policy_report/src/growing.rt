//! A block after its next line.
ghost use Rattle.policy_report.specs.Readings.{line_words};
ghost use Rattle.policy_report.specs.Steps.{grown, with_side, with_path};
ghost use Rattle.std.specs.Prelude.{◌≡◌, IfOk};

use crate::drafts::{Block, Draft};
use crate::reading::{
    closed_of, cut_of, denied_of, line_words, path_of, refused_of, side_line_of, walk_of,
};
use arc_base::{List, Memory};
use net_model::{ClassSide, LinkPath, Network, Verdict};
use std::alloc::Global;

/// One more side.
fn with_side(left: u32, mut sides: List<ClassSide>, shown: ClassSide) -> Result<Block, Memory>
    ensures { IfOk result (λ block. block ≡ with_side left sides shown) }
{
    if sides.len() == u32::MAX {
        return Err(Memory);
    }
    sides.push(shown)?;
    if left <= 1 {
        return Ok(Block::Whole(Verdict::Closed(sides)));
    }
    Ok(Block::Open(Draft::Sides(left - 1, sides)))
}

/// One more path.
fn with_path(left: u32, mut paths: List<LinkPath>, path: LinkPath) -> Result<Block, Memory>
    ensures { IfOk result (λ block. block ≡ with_path left paths path) }
{
    if paths.len() == u32::MAX {
        return Err(Memory);
    }
    paths.push(path)?;
    if left <= 1 {
        return Ok(Block::Whole(Verdict::Paths(paths)));
    }
    Ok(Block::Open(Draft::Paths(left - 1, paths)))
}

/// The block with this line, if that is of the form that comes next.
pub(crate) fn grown(
    alloc: Global,
    net: &Network,
    draft: Draft,
    line: &[u8],
) -> Result<Option<Block>, Memory>
    ensures { IfOk result (λ block. block ≡ grown net.now draft (line_words line.now)) }
{
    let words = line_words(alloc, line)?;
    let words = words.as_slice();
    let block = match draft {
        Draft::Sides(left, sides) => match closed_of(alloc, net, words)? {
            Some(shown) => with_side(left, sides, shown)?,
            None => return Ok(None),
        },
        Draft::Paths(left, paths) => match path_of(alloc, net, words)? {
            Some(path) => with_path(left, paths, path)?,
            None => return Ok(None),
        },
        Draft::Walk => match walk_of(alloc, net, words)? {
            Some((class, path)) => Block::Whole(Verdict::Walk(class, path)),
            None => return Ok(None),
        },
        Draft::Denied => match denied_of(words) {
            Some(class) => Block::Whole(Verdict::Denied(class)),
            None => return Ok(None),
        },
        Draft::Cut => match cut_of(alloc, net, words)? {
            Some(links) => Block::Open(Draft::Side(links)),
            None => return Ok(None),
        },
        Draft::Side(links) => match side_line_of(alloc, net, words)? {
            Some(side) => Block::Whole(Verdict::Cut(links, side)),
            None => return Ok(None),
        },
        Draft::Refused => match refused_of(net, words) {
            Some((packet, link)) => Block::Whole(Verdict::Refused(packet, link)),
            None => return Ok(None),
        },
    };
    Ok(Some(block))
}
