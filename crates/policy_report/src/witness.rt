//! The lines of a verdict's witness, and how many they are.
ghost use Rattle.net_model.specs.declared.rows.Network.{Network};
ghost use Rattle.policy_report.specs.Reports.{closed_line, path_line, witness_lines};
ghost use Rattle.std.specs.List.{concat};
ghost use Rattle.std.specs.Prelude.{◌≡◌, ◌++◌, length, map, OnOk};

use crate::lines::{
    push_closed_line, push_cut_line, push_denied_line, push_path_line, push_refused_line,
    push_side_line, push_walk_line,
};
use arc_base::Memory;
use net_model::{ClassSide, LinkPath, Network, Verdict};
use std::alloc::Global;

/// How many lines the witness has.
pub fn count_lines(verdict: &Verdict) -> u64
    ensures { (net : Network) → result ≡ length (witness_lines net verdict.now) }
{
    match verdict {
        Verdict::Closed(sides) => u64::from(sides.len()),
        Verdict::Paths(paths) => u64::from(paths.len()),
        Verdict::Walk(_, _) | Verdict::Denied(_) | Verdict::Refused(_, _) => 1,
        Verdict::Cut(_, _) => 2,
    }
}

/// The lines of the witness.
pub fn push_witness(
    alloc: Global,
    text: &mut Vec<u8>,
    net: &Network,
    verdict: &Verdict,
) -> Result<(), Memory>
    ensures { OnOk result
        (text.new.items ≡ text.old.items ++ concat (witness_lines net.now verdict.now)) }
{
    match verdict {
        Verdict::Closed(sides) => push_sides(alloc, text, net, sides.slice()),
        Verdict::Paths(paths) => push_paths(alloc, text, paths.slice()),
        Verdict::Walk(class, path) => push_walk_line(alloc, text, class, path.links.slice()),
        Verdict::Denied(class) => push_denied_line(alloc, text, class),
        Verdict::Cut(links, side) => {
            push_cut_line(alloc, text, links.slice())?;
            push_side_line(text, net.routers.slice(), side.slice())
        }
        Verdict::Refused(packet, link) => push_refused_line(alloc, text, packet, *link),
    }
}

fn push_sides(
    alloc: Global,
    text: &mut Vec<u8>,
    net: &Network,
    sides: &[ClassSide],
) -> Result<(), Memory>
    ensures { OnOk result
        (text.new.items ≡ text.old.items ++ concat (map (closed_line net.now) sides.now)) }
{
    for shown in sides {
        push_closed_line(alloc, text, net, shown)?;
    }
    Ok(())
}

/// Writes the lines of these paths.
pub fn push_paths(alloc: Global, text: &mut Vec<u8>, paths: &[LinkPath]) -> Result<(), Memory>
    ensures { OnOk result (text.new.items ≡ text.old.items ++ concat (map path_line paths.now)) }
{
    for path in paths {
        push_path_line(alloc, text, path)?;
    }
    Ok(())
}
