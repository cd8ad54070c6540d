//! The text of a verdict on reach under failed routers.
ghost use Rattle.arc_nodecut.specs.NodeText.{answer_word, cut_line};
ghost use Rattle.arc_nodecut.specs.NodeText.{node_witness_lines, node_answer_line, nodes_text};
ghost use Rattle.net_model.specs.declared.rows.Network.{Network};
ghost use Rattle.policy_report.specs.Edits.{router_name};
ghost use Rattle.policy_report.specs.Lines.{after_spaces, line};
ghost use Rattle.std.specs.List.{concat};
ghost use Rattle.std.specs.Prelude.{◌≡◌, ◌++◌, ◌∷◌, [], codes, decimal, length, map, IfOk, OnOk};

use crate::verdict::NodeVerdict;
use arc_base::{Memory, Router};
use net_model::Network;
use policy_report::{
    push_count, push_denied_line, push_paths, push_refused_line, push_side_line, push_word,
};
use std::alloc::Global;

/// The text of a verdict under at most K failed routers: `arc-nodes 1`, the answer with the number
/// of lines that follow, the lines of the witness, and `end`. Links are counted from 1, and routers
/// are named.
pub fn nodes_text(
    alloc: Global,
    net: &Network,
    failures: u32,
    verdict: &NodeVerdict,
) -> Result<Vec<u8>, Memory>
    ensures { IfOk result (λ text. text.items ≡ nodes_text net.now failures verdict.now) }
{
    let mut text = Vec::new(alloc);
    text.extend_from_slice(b"arc-nodes 1\n")?;
    push_answer(alloc, &mut text, failures, verdict)?;
    push_witness(alloc, &mut text, net, verdict)?;
    text.extend_from_slice(b"end\n")?;
    Ok(text)
}

fn push_answer(
    alloc: Global,
    text: &mut Vec<u8>,
    failures: u32,
    verdict: &NodeVerdict,
) -> Result<(), Memory>
    ensures { OnOk result ((net : Network) →
        text.new.items ≡ text.old.items ++ node_answer_line failures net verdict.now) }
{
    text.extend_from_slice(b"reach-routers")?;
    push_count(alloc, text, u64::from(failures))?;
    push_word(text, answer_word(verdict))?;
    push_count(alloc, text, count_lines(verdict))?;
    text.push(b'\n')?;
    Ok(())
}

fn answer_word(verdict: &NodeVerdict) -> &'static [u8]
    ensures { result.now ≡ answer_word verdict.now }
{
    match verdict {
        NodeVerdict::Same | NodeVerdict::Direct(_) | NodeVerdict::Apart(_) => b"yes",
        NodeVerdict::Denied(_) | NodeVerdict::Cut(_, _) => b"no",
        NodeVerdict::Refused(_, _) => b"refused",
    }
}

/// The number of lines of the witness.
fn count_lines(verdict: &NodeVerdict) -> u64
    ensures { (net : Network) → result ≡ length (node_witness_lines net verdict.now) }
{
    match verdict {
        NodeVerdict::Same => 0,
        NodeVerdict::Direct(_) | NodeVerdict::Denied(_) | NodeVerdict::Refused(_, _) => 1,
        NodeVerdict::Apart(paths) => u64::from(paths.len()),
        NodeVerdict::Cut(_, _) => 2,
    }
}

/// Appends the lines of the witness.
fn push_witness(
    alloc: Global,
    text: &mut Vec<u8>,
    net: &Network,
    verdict: &NodeVerdict,
) -> Result<(), Memory>
    ensures { OnOk result
        (text.new.items ≡ text.old.items ++ concat (node_witness_lines net.now verdict.now)) }
{
    match verdict {
        NodeVerdict::Same => Ok(()),
        NodeVerdict::Direct(link) => push_arc_line(alloc, text, u64::from(link.0) + 1),
        NodeVerdict::Apart(paths) => push_paths(alloc, text, paths.slice()),
        NodeVerdict::Denied(class) => push_denied_line(alloc, text, class),
        NodeVerdict::Cut(routers, side) => {
            push_cut_line(text, net, routers.slice())?;
            push_side_line(text, net.routers.slice(), side.slice())
        }
        NodeVerdict::Refused(packet, link) => push_refused_line(alloc, text, packet, *link),
    }
}

/// Appends the line of a link, counted from 1.
fn push_arc_line(alloc: Global, text: &mut Vec<u8>, number: u64) -> Result<(), Memory>
    ensures { OnOk result
        (text.new.items ≡ text.old.items ++ line (codes "arc") (decimal number ∷ [])) }
{
    text.extend_from_slice(b"arc")?;
    push_count(alloc, text, number)?;
    text.push(b'\n')?;
    Ok(())
}

fn push_cut_line(text: &mut Vec<u8>, net: &Network, routers: &[Router]) -> Result<(), Memory>
    ensures { OnOk result (text.new.items ≡ text.old.items ++ cut_line net.now routers.now) }
{
    text.extend_from_slice(b"cut")?;
    push_routers(text, net, routers)?;
    text.push(b'\n')?;
    Ok(())
}

fn push_routers(text: &mut Vec<u8>, net: &Network, routers: &[Router]) -> Result<(), Memory>
    ensures { OnOk result
        (text.new.items ≡ text.old.items ++ after_spaces (map (router_name net.now) routers.now)) }
{
    for router in routers {
        push_word(text, name(net, *router))?;
    }
    Ok(())
}

fn name(net: &Network, router: Router) -> &[u8]
    ensures { result.now ≡ router_name net.now router }
{
    match net.routers.get(router.0) {
        Some(row) => row.name.bytes(),
        None => &[],
    }
}
