//! The edits of the two routers, their repair formula, their cheapest repair and a report on them,
//! as they were worked out by hand.
ghost use Rattle.net_doc.specs.Documents.{IsWellFormed};
ghost use Rattle.net_model.specs.Forwarding.{HasEnds};
ghost use Rattle.net_model.specs.Packets.{subject};
ghost use Rattle.net_model.specs.Validity.{IsValid};
ghost use Rattle.std.specs.Prelude.{◌<◌, length, All};

use crate::pairs::{Pair, two_routers};
use arc_base::List;
use arc_repair::{Answer, Check, Made, repair};
use cnf_types::Clause;
use edit_list::{Claim, Edit, EditFault, edits};
use net_model::Network;
use policy_encode::{Encoded, encode};
use policy_report::{edit_line, edit_text};
use proof_log::Log;
use report_check::{Outcome, check_report};
use std::alloc::Global;
use std::test::Fail;

/// The sessions of both ends of the link, and new inbound lists at the four interfaces.
const EDITS: &str = "\
Some(0) edit session r1 GigabitEthernet0/1
Some(1) edit session r2 GigabitEthernet0/1
Some(2) edit packet r1 interface GigabitEthernet0/0 10.1.0.0/24 10.2.0.0/24
Some(3) edit packet r1 interface GigabitEthernet0/1 10.1.0.0/24 10.2.0.0/24
Some(4) edit packet r2 interface GigabitEthernet0/0 10.1.0.0/24 10.2.0.0/24
Some(5) edit packet r2 interface GigabitEthernet0/1 10.1.0.0/24 10.2.0.0/24
";

/// Appends a line: which edit the text of this one names, and that text.
fn push_edit(
    alloc: Global,
    texts: &mut Vec<u8>,
    net: &Network,
    list: &List<Edit>,
    at: u32,
) -> Result<(), Fail>
    requires { at < length list.now }
{
    let text = edit_text(alloc, net, list, at)?;
    let named = edit_line(alloc, net, list, &text)?;
    texts.extend_from_slice(format!(in alloc; "{named:?} ")?.as_bytes())?;
    texts.extend_from_slice(&text)?;
    texts.push(b'\n')?;
    Ok(())
}

/// Appends all edits, a line each.
fn push_edits(
    alloc: Global,
    texts: &mut Vec<u8>,
    net: &Network,
    list: &List<Edit>,
) -> Result<(), Fail> {
    for at in 0..list.len() {
        push_edit(alloc, texts, net, list, at)?;
    }
    Ok(())
}

/// All edits, a line each.
fn edit_texts(alloc: Global) -> Result<Vec<u8>, Fail> {
    let pair = two_routers(alloc)?;
    let list = edits(alloc, &pair.net, &pair.doc)?;
    let mut texts = Vec::new(alloc);
    push_edits(alloc, &mut texts, &pair.net, &list)?;
    Ok(texts)
}

#[test]
fn edits_are_listed_and_named(rt: HostRuntime) -> Result<(), Fail> {
    assert_eq!(rt; edit_texts(rt.alloc())?.as_slice(), EDITS.as_bytes());
    Ok(())
}

/// Variables 1 to 6 are the edits; 7 and 8 say which routers the packets are kept on, and 9 to 14
/// the price up to each edit, which 14 says is above 0.
const FORMULA: &str = "\
14 variables, tops List { items: [Lit { code: 28 }] }
3 7
-7 1 2 6 8
-8 1 2 4 7
-8
-1 9
-9 10
-2 10
-10 11
-3 11
-11 12
-4 12
-12 13
-5 13
-13 14
-6 14";

/// The clause as DIMACS writes it, without its 0.
fn line(alloc: Global, clause: &Clause) -> Result<String, Fail> {
    let mut text = String::from_str(alloc, "\n")?;
    for lit in clause.lits.slice() {
        let blank = if text.len() == 1 { "" } else { " " };
        let sign = if lit.positive() { "" } else { "-" };
        text.push_str(&format!(in alloc; "{blank}{sign}{}", lit.var())?)?;
    }
    Ok(text)
}

/// A formula: its variables, those at which the price ends, and a line for each clause.
fn shown(alloc: Global, it: &Encoded) -> Result<String, Fail> {
    let mut text = format!(in alloc; "{} variables, tops {:?}", it.formula.vars, it.tops)?;
    for clause in it.formula.clauses.slice() {
        text.push_str(&line(alloc, clause)?)?;
    }
    Ok(text)
}

/// The repair formula for price 0 alone.
fn formula_text(alloc: Global) -> Result<String, Fail> {
    let pair = two_routers(alloc)?;
    let list = edits(alloc, &pair.net, &pair.doc)?;
    shown(alloc, &encode(alloc, &pair.net, &pair.doc, &list, 0)?)
}

#[test]
fn the_formula_has_these_clauses(rt: HostRuntime) -> Result<(), Fail> {
    assert_eq!(rt; formula_text(rt.alloc())?.as_str(), FORMULA);
    Ok(())
}

/// Whether the claim that is checked is accepted with this log.
fn is_accepted(made: Made, log: &Log) -> bool {
    let Made::Good(mut check) = made else {
        return false;
    };
    for step in log.steps.slice() {
        if check.step(step).is_err() {
            return false;
        }
    }
    check.accepted()
}

/// The price of the cheapest repair, and whether it is accepted with its log.
fn repaired(alloc: Global, pair: &Pair) -> Result<Option<(u32, bool)>, EditFault>
    requires valid { IsValid pair.now.net }
    requires ends { All (λ policy. HasEnds pair.now.net (subject policy)) pair.now.doc.policies }
    requires well_formed { IsWellFormed pair.now.doc }
{
    let Answer::Done(claim, log) = &repair(alloc, &pair.net, &pair.doc, 32, 50_000)? else {
        return Ok(None);
    };
    let Claim::Repaired { price, .. } = claim else {
        return Ok(None);
    };
    let made = Check::make(alloc, &pair.net, &pair.doc, claim)?;
    Ok(Some((*price, is_accepted(made, log))))
}

/// What `repaired` says of the two routers.
fn two_repaired(alloc: Global) -> Result<Option<(u32, bool)>, Fail> {
    Ok(repaired(alloc, &two_routers(alloc)?)?)
}

/// A list at one interface is enough, or a session that is turned.
#[test]
fn the_cheapest_repair_is_accepted(rt: HostRuntime) -> Result<(), Fail> {
    assert_eq!(rt; two_repaired(rt.alloc())?, Some((1, true)));
    Ok(())
}

/// The outcome of judging a text as a report.
fn judged(alloc: Global, text: &str) -> Result<Outcome, Fail> {
    let pair = two_routers(alloc)?;
    Ok(check_report(alloc, &pair.net, &pair.doc, text.as_bytes())?)
}

/// Packets are delivered over the link.
#[test]
fn a_report_is_judged(rt: HostRuntime) -> Result<(), Fail> {
    let text = "arc-report 1\n1 blocked no 1\nwalk 10.1.0.0/24 10.2.0.0/24 1\nend\n";
    assert_eq!(rt; judged(rt.alloc(), text)?, Outcome::Accepted);
    Ok(())
}
