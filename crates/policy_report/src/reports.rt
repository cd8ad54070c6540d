//! The text of a report, in time linear in its bytes.
ghost use Rattle.net_model.specs.declared.rows.Network.{Network};
ghost use Rattle.policy_report.specs.Lines.{after_spaces};
ghost use Rattle.policy_report.specs.Reports.{kind_word, answer_word, answer_line};
ghost use Rattle.policy_report.specs.Reports.{blocks_text, report_text};
ghost use Rattle.std.specs.Prelude.{◌≡◌, ◌++◌, ◌∷◌, [], length, IfOk, OnOk};

use crate::witness::{count_lines, push_witness};
use crate::words::{push_count, push_word};
use arc_base::{List, Memory, push_number};
use net_model::{Document, Network, Policy, PolicyKind, Verdict};
use std::alloc::Global;

/// The report of these verdicts, one for each policy in order. Links and policies are counted from
/// 1, and each line ends in a line feed.
pub fn report(
    alloc: Global,
    net: &Network,
    doc: &Document,
    verdicts: &List<Verdict>,
) -> Result<Vec<u8>, Memory>
    requires { length verdicts.now ≡ length doc.now.policies }
    ensures { IfOk result (λ text. text.items ≡ report_text net.now doc.now verdicts.now) }
{
    let mut text = Vec::new(alloc);
    text.extend_from_slice(b"arc-report 1\n")?;
    push_blocks(
        alloc,
        &mut text,
        net,
        doc.policies.slice(),
        verdicts.slice(),
    )?;
    text.extend_from_slice(b"end\n")?;
    Ok(text)
}

pub(crate) fn push_blocks(
    alloc: Global,
    text: &mut Vec<u8>,
    net: &Network,
    policies: &[Policy],
    verdicts: &[Verdict],
) -> Result<(), Memory>
    requires { length verdicts.now ≡ length policies.now }
    ensures { OnOk result (text.new.items
        ≡ text.old.items ++ blocks_text 1 net.now policies.now verdicts.now) }
{
    for (place, policy) in policies.iter().enumerate() {
        let verdict = &verdicts[place];
        push_answer(alloc, text, place as u64 + 1, policy, verdict)?;
        push_witness(alloc, text, net, verdict)?;
    }
    Ok(())
}

fn push_answer(
    alloc: Global,
    text: &mut Vec<u8>,
    number: u64,
    policy: &Policy,
    verdict: &Verdict,
) -> Result<(), Memory>
    ensures { OnOk result ((net : Network) → text.new.items
        ≡ text.old.items ++ answer_line number net policy.now verdict.now) }
{
    push_number(alloc, text, number)?;
    push_answer_words(text, policy.kind, verdict)?;
    push_count(alloc, text, count_lines(verdict))?;
    text.push(b'\n')?;
    Ok(())
}

/// What the policy asks, and the answer.
pub fn push_answer_words(
    text: &mut Vec<u8>,
    kind: PolicyKind,
    verdict: &Verdict,
) -> Result<(), Memory>
    ensures { OnOk result (text.new.items
        ≡ text.old.items ++ after_spaces (kind_word kind ∷ answer_word verdict.now ∷ [])) }
{
    push_word(text, kind_word(kind))?;
    push_word(text, answer_word(verdict))
}

fn kind_word(kind: PolicyKind) -> &'static [u8]
    ensures { result.now ≡ kind_word kind }
{
    match kind {
        PolicyKind::Blocked => b"blocked",
        PolicyKind::Through => b"through",
        PolicyKind::Reach(_) => b"reach",
    }
}

fn answer_word(verdict: &Verdict) -> &'static [u8]
    ensures { result.now ≡ answer_word verdict.now }
{
    match verdict {
        Verdict::Closed(_) | Verdict::Paths(_) => b"yes",
        Verdict::Walk(_, _) | Verdict::Denied(_) | Verdict::Cut(_, _) => b"no",
        Verdict::Refused(_, _) => b"refused",
    }
}
