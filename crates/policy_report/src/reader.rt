//! The reader of a certificate, line by line.
ghost use Rattle.arc_base.specs.Words.{words};
ghost use Rattle.policy_report.specs.Readings.{answer_of, line_words};
ghost use Rattle.policy_report.specs.Steps.{standing, start, next_line, fails, goes, goes_on};
ghost use Rattle.policy_report.specs.Steps.{is_edit, is_of, may_stand, closed, logs, head};
ghost use Rattle.policy_report.specs.Steps.{answered, editing, proving, between};
ghost use Rattle.policy_report.specs.Steps.{within, step, IsRead, IsSurelyRead};
ghost use Rattle.std.specs.Prelude.{◌≡◌, [], if◌then◌else◌};

use crate::answers::{Answer, answer_of};
use crate::drafts::{Asked, Block, Draft, Heading};
use crate::edits::edit_from;
use crate::got::{CertFault, CertForm, Got};
use crate::growing::grown;
use crate::headings::heading_of;
use crate::reading::line_words;
use crate::stages::{Stage, Text};
use arc_base::{CertKind, List, Memory, next_word};
use edit_list::Edit;
use net_model::{Document, Network, Policy, Verdict};
use proof_log::LineKind;
use std::alloc::Global;
use std::mem;

/// A reader of one certificate, which takes its lines in order. All of them are read for the same
/// network, document and list of edits.
#[derive(Drop)]
pub struct Reader {
    alloc: Global,
    line: u64,
    stage: Stage,
}

/// The number of the next line.
fn next_line(line: u64) -> u64
    ensures { result ≡ next_line line }
{
    if line == 18_446_744_073_709_551_615 {
        line
    } else {
        line + 1
    }
}

/// Whether the block with this first line is that of the policy at this place.
fn is_of(policies: &[Policy], which: u64, heading: &Heading) -> bool
    ensures { result ≡ is_of policies.now which heading.now }
{
    match policies.get(which as usize) {
        Some(policy) => {
            u64::from(heading.number) == which + 1 && heading.asked == Asked::by(policy.kind)
        }
        None => false,
    }
}

/// Whether the block is allowed in the text: in a repair only a yes is.
fn may_stand(text: Text, block: &Block) -> bool
    ensures { result ≡ may_stand text block.now }
{
    match (text, block) {
        (Text::Report, _) => true,
        (_, Block::Whole(verdict)) => matches!(verdict, Verdict::Closed(_) | Verdict::Paths(_)),
        (_, Block::Open(draft)) => matches!(draft, Draft::Sides(_, _) | Draft::Paths(_, _)),
    }
}

/// Whether the first word of the line is `edit`.
fn is_edit(line: &[u8]) -> bool
    ensures { result ≡ is_edit (words line.now) }
{
    match next_word(line) {
        Some((word, _)) => word == b"edit".as_slice(),
        None => false,
    }
}

impl Reader {
    /// A reader that has read no line.
    pub fn make(alloc: Global) -> Reader
        ensures { standing result ≡ start }
    {
        Reader {
            alloc,
            line: 0,
            stage: Stage::Head,
        }
    }

    /// Rejects the line.
    fn fail(&mut self, kind: CertKind) -> Result<Got, CertFault>
        ensures { (standing self.new, result) ≡ fails self.old.line kind }
    {
        let fault = CertFault {
            line: self.line,
            kind,
        };
        self.stage = Stage::Failed(fault);
        Err(fault)
    }

    /// Takes the line, after which this may come.
    fn go(&mut self, stage: Stage, got: Got) -> Result<Got, CertFault>
        ensures { (standing self.new, result) ≡ goes self.old.line stage got }
    {
        self.stage = stage;
        Ok(got)
    }

    /// Goes on with the block of the policy at this place.
    fn go_on(&mut self, text: Text, which: u32, block: Block) -> Result<Got, CertFault>
        ensures { (standing self.new, result) ≡ goes_on self.old.line text which block }
    {
        match block {
            Block::Open(draft) => self.go(Stage::Within(text, which, draft), Got::More),
            Block::Whole(verdict) => {
                self.go(
                    Stage::Between(text, u64::from(which) + 1),
                    Got::Verdict(which, verdict),
                )
            }
        }
    }

    /// Reads the first line.
    fn read_head(&mut self, line: &[u8]) -> Result<Got, CertFault>
        ensures { (standing self.new, result) ≡ head self.old.line line.now }
    {
        if line == b"arc-report 1".as_slice() {
            return self.go(Stage::Between(Text::Report, 0), Got::Head(CertForm::Report));
        }
        if line == b"arc-repair 1".as_slice() {
            return self.go(Stage::Answer, Got::More);
        }
        self.fail(CertKind::Form)
    }

    /// Reads the answer of a repair.
    fn read_answer(&mut self, line: &[u8]) -> Result<Got, CertFault>
        ensures { IsRead (answered self.old.line (answer_of (line_words line.now))) self.old.line
            (standing self.new) result }
    {
        let words = match line_words(self.alloc, line) {
            Ok(words) => words,
            Err(_) => return self.fail(CertKind::Memory),
        };
        match answer_of(words.as_slice()) {
            Some(Answer::Repaired(price, bound)) => {
                self.go(Stage::Edits(0), Got::Head(CertForm::Repaired(price, bound)))
            }
            Some(Answer::NoRepair(bound)) => {
                self.go(Stage::Log, Got::Head(CertForm::NoRepair(bound)))
            }
            Some(Answer::Budget) => self.fail(CertKind::NoClaim),
            None => self.fail(CertKind::Form),
        }
    }

    /// Reads a line after the answer that there is a repair.
    fn read_edits(
        &mut self,
        net: &Network,
        doc: &Document,
        edits: &List<Edit>,
        next: u32,
        line: &[u8],
    ) -> Result<Got, CertFault>
        ensures { IsRead (editing net.now doc.now edits.now self.old.line next line.now)
            self.old.line (standing self.new) result }
    {
        if !is_edit(line) {
            return self.read_between(doc, Text::Repair, 0, line);
        }
        match edit_from(self.alloc, net, edits, next, line) {
            Ok(Some(at)) => self.go(Stage::Edits(at + 1), Got::Edit(at)),
            Ok(None) => self.fail(CertKind::Edit),
            Err(Memory) => self.fail(CertKind::Memory),
        }
    }

    /// Reads what closes the blocks: the line `end`, or else the line `log`.
    fn read_closing(&mut self, text: Text, is_end: bool) -> Result<Got, CertFault>
        ensures { (standing self.new, result)
            ≡ (if is_end then closed self.old.line text else logs self.old.line text) }
    {
        match (text, is_end) {
            (Text::Report, true) => self.go(Stage::Ended, Got::End),
            (Text::Repair, false) => self.go(Stage::Steps, Got::More),
            (_, _) => self.fail(CertKind::Form),
        }
    }

    /// Reads a line between two blocks.
    fn read_between(
        &mut self,
        doc: &Document,
        text: Text,
        which: u64,
        line: &[u8],
    ) -> Result<Got, CertFault>
        ensures { IsRead (between doc.now self.old.line text which line.now) self.old.line
            (standing self.new) result }
    {
        let is_end = line == b"end".as_slice();
        if is_end || line == b"log".as_slice() {
            if which < u64::from(doc.policies.len()) {
                return self.fail(CertKind::Policy);
            }
            return self.read_closing(text, is_end);
        }
        let words = match line_words(self.alloc, line) {
            Ok(words) => words,
            Err(_) => return self.fail(CertKind::Memory),
        };
        let Some(heading) = heading_of(self.alloc, words.as_slice()) else {
            return self.fail(CertKind::Form);
        };
        if !is_of(doc.policies.slice(), which, &heading) {
            return self.fail(CertKind::Policy);
        }
        if !may_stand(text, &heading.block) {
            return self.fail(CertKind::NotYes);
        }
        self.go_on(text, which as u32, heading.block)
    }

    /// Reads a line of a block.
    fn read_within(
        &mut self,
        net: &Network,
        text: Text,
        which: u32,
        draft: Draft,
        line: &[u8],
    ) -> Result<Got, CertFault>
        ensures { IsRead (within net.now self.old.line text which draft line.now) self.old.line
            (standing self.new) result }
    {
        match grown(self.alloc, net, draft, line) {
            Ok(Some(block)) => self.go_on(text, which, block),
            Ok(None) => self.fail(CertKind::Form),
            Err(Memory) => self.fail(CertKind::Memory),
        }
    }

    /// Reads a line of the proof log, or the end.
    #[tactic(auto, unfolding(proof_log::specs::Reading::reading))]
    fn read_proving(&mut self, line: &[u8]) -> Result<Got, CertFault>
        ensures { IsRead (proving self.old.line line.now) self.old.line (standing self.new) result }
    {
        if line == b"end".as_slice() {
            return self.go(Stage::Ended, Got::End);
        }
        match proof_log::step(self.alloc, line) {
            Ok(Some(step)) => self.go(Stage::Steps, Got::Step(step)),
            Ok(None) => self.go(Stage::Steps, Got::More),
            Err(LineKind::Memory) => self.fail(CertKind::Memory),
            Err(LineKind::BadLine | LineKind::BadNumber) => self.fail(CertKind::Form),
        }
    }

    /// Reads the next line, which is given without its line feed. After a fault it answers that
    /// fault again. A fault of the kind `Memory` is out of memory, and none of the line's. The
    /// lines of edits take time linear in the edits all together, and each other line in its bytes,
    /// or in the routers if it is a side.
    pub fn line(
        &mut self,
        net: &Network,
        doc: &Document,
        edits: &List<Edit>,
        text: &[u8],
    ) -> Result<Got, CertFault>
        ensures read { IsRead (step net.now doc.now edits.now (standing self.old) text.now)
            (next_line self.old.line) (standing self.new) result }
        ensures surely { IsSurelyRead self.old.stage
            (step net.now doc.now edits.now (standing self.old) text.now)
            (standing self.new) result }
    {
        self.line = next_line(self.line);
        match mem::replace(&mut self.stage, Stage::Ended) {
            Stage::Head => self.read_head(text),
            Stage::Answer => self.read_answer(text),
            Stage::Edits(next) => self.read_edits(net, doc, edits, next, text),
            Stage::Between(whose, which) => self.read_between(doc, whose, which, text),
            Stage::Within(whose, which, draft) => {
                self.read_within(net, whose, which, draft, text)
            }
            Stage::Log if text == b"log".as_slice() => self.go(Stage::Steps, Got::More),
            Stage::Log => self.fail(CertKind::Form),
            Stage::Steps => self.read_proving(text),
            Stage::Ended => self.fail(CertKind::NoEnd),
            Stage::Failed(fault) => {
                self.stage = Stage::Failed(fault);
                Err(fault)
            }
        }
    }

    /// Reads the next line as `line` does, where there are no edits: a line of a report.
    pub fn report_line(
        &mut self,
        net: &Network,
        doc: &Document,
        text: &[u8],
    ) -> Result<Got, CertFault>
        ensures read { IsRead (step net.now doc.now [] (standing self.old) text.now)
            (next_line self.old.line) (standing self.new) result }
        ensures surely { IsSurelyRead self.old.stage
            (step net.now doc.now [] (standing self.old) text.now) (standing self.new) result }
    {
        let edits = List::make(self.alloc);
        self.line(net, doc, &edits, text)
    }
}
