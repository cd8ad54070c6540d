//! The checker of proof logs.
ghost use Rattle.cnf_types.specs.Dimacs.{is_zero, literal_of};
ghost use Rattle.std.specs.Prelude.{◌≡◌, ◌+◌, ◌<◌, ◌≤◌, ◌^◌, All, OnOk, false, length, map};
ghost use Rattle.std.specs.Prelude.{unsigned_abs};

use crate::faults::StepFault;
use crate::hints::follow;
use crate::left::Marks;
use crate::live::Live;
use crate::rows::Rows;
use arc_base::{List, Memory};
use cnf_types::{ClauseSink, CnfFault, Formula, Lit, read_clauses};
use proof_log::Step;
use std::alloc::Global;
use std::mem;

/// A checker of one proof log for one formula.
#[derive(Drop)]
pub struct Checker {
    alloc: Global,
    live: Live,
    marks: Marks,
    last: u64,
    least: Option<u32>,
    tops: Vec<Lit>,
    refuted: bool,
    // Room that is used again for each line: for its numbers and its literals.
    pub(crate) numbers: Vec<i64>,
    lits: Vec<Lit>,
    // An id above the last one has no row yet.
    ghost rows: { length live.near ≤ last + 1 },
}

/// Replaces the literals by those of these numbers.
fn read_literals(lits: &mut Vec<Lit>, numbers: &[i64]) -> Result<(), Memory>
    requires nonzero { All (λ z. is_zero z ≡ false) numbers.now }
    requires fits { All (λ z. unsigned_abs z < 2 ^ 63) numbers.now }
    ensures { OnOk result (lits.new.items ≡ map literal_of numbers.now) }
{
    lits.clear();
    for number in numbers {
        lits.push(Lit::make(number.unsigned_abs(), *number > 0))?;
    }
    Ok(())
}

impl Checker {
    ghost use Rattle.cnf_types.specs.Dimacs.{is_zero, literal_of, reading, IsFaultOfCnf};
    ghost use Rattle.cnf_types.specs.Formulas.{Satisfies};
    ghost use Rattle.proof_check.specs.Knowledge.{start, step_fault, after, IsFirst};
    ghost use Rattle.proof_check.specs.Logs.{after_all, IsAccepted, IsRefuting, KeepsBounds};
    ghost use Rattle.proof_check.specs.View.{known};
    ghost use Rattle.std.specs.Prelude.{◌≡◌, ◌<◌, ◌^◌, length, None, IfOk, IfErr, OnOk, OnErr, ℕ};
    ghost use Rattle.std.specs.Prelude.{Bool, List as Items, IsTrue, ◌↔◌, All, false, map};
    ghost use Rattle.std.specs.Prelude.{unsigned_abs, IsOkAnd};

    /// A checker that knows the formula of these clauses over the variables from 1 to `vars`.
    #[inline(never)]
    fn over(
        alloc: Global,
        vars: u64,
        rows: Rows,
        least: Option<u32>,
        tops: &List<Lit>,
    ) -> Result<Checker, Memory>
        ensures { IfOk result (λ checker. known checker
            ≡ start (record { vars = vars; clauses = rows }) least tops.now) }
    {
        let count = rows.count();
        // A few clauses do not pay for the flags of a great number of variables.
        let flags = vars.min(1024 + 16 * count.min(u64::from(u32::MAX)));
        Ok(Checker {
            alloc,
            live: Live::of(alloc, rows),
            marks: Marks::make(alloc, 2 * flags as usize + 2)?,
            last: count,
            least,
            tops: Vec::from_slice(alloc, tops.slice())?,
            refuted: false,
            numbers: Vec::new(alloc),
            lits: Vec::new(alloc),
        })
    }

    /// A checker that knows the formula. `least` is the lowest bound that is allowed, where there
    /// is one. `tops` has, at place j - 1, the literal "the price is at least j".
    pub fn make(
        alloc: Global,
        f: &Formula,
        least: Option<u32>,
        tops: &List<Lit>,
    ) -> Result<Checker, Memory>
        ensures { IfOk result (λ checker. known checker ≡ start f.now least tops.now) }
    {
        let rows = Rows::of(alloc, f.clauses.slice())?;
        Checker::over(alloc, f.vars, rows, least, tops)
    }

    /// A checker that knows the formula which a text in DIMACS form writes, or the text's first
    /// fault. Each clause is read right into the place where the checker keeps it. `least` and
    /// `tops` are those of `make`.
    pub fn read(
        alloc: Global,
        bytes: &[u8],
        least: Option<u32>,
        tops: &List<Lit>,
    ) -> Result<Checker, CnfFault>
        requires { length bytes.now < 2 ^ 32 }
        ensures formula { IfOk result (λ checker. IsOkAnd (reading bytes.now) (λ f.
            known checker ≡ start f least tops.now)) }
        ensures fault { IfErr result (IsFaultOfCnf bytes.now) }
    {
        let rows = Rows::make(alloc)?;
        let (vars, rows) = read_clauses(alloc, bytes, rows)?;
        let checker = Checker::over(alloc, vars, rows, least, tops)?;
        Ok(checker)
    }

    /// Adds a clause, which the hints have to show.
    fn add(&mut self, id: u64, lits: &[Lit], hints: &[i64]) -> Result<(), StepFault>
        requires { length hints.now < 2 ^ 32 }
        ensures ok { OnOk result
            (step_fault (known self.old) (Step.Add id lits.now hints.now) ≡ None) }
        ensures after { OnOk result
            (known self.new ≡ after (known self.old) (Step.Add id lits.now hints.now)) }
        ensures fault { IfErr result
            (IsFirst (step_fault (known self.old) (Step.Add id lits.now hints.now))) }
        ensures same { OnErr result (known self.new ≡ known self.old) }
    {
        if id <= self.last {
            return Err(StepFault::IdNotRising);
        }
        follow(self.alloc, &self.live, &mut self.marks, lits, hints)?;
        self.live.put(self.alloc, id, lits)?;
        self.last = id;
        self.refuted = self.refuted || lits.is_empty();
        Ok(())
    }

    /// Adds the clause of these numbers, which the hints have to show.
    pub(crate) fn add_numbers(
        &mut self,
        id: u64,
        numbers: &[i64],
        hints: &[i64],
    ) -> Result<(), StepFault>
        requires nonzero { All (λ z. is_zero z ≡ false) numbers.now }
        requires fits { All (λ z. unsigned_abs z < 2 ^ 63) numbers.now }
        ensures ok { OnOk result (step_fault (known self.old)
            (Step.Add id (map literal_of numbers.now) hints.now) ≡ None) }
        ensures after { OnOk result (known self.new
            ≡ after (known self.old) (Step.Add id (map literal_of numbers.now) hints.now)) }
        ensures fault { IfErr result (IsFirst (step_fault (known self.old)
            (Step.Add id (map literal_of numbers.now) hints.now))) }
        ensures same { OnErr result (known self.new ≡ known self.old) }
    {
        if hints.len() > u32::MAX as usize {
            return Err(StepFault::Memory);
        }
        let mut lits = mem::replace(&mut self.lits, Vec::new(self.alloc));
        let judged = match read_literals(&mut lits, numbers) {
            Ok(()) => self.add(id, &lits, hints),
            Err(Memory) => Err(StepFault::Memory),
        };
        self.lits = lits;
        judged
    }

    /// Drops clauses.
    fn forget(&mut self, ids: &[u64]) -> Result<(), StepFault>
        requires { length ids.now < 2 ^ 32 }
        ensures ok { OnOk result (step_fault (known self.old) (Step.Drop ids.now) ≡ None) }
        ensures after { OnOk result (known self.new ≡ after (known self.old) (Step.Drop ids.now)) }
        ensures fault { IfErr result (IsFirst (step_fault (known self.old) (Step.Drop ids.now))) }
        ensures same { OnErr result (known self.new ≡ known self.old) }
    {
        if let Some(place) = self.live.first_unknown(ids) {
            return Err(StepFault::UnknownId(place as u32));
        }
        self.live.remove_all(ids);
        Ok(())
    }

    /// Adds the clause that the price is at most `price`.
    fn bound(&mut self, id: u64, price: u32) -> Result<(), StepFault>
        ensures ok { OnOk result (step_fault (known self.old) (Step.Bound id price) ≡ None) }
        ensures after { OnOk result
            (known self.new ≡ after (known self.old) (Step.Bound id price)) }
        ensures fault { IfErr result (IsFirst (step_fault (known self.old) (Step.Bound id price))) }
        ensures same { OnErr result (known self.new ≡ known self.old) }
    {
        if id <= self.last {
            return Err(StepFault::IdNotRising);
        }
        if self.least.is_some_and(|least| price < least) {
            return Err(StepFault::BoundTooLow);
        }
        let Some(top) = self.tops.get(price as usize) else {
            return Err(StepFault::BoundTooHigh);
        };
        let lits = [top.negated()];
        self.live.put(self.alloc, id, &lits)?;
        self.last = id;
        Ok(())
    }

    /// Judges a step, and takes it where it is accepted. After a fault the checker is as it was.
    pub fn step(&mut self, s: &Step) -> Result<(), StepFault>
        ensures ok { OnOk result (step_fault (known self.old) s.now ≡ None) }
        ensures after { OnOk result (known self.new ≡ after (known self.old) s.now) }
        ensures fault { IfErr result (IsFirst (step_fault (known self.old) s.now)) }
        ensures same { OnErr result (known self.new ≡ known self.old) }
    {
        match s {
            Step::Add { id, lits, hints } => self.add(*id, lits.slice(), hints.slice()),
            Step::Drop { ids } => self.forget(ids.slice()),
            Step::Bound { id, price } => self.bound(*id, *price),
        }
    }

    /// Whether an accepted step added the empty clause. Then no assignment satisfies the formula
    /// and keeps to the bounds.
    pub fn refuted(&self) -> bool
        ensures value { result ≡ (known self.now).refuted }
        ensures exact { (f : Formula) (steps : Items Step) → known self.now
            ≡ after_all (start f (known self.now).least (known self.now).tops) steps →
            (IsTrue result ↔ IsRefuting steps) }
        ensures sound { IsTrue result →
            (f : Formula) (steps : Items Step) →
            IsAccepted (start f (known self.now).least (known self.now).tops) steps →
            known self.now
            ≡ after_all (start f (known self.now).least (known self.now).tops) steps →
            (assignment : ℕ → Bool) → Satisfies assignment f →
            KeepsBounds assignment (known self.now).tops steps → ⊥ }
    {
        self.refuted
    }
}
