//! Marks on literals.
ghost use Rattle.cnf_types.specs.declared.literal.Lit.{Lit};
ghost use Rattle.proof_check.specs.Propagation.{same};
ghost use Rattle.sat_search.specs.Passes.{is_marked, IsCleared};
ghost use Rattle.std.specs.Prelude.{◌≡◌, ◌+◌, ◌*◌, ◌<◌, ◌^◌, ◌||◌, false, length, IfOk};

use arc_base::Memory;
use cnf_types::Lit;
use std::alloc::Global;
use std::marker::Model;

/// Which literals are marked, by their codes. Contracts see the list of the flags.
#[derive(Debug, Drop)]
pub(crate) struct Marks {
    flags: Vec<bool>,
}

impl Model for Marks {
    ghost use Rattle.std.specs.Prelude.{Bool, List};

    ghost Value = { List Bool };

    ghost view = { λ m. m.flags.items };
}

impl Marks {
    /// No marks, on the literals of the variables from 1 to `vars`.
    pub fn make(alloc: Global, vars: u64) -> Result<Marks, Memory>
        requires { vars < 2 ^ 25 }
        ensures size { IfOk result (λ marks. length marks ≡ 2 * vars + 2) }
        ensures none { IfOk result (λ marks. (l : Lit) → is_marked marks l ≡ false) }
    {
        Ok(Marks {
            flags: vec![in alloc; false; 2 * vars as usize + 2]?,
        })
    }

    pub fn has(&self, lit: Lit) -> bool
        requires { lit.code < length self.now }
        ensures { result ≡ is_marked self.now lit }
    {
        self.flags[lit.code as usize]
    }

    pub fn mark(&mut self, lit: Lit)
        requires { lit.code < length self.old }
        ensures marked { (m : Lit) → is_marked self.new m ≡ (is_marked self.old m || same lit m) }
        ensures size { length self.new ≡ length self.old }
    {
        self.flags[lit.code as usize] = true;
    }

    pub fn clear(&mut self, lit: Lit)
        requires { lit.code < length self.old }
        ensures cleared { IsCleared self.old self.new lit }
        ensures size { length self.new ≡ length self.old }
    {
        self.flags[lit.code as usize] = false;
    }
}
