//! Prefixes in indexes, and the prefix of a length that holds an address.
ghost use Rattle.arc_base.specs.declared.prefix.Prefix.{Prefix};
ghost use Rattle.net_rules.specs.Prefixes.{HasPrefix, HasPrefixOf};
ghost use Rattle.net_rules.specs.Settings.{IsPrefixAt};
ghost use Rattle.std.specs.Prelude.{◌≤◌, ◌≡◌, ◌↔◌, ◌⊎◌, IfOk, IsTrue};

use arc_base::{Memory, Prefix};
use indexmap::IndexSet;

/// Prefixes, each by its address and its length.
pub type Prefixes = IndexSet<(u32, u8)>;

/// Adds a prefix.
pub fn add_prefix(prefixes: &mut Prefixes, p: &Prefix) -> Result<(), Memory>
    ensures { IfOk result (λ done. (q : Prefix) →
        HasPrefix prefixes.new.keys q ↔ (HasPrefix prefixes.old.keys q ⊎ (p.now ≡ q))) }
{
    prefixes.insert_full((p.addr, p.len))?;
    Ok(())
}

/// Whether the prefix is there.
pub fn has_prefix(prefixes: &Prefixes, p: &Prefix) -> bool
    ensures { IsTrue result ↔ HasPrefix prefixes.now.keys p.now }
{
    prefixes.contains(&(p.addr, p.len))
}

/// The prefix of this length that holds the address.
pub fn prefix_at(address: u32, len: u8) -> Prefix
    requires { len ≤ 32 }
    ensures { IsPrefixAt address len result }
{
    let size = 1u64 << (32 - len);
    let rest = u64::from(address) % size;
    Prefix {
        addr: (u64::from(address) - rest) as u32,
        len,
    }
}

/// Whether a prefix is there that holds the address: one of the 33 that can.
pub fn has_prefix_of(prefixes: &Prefixes, address: u32) -> bool
    ensures { IsTrue result ↔ HasPrefixOf prefixes.now.keys address }
{
    for len in 0..33 {
        if has_prefix(prefixes, &prefix_at(address, len)) {
            return true;
        }
    }
    false
}
