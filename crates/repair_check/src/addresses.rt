//! That the addresses of neighbours have 32 bits, shown by one pass over the sessions.
ghost use Rattle.policy_report.specs.Edits.{HasAddresses};
ghost use Rattle.std.specs.Prelude.{◌<◌, ◌^◌};

use net_model::Network;

/// An address has 32 bits.
fn has_32_bits(address: u32)
    ensures { address < 2 ^ 32 }
{
    let _ = address;
}

/// Reads the addresses of all neighbours, to show that each has 32 bits.
pub fn read_addresses(net: &Network)
    ensures { HasAddresses net.now }
{
    for session in net.sessions.slice() {
        has_32_bits(session.peer);
    }
}
