//! What the witness of one policy is judged against.
ghost use Rattle.net_model.specs.Forwarding.{AreEnds, HasEnds};
ghost use Rattle.net_model.specs.Packets.{subject};
ghost use Rattle.std.specs.Prelude.{◌≡◌, ◌↔◌, IsTrue};
ghost use Rattle.witness_check.specs.Cases.{ends_in, CaseHolds};

use arc_base::Prefix;
use net_model::{Class, FaceRow, Network, Policy, Told};

/// What a witness is judged against: the network, and where the policy's packets would enter and
/// leave it.
#[derive(Clone, Copy)]
pub struct Case<'a> {
    pub net: &'a Network,
    /// The interface at which the packets enter.
    pub source: &'a FaceRow,
    /// The interface at which they leave.
    pub target: &'a FaceRow,
    /// The host network that they are routed to.
    pub to: Prefix,
    /// What is asked of the network once for that host network, and not for each link.
    pub told: Told,
    /// All packets of the policy.
    pub whole: Class,
}

impl Case<'_> {
    /// The case of a policy.
    pub fn of<'a>(net: &'a Network, policy: &Policy) -> Case<'a>
        requires { HasEnds net.now (subject policy.now) }
        ensures net { result.net.now ≡ net.now }
        ensures whole { result.whole ≡ subject policy.now }
        ensures ends { AreEnds net.now (subject policy.now) (ends_in result) }
        ensures told { CaseHolds result }
    {
        let source = net.host_face(policy.from);
        let target = net.host_face(policy.to);
        let Some(to) = target.host else {
            unreachable!()
        };
        Case {
            net,
            source,
            target,
            to,
            told: net.told(to),
            whole: policy.subject(),
        }
    }

    /// Whether the packets enter and leave at one router.
    pub fn is_local(&self) -> bool
        ensures { IsTrue result ↔ (self.now.source.now.router.0 ≡ self.now.target.now.router.0) }
    {
        self.source.router.0 == self.target.router.0
    }
}
