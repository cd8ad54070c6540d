//! Verdicts on policies, with their witnesses.
ghost use Rattle.net_model.specs.Witnesses.{is_yes};
ghost use Rattle.std.specs.Prelude.{◌≡◌};

use crate::lists::Packet;
use crate::policies::Class;
use arc_base::{Link, List};

/// A class with a side: the routers that its packets may get to, whichever links fail.
#[derive(Debug, Drop)]
pub struct ClassSide {
    pub class: Class,
    /// For each router of the network, in order, whether it is on the side.
    pub side: List<bool>,
}

/// The links of a path from the source router to the target router, in order.
#[derive(Debug, Drop)]
pub struct LinkPath {
    pub links: List<Link>,
}

/// An answer to a policy with its witness. `Closed` and `Paths` are yes, `Walk`, `Denied` and `Cut`
/// are no.
#[derive(Debug, Drop)]
pub enum Verdict {
    /// Yes to blocked or through: classes that make up the policy's, each with a side that its
    /// packets do not get off.
    Closed(List<ClassSide>),
    /// Yes to reach: one path more than links may fail, no two over one link.
    Paths(List<LinkPath>),
    /// No to blocked or through: packets that are delivered over this path once all other links
    /// have failed.
    Walk(Class, LinkPath),
    /// No to reach: packets that do not enter, or do not leave, even with all links up.
    Denied(Class),
    /// No to reach: links that separate source and target once they fail, and the source's side of
    /// them.
    Cut(List<Link>, List<bool>),
    /// No answer to reach: an arc of this link, over which the packets may be routed, denies this
    /// packet.
    Refused(Packet, Link),
}

impl Verdict {
    /// Whether it is a yes.
    pub fn is_yes(&self) -> bool
        ensures { result ≡ is_yes self.now }
    {
        matches!(self, Verdict::Closed(_) | Verdict::Paths(_))
    }
}
