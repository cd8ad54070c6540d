//! Whether packets and classes enter and leave.
ghost use Rattle.net_model.specs.Forwarding.{Enters, Leaves};
ghost use Rattle.net_model.specs.Packets.{IsOfClass, LiesIn};
ghost use Rattle.net_model.specs.declared.lists.Packet.{Packet};
ghost use Rattle.std.specs.Prelude.{◌↔◌, IsTrue};
ghost use Rattle.witness_check.specs.Cases.{ends_in, EachEntersAndLeaves};

use crate::answers::none_gets_both;
use crate::cases::Case;
use crate::clearness::{permits_each, permitted};
use net_model::{Class, Packet};

/// Whether the class is a part of the other.
pub fn lies_in(class: Class, whole: Class) -> bool
    ensures { IsTrue result ↔ LiesIn class whole }
{
    class.from.inside(&whole.from)
        && class.to.inside(&whole.to)
        && class.service.inside(&whole.service)
}

/// Whether the packet is of the class.
pub fn is_of(class: Class, p: Packet) -> bool
    ensures { IsTrue result ↔ IsOfClass class p }
{
    class.from.covers(p.from) && class.to.covers(p.to) && class.service.covers(p.service)
}

impl Case<'_> {
    /// Whether the packet enters.
    pub fn enters(&self, p: Packet) -> bool
        ensures { IsTrue result ↔ Enters self.now.net.now (ends_in self.now) p }
    {
        self.source.up && self.net.list_permits(self.source.list_in, p)
    }

    /// Whether the packet leaves once it is at the target router.
    pub fn leaves(&self, p: Packet) -> bool
        ensures { IsTrue result ↔ Leaves self.now.net.now (ends_in self.now) p }
    {
        self.target.up && self.net.list_permits(self.target.list_out, p)
    }

    /// Whether each packet of the class enters.
    pub fn each_enters(&self, class: Class) -> bool
        ensures { IsTrue result ↔
            ((p : Packet) → IsOfClass class p → Enters self.now.net.now (ends_in self.now) p) }
    {
        self.source.up && permits_each(self.net, self.source.list_in, class)
    }

    /// Whether each packet of the class leaves once it is at the target router.
    pub fn each_leaves(&self, class: Class) -> bool
        ensures { IsTrue result ↔
            ((p : Packet) → IsOfClass class p → Leaves self.now.net.now (ends_in self.now) p) }
    {
        self.target.up && permits_each(self.net, self.target.list_out, class)
    }

    /// Whether each packet of the class enters, and leaves once it is at the target router.
    pub fn each_passes(&self, class: Class) -> bool
        ensures { IsTrue result ↔ EachEntersAndLeaves self.now.net.now (ends_in self.now) class }
    {
        self.each_enters(class) && self.each_leaves(class)
    }

    /// Whether no packet of the class both enters and leaves.
    pub fn none_passes(&self, class: Class) -> bool
        ensures { IsTrue result ↔
            ((p : Packet) → IsOfClass class p → Enters self.now.net.now (ends_in self.now) p →
            ¬ Leaves self.now.net.now (ends_in self.now) p) }
    {
        if !self.source.up || !self.target.up {
            return true;
        }
        let entering = permitted(self.net, self.source.list_in);
        let leaving = permitted(self.net, self.target.list_out);
        none_gets_both(&entering, &leaving, class)
    }
}
