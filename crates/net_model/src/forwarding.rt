//! Whether a packet list permits a packet, in time linear in its entries.
ghost use Rattle.net_model.specs.Forwarding.{ListPermits};
ghost use Rattle.std.specs.Prelude.{◌↔◌, IsTrue};

use crate::lists::Packet;
use crate::rows::Network;
use arc_base::ListId;

impl Network {
    /// Whether the packet list with this place permits the packet. An interface without a defined
    /// list permits every packet.
    pub fn list_permits(&self, list: Option<ListId>, packet: Packet) -> bool
        ensures { IsTrue result ↔ ListPermits self.now list packet }
    {
        let Some(id) = list else { return true };
        match self.packet_lists.get(id.0) {
            Some(list) => list.permits(packet),
            None => false,
        }
    }
}
