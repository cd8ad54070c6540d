//! Router r1 with 10.1.0.0/24 and router r2 with 10.2.0.0/24, joined by a link.
ghost use Rattle.net_doc.specs.Documents.{IsWellFormed};
ghost use Rattle.net_model.specs.Forwarding.{HasEnds};
ghost use Rattle.net_model.specs.Packets.{subject};
ghost use Rattle.net_model.specs.Validity.{IsValid};
ghost use Rattle.std.specs.Prelude.{IfOk, All};

use arc_base::{List, Memory, Name};
use net_build::network;
use net_doc::{NetFault, document};
use net_model::{Document, Network};
use std::alloc::Global;

/// Packets from the one host network to the other are to be blocked.
const DOCUMENT: &str = r#"{"version": 1, "routers": ["r1.cfg", "r2.cfg"],
 "links": [{"a": "r1:GigabitEthernet0/1", "b": "r2:GigabitEthernet0/1"}],
 "policies": [{"kind": "blocked", "from": "10.1.0.0/24", "to": "10.2.0.0/24"}]}"#;

const R1: &str = "hostname r1
interface GigabitEthernet0/0
 ip address 10.1.0.1 255.255.255.0
interface GigabitEthernet0/1
 ip address 10.0.1.1 255.255.255.252
router ospf 1
 network 0.0.0.0 255.255.255.255 area 0
";

const R2: &str = "hostname r2
interface GigabitEthernet0/0
 ip address 10.2.0.1 255.255.255.0
interface GigabitEthernet0/1
 ip address 10.0.1.2 255.255.255.252
router ospf 1
 network 0.0.0.0 255.255.255.255 area 0
";

/// A document and the network of its files.
#[derive(Drop)]
pub struct Pair {
    pub doc: Document,
    pub net: Network,
}

/// The document of the two routers, and their network.
pub fn two_routers(alloc: Global) -> Result<Pair, NetFault>
    ensures valid { IfOk result (λ pair. IsValid pair.net) }
    ensures ends { IfOk result (λ pair.
        All (λ policy. HasEnds pair.net (subject policy)) pair.doc.policies) }
    ensures well_formed { IfOk result (λ pair. IsWellFormed pair.doc) }
{
    let doc = document(alloc, DOCUMENT.as_bytes())?;
    if doc.routers.len() != 2 {
        return Err(NetFault::Memory);
    }
    let mut files = List::make(alloc);
    files.push(Name::make(alloc, R1.as_bytes())?)?;
    files.push(Name::make(alloc, R2.as_bytes())?)?;
    let net = network(alloc, &doc, &files)?.net;
    Ok(Pair { doc, net })
}
