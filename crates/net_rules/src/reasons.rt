//! Refusals of files and of items of the document.
ghost use Rattle.net_doc.specs.declared.fault.NetFault.TheVariants.{Refused};
ghost use Rattle.std.specs.Prelude.{◌≡◌, ◌+◌, ◌<◌, ◌^◌};

use arc_base::Kind;
use net_doc::{NetFault, Refusal};

/// The refusal of the router file at this place, at a line.
pub fn in_file(place: usize, number: u32, kind: Kind) -> NetFault
    requires { place + 1 < 2 ^ 32 }
    ensures { result ≡ Refused (record { file = place + 1; number = number; kind = kind }) }
{
    NetFault::Refused(Refusal {
        file: place as u32 + 1,
        number,
        kind,
    })
}

/// The refusal of the document's link or policy at this place.
pub fn in_document(place: usize, kind: Kind) -> NetFault
    requires { place + 1 < 2 ^ 32 }
    ensures { result ≡ Refused (record { file = 0; number = place + 1; kind = kind }) }
{
    NetFault::Refused(Refusal {
        file: 0,
        number: place as u32 + 1,
        kind,
    })
}
