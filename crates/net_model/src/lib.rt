//! The network of router files, the policies over it, and the witnesses of verdicts. Its
//! definitions are all that a reader of the product's theorems has to believe; docs/model.md goes
//! through them in plain words. Its calls answer what lists permit, which interface has a host
//! network, and which arcs are routed.
#![tactic(auto)]

mod forwarding;
mod lists;
mod policies;
mod routing;
mod rows;
mod services;
mod sessions;
mod tables;
mod verdicts;

pub use lists::{Packet, PacketEntry, PacketList, RouteEntry, RouteList};
pub use policies::{Class, Document, LinkText, Policy, PolicyKind, Weights};
pub use routing::Told;
pub use rows::{FaceRow, LinkRow, Network, Protocol, RouterRow, SessionRow};
pub use services::Service;
pub use tables::RoutedLink;
pub use verdicts::{ClassSide, LinkPath, Verdict};
