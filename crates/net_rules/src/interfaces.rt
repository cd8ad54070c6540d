//! What a file says of an interface: its address, its subnet and its OSPF network type.
ghost use Rattle.net_rules.specs.Rows.{IsSubnet};
ghost use Rattle.net_rules.specs.Settings.{value, address_of, is_point_to_point};
ghost use Rattle.std.specs.Prelude.{◌≡◌, ◌≤◌, Some, None, option_map, IfSome, unwrap_or, slice_get};
ghost use Rattle.std.specs.Prelude.{option_and_then};

use crate::kinds::FaceKind;
use crate::prefixes::prefix_at;
use arc_base::{Face, Prefix};
use ios_config::{FaceText, Given};
use net_model::Network;

/// The address of an interface and the length of its mask.
pub fn address_of(face: &FaceText) -> Option<(u32, u8)>
    ensures { result ≡ address_of face.now }
{
    match &face.addr {
        None => None,
        Some(addr) => match &face.mask_len {
            None => None,
            Some(mask_len) => Some((addr.value, mask_len.value)),
        },
    }
}

/// The connected subnet of an address and the length of its mask.
pub fn subnet_of(address: Option<(u32, u8)>) -> Option<Prefix>
    requires { IfSome address (λ a. a.1 ≤ 32) }
    ensures { IsSubnet address result }
{
    match address {
        None => None,
        Some((address, len)) => Some(prefix_at(address, len)),
    }
}

/// Whether the network type that a line gives is point-to-point, or else this.
pub fn is_point_to_point(given: &Option<Given<bool>>, default: bool) -> bool
    ensures { result ≡ unwrap_or (option_map (λ g. g.value) given.now) default }
{
    match given {
        Some(given) => given.value,
        None => default,
    }
}

/// Whether the OSPF network type of the interface is point-to-point.
pub fn has_point_type(face: &FaceText) -> bool
    ensures { result ≡ is_point_to_point face.now }
{
    is_point_to_point(&face.point, FaceKind::of(face.name.bytes()).is_serial())
}

/// The address of the interface at a place.
pub fn address_at(net: &Network, face: Face) -> Option<u32>
    ensures { result ≡ option_and_then (λ row. row.addr) (slice_get net.now.faces face.0) }
{
    match net.faces.get(face.0) {
        Some(row) => row.addr,
        None => None,
    }
}
