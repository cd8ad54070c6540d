//! The packet lists and the route lists after edits.
ghost use Rattle.arc_base.specs.Numbered.{EachRow};
ghost use Rattle.edit_space.specs.Working.{AreChanges, IsWithin, list_keys, new_key_by};
ghost use Rattle.std.specs.List.{filter_map};
ghost use Rattle.std.specs.Prelude.{◌≡◌, ◌++◌, All, length, IfOk, OnOk};

use crate::changes::Changes;
use crate::entries::{new_packet_entries, new_route_entries, with_classes, with_prefixes};
use crate::new_lists::Named;
use crate::order::Keyed;
use arc_base::groups::things_at;
use arc_base::{Face, List, ListId, Memory, Name, Prefix, Router};
use edit_list::{Edit, NewList, Site};
use net_model::{Class, Network, PacketList, RouteList};
use std::alloc::Global;

/// A packet list or a route list: what edits do to the lists of a kind.
pub trait KeyedList: Sized + Drop {
    ghost use Rattle.arc_base.specs.declared.place.Face.{Face as FacePlace};
    ghost use Rattle.edit_list.specs.Ordered.{Key};
    ghost use Rattle.edit_list.specs.declared.edit_kinds.Edit.{Edit as AnyEdit};
    ghost use Rattle.edit_list.specs.declared.list_kinds.NewList.{NewList as MadeList};
    ghost use Rattle.edit_space.specs.Working.{AreChanges, IsWithin};
    ghost use Rattle.edit_space.specs.declared.order.Keyed.{Keyed as KeyAndSite};
    ghost use Rattle.net_model.specs.declared.rows.Network.{Network as Rows};
    ghost use Rattle.std.specs.Prelude.{◌≡◌, ℕ, Option, List as Items, length, IfOk};

    /// What an entry that an edit makes is about.
    type Subject: Copy + Drop;

    /// What the edit adds to a list that there is, with the place of the list.
    ghost change: { AnyEdit → Option (ℕ × Self.Subject) };

    /// What the edit adds to a new list, with the place of the interface.
    ghost new_change: { AnyEdit → Option (ℕ × Self.Subject) };

    /// The lists of the network.
    ghost lists: { Rows → Items Self };

    /// The router and the name of a list.
    ghost key: { Self → Key };

    /// The interface of a new list, if the list is of the kind.
    ghost face: { MadeList → Option FacePlace };

    /// This is the list after the edits for the key.
    ghost IsFor: { Rows → Items AnyEdit → KeyAndSite → Self → Type 0 };

    fn change(edit: &Edit) -> Option<(u32, Self::Subject)>
        ensures { result ≡ change edit.now };

    fn new_change(edit: &Edit) -> Option<(u32, Self::Subject)>
        ensures { result ≡ new_change edit.now };

    fn key(&self) -> (u32, &[u8])
        ensures { (result.0, result.1.now) ≡ key self.now };

    fn face(list: NewList) -> Option<Face>
        ensures { result ≡ face list };

    /// The edited or new list for this key.
    fn list_after(
        alloc: Global,
        net: &Network,
        changes: &Changes,
        keyed: &Keyed,
    ) -> Result<Self, Memory>
        requires changes { AreChanges net.now changes.now }
        requires within { IsWithin (length (lists net.now)) (length net.now.faces) keyed.now.site }
        ensures { IfOk result (IsFor net.now changes.now.edits.items keyed.now) };
}

/// The lists after the edits, without an order: those that there were, and then the new ones.
pub fn keyed_lists<L: KeyedList>(
    alloc: Global,
    lists: &List<L>,
    named: &[Named],
) -> Result<Vec<Keyed>, Memory>
    ensures { IfOk result (λ keyed. keyed.items ≡ list_keys lists.now L.key L.face named.now) }
{
    let mut keyed = Vec::new(alloc);
    for (place, list) in lists.slice().iter().enumerate() {
        let (router, name) = list.key();
        keyed.push(Keyed {
            router,
            name: Name::make(alloc, name)?,
            site: Site::Bound(ListId(place as u32)),
        })?;
    }
    add_new_lists::<L>(alloc, &mut keyed, named)?;
    Ok(keyed)
}

fn add_new_lists<L: KeyedList>(
    alloc: Global,
    keyed: &mut Vec<Keyed>,
    named: &[Named],
) -> Result<(), Memory>
    ensures { OnOk result
        (keyed.new.items ≡ keyed.old.items ++ filter_map (new_key_by L.face) named.now) }
{
    for new in named {
        if let Some(face) = L::face(new.list) {
            keyed.push(Keyed {
                router: new.router,
                name: Name::make(alloc, new.name.bytes())?,
                site: Site::New(face),
            })?;
        }
    }
    Ok(())
}

/// The lists after the edits, in this order.
pub fn lists_after<L: KeyedList>(
    alloc: Global,
    net: &Network,
    changes: &Changes,
    keyed: &[Keyed],
) -> Result<List<L>, Memory>
    requires changes { AreChanges net.now changes.now }
    requires within { All
        (λ list. IsWithin (length (L.lists net.now)) (length net.now.faces) list.site) keyed.now }
    ensures { IfOk result (EachRow (λ place. L.IsFor net.now changes.now.edits.items) keyed.now) }
{
    let mut lists = Vec::new(alloc);
    for key in keyed {
        lists.push(L::list_after(alloc, net, changes, key)?)?;
    }
    List::of(lists)
}

impl KeyedList for PacketList {
    ghost use Rattle.edit_list.specs.Changes.{packet_list_change, new_packet_change};
    ghost use Rattle.edit_space.specs.Working.{packet_face, IsPacketListFor};

    type Subject = Class;

    ghost change = { packet_list_change };

    ghost new_change = { new_packet_change };

    ghost lists = { λ net. net.packet_lists };

    ghost key = { λ list. (list.router.0, list.name) };

    ghost face = { packet_face };

    ghost IsFor = { IsPacketListFor };

    fn change(edit: &Edit) -> Option<(u32, Class)> {
        match edit {
            Edit::PacketList(list, class) => Some((list.0, *class)),
            _ => None,
        }
    }

    fn new_change(edit: &Edit) -> Option<(u32, Class)> {
        match edit {
            Edit::PacketNew(face, class) => Some((face.0, *class)),
            _ => None,
        }
    }

    fn key(&self) -> (u32, &[u8]) {
        (self.router.0, self.name.bytes())
    }

    fn face(list: NewList) -> Option<Face> {
        match list {
            NewList::Packet(face) => Some(face),
            NewList::Route(_) => None,
        }
    }

    fn list_after(
        alloc: Global,
        net: &Network,
        changes: &Changes,
        keyed: &Keyed,
    ) -> Result<PacketList, Memory> {
        let name = Name::make(alloc, keyed.name.bytes())?;
        let router = Router(keyed.router);
        match keyed.site {
            Site::Bound(id) => match net.packet_lists.get(id.0) {
                Some(list) => Ok(PacketList {
                    router,
                    name,
                    extended: list.extended,
                    entries: with_classes(alloc, list, things_at(&changes.packet_lists, id.0))?,
                }),
                None => unreachable!(),
            },
            Site::New(face) => Ok(PacketList {
                router,
                name,
                extended: true,
                entries: new_packet_entries(alloc, things_at(&changes.new_packets, face.0))?,
            }),
        }
    }
}

impl KeyedList for RouteList {
    ghost use Rattle.edit_list.specs.Changes.{route_list_change, new_route_change};
    ghost use Rattle.edit_space.specs.Working.{route_face, IsRouteListFor};

    type Subject = Prefix;

    ghost change = { route_list_change };

    ghost new_change = { new_route_change };

    ghost lists = { λ net. net.route_lists };

    ghost key = { λ list. (list.router.0, list.name) };

    ghost face = { route_face };

    ghost IsFor = { IsRouteListFor };

    fn change(edit: &Edit) -> Option<(u32, Prefix)> {
        match edit {
            Edit::RouteList(list, prefix) => Some((list.0, *prefix)),
            _ => None,
        }
    }

    fn new_change(edit: &Edit) -> Option<(u32, Prefix)> {
        match edit {
            Edit::RouteNew(face, prefix) => Some((face.0, *prefix)),
            _ => None,
        }
    }

    fn key(&self) -> (u32, &[u8]) {
        (self.router.0, self.name.bytes())
    }

    fn face(list: NewList) -> Option<Face> {
        match list {
            NewList::Packet(_) => None,
            NewList::Route(face) => Some(face),
        }
    }

    fn list_after(
        alloc: Global,
        net: &Network,
        changes: &Changes,
        keyed: &Keyed,
    ) -> Result<RouteList, Memory> {
        let name = Name::make(alloc, keyed.name.bytes())?;
        let router = Router(keyed.router);
        match keyed.site {
            Site::Bound(id) => match net.route_lists.get(id.0) {
                Some(list) => Ok(RouteList {
                    router,
                    name,
                    entries: with_prefixes(alloc, list, things_at(&changes.route_lists, id.0))?,
                }),
                None => unreachable!(),
            },
            Site::New(face) => Ok(RouteList {
                router,
                name,
                entries: new_route_entries(alloc, things_at(&changes.new_routes, face.0))?,
            }),
        }
    }
}
