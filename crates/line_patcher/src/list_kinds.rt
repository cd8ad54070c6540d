//! Packet lists and route lists, as edits add entries to them.
ghost use Rattle.line_patcher.specs.EntryLines.{order_at, packet_command, is_packet_form};
ghost use Rattle.net_rules.specs.Lists.{packet_text};
ghost use Rattle.std.specs.Prelude.{◌≡◌, ◌<◌, ◌*◌, ◌^◌, IfOk};

use crate::printed::route_text;
use arc_base::groups::Group;
use arc_base::limits::EDIT_LIMIT;
use arc_base::{List, Memory, Name, Prefix};
use edit_space::{Changes, opposite_packet_entry, opposite_route_entry};
use ios_config::ListForm;
use ios_words::{Command, PacketText};
use net_build::{ListPlace, Places};
use net_model::{Class, Network, PacketEntry, PacketList, RouteList};
use std::alloc::Global;

/// A list of a kind, with what edits add to the lists of this kind.
pub trait EditedList: Sized {
    ghost use Rattle.arc_base.specs.Numbered.{of_number, IsTableOf};
    ghost use Rattle.edit_list.specs.declared.edit_kinds.Edit.{Edit};
    ghost use Rattle.edit_space.specs.Working.{AreChanges};
    ghost use Rattle.ios_words.specs.declared.commands.Command.{Command as Words};
    ghost use Rattle.net_build.specs.declared.built.ListPlace.{ListPlace as At};
    ghost use Rattle.net_build.specs.declared.built.Places.{Places as FilePlaces};
    ghost use Rattle.net_model.specs.declared.rows.Network.{Network as Rows};
    ghost use Rattle.std.specs.List.{filter_map};
    ghost use Rattle.std.specs.Option.{option_copied};
    ghost use Rattle.std.specs.Prelude.{◌≡◌, ◌≤◌, ℕ, Option, List as Items, length, IfOk};

    /// What a new entry is about.
    type Subject: Copy;

    /// The lists of the network.
    ghost lists: { Rows → Items Self };

    /// The router of the list.
    ghost router: { Self → ℕ };

    /// What the edit adds, with the place of its list.
    ghost change: { Edit → Option (ℕ × Self.Subject) };

    /// Where the file has the list.
    ghost place_of: { FilePlaces → Self → Option At };

    /// The new entry at a place of the list.
    ghost command: { At → Self → ℕ × Self.Subject → Words };

    /// The word of a line that is the number of its entry, and the step by which numbers rise.
    ghost numbering: { ℕ × ℕ };

    fn lists(net: &Network) -> &List<Self>
        ensures { result.now ≡ lists net.now };

    fn router(&self) -> u32
        ensures { result ≡ router self.now };

    /// For each list what the edits add.
    fn added<'a>(net: &Network, changes: &'a Changes) -> &'a [Group<Self::Subject>]
        requires { AreChanges net.now changes.now }
        ensures { IsTableOf (length (lists net.now))
            (λ id. of_number id (filter_map change changes.now.edits.items)) result.now };

    fn place<'a>(&self, own: &'a Places) -> Option<&'a ListPlace>
        ensures { option_copied result ≡ place_of own.now self.now };

    fn command(
        &self,
        alloc: Global,
        place: &ListPlace,
        at: u32,
        subject: Self::Subject,
    ) -> Result<Command, Memory>
        requires { at ≤ EDIT_LIMIT }
        ensures { IfOk result (λ made. made ≡ command place.now self.now (at, subject)) };

    fn numbering() -> (u32, u64)
        ensures numbering { result ≡ numbering }
        ensures step { result.1 ≤ 10 };
}

/// The number of the entry at a place of its list, if the list has numbers.
fn order_at(place: &ListPlace, step: u32, at: u32) -> Option<u32>
    requires { step * at < 2 ^ 32 }
    ensures { result ≡ order_at place.now step at }
{
    if place.numbered {
        Some(step * at)
    } else {
        None
    }
}

/// What the line of an entry of a packet list says.
pub fn packet_text(entry: &PacketEntry) -> PacketText
    ensures { result ≡ packet_text entry.now }
{
    PacketText {
        permit: entry.permit,
        from: entry.from,
        to: entry.to,
        low: entry.service.low,
        high: entry.service.high,
    }
}

/// An entry of a packet list that is written in a form.
fn packet_command(
    alloc: Global,
    form: ListForm,
    name: &[u8],
    order: Option<u32>,
    entry: &PacketEntry,
) -> Result<Command, Memory>
    ensures { IfOk result (λ command. command ≡ packet_command form name.now order entry.now) }
{
    match form {
        ListForm::Lines => {
            let name = Name::make(alloc, name)?;
            Ok(Command::ListLine(name, packet_text(entry)))
        }
        _ => Ok(Command::Entry(order, packet_text(entry))),
    }
}

fn is_packet_form(form: ListForm) -> bool
    ensures { result ≡ is_packet_form form }
{
    match form {
        ListForm::Block | ListForm::Lines => true,
        ListForm::PrefixLines => false,
    }
}

impl EditedList for PacketList {
    ghost use Rattle.edit_list.specs.Changes.{packet_list_change};
    ghost use Rattle.line_patcher.specs.EntryLines.{packet_place, class_command};

    type Subject = Class;

    ghost lists = { λ net. net.packet_lists };

    ghost router = { λ list. list.router.0 };

    ghost change = { packet_list_change };

    ghost place_of = { λ own list. packet_place own list.name };

    ghost command = { class_command };

    ghost numbering = { (0, 10) };

    fn lists(net: &Network) -> &List<PacketList> {
        &net.packet_lists
    }

    fn router(&self) -> u32 {
        self.router.0
    }

    fn added<'a>(_net: &Network, changes: &'a Changes) -> &'a [Group<Class>] {
        &changes.packet_lists
    }

    fn place<'a>(&self, own: &'a Places) -> Option<&'a ListPlace> {
        let name = self.name.bytes();
        own.lists
            .slice()
            .iter()
            .find(|place| place.name.is(name) && is_packet_form(place.form))
    }

    fn command(
        &self,
        alloc: Global,
        place: &ListPlace,
        at: u32,
        class: Class,
    ) -> Result<Command, Memory> {
        let entry = opposite_packet_entry(self, class);
        let order = order_at(place, 10, at);
        packet_command(alloc, place.form, self.name.bytes(), order, &entry)
    }

    fn numbering() -> (u32, u64) {
        (0, 10)
    }
}

impl EditedList for RouteList {
    ghost use Rattle.edit_list.specs.Changes.{route_list_change};
    ghost use Rattle.line_patcher.specs.EntryLines.{route_place, prefix_command};

    type Subject = Prefix;

    ghost lists = { λ net. net.route_lists };

    ghost router = { λ list. list.router.0 };

    ghost change = { route_list_change };

    ghost place_of = { λ own list. route_place own list.name };

    ghost command = { prefix_command };

    ghost numbering = { (4, 5) };

    fn lists(net: &Network) -> &List<RouteList> {
        &net.route_lists
    }

    fn router(&self) -> u32 {
        self.router.0
    }

    fn added<'a>(_net: &Network, changes: &'a Changes) -> &'a [Group<Prefix>] {
        &changes.route_lists
    }

    fn place<'a>(&self, own: &'a Places) -> Option<&'a ListPlace> {
        let name = self.name.bytes();
        own.lists
            .slice()
            .iter()
            .find(|place| place.name.is(name) && !is_packet_form(place.form))
    }

    fn command(
        &self,
        alloc: Global,
        place: &ListPlace,
        at: u32,
        prefix: Prefix,
    ) -> Result<Command, Memory> {
        let permit = opposite_route_entry(self, prefix).permit;
        let order = order_at(place, 5, at);
        let name = Name::make(alloc, self.name.bytes())?;
        Ok(Command::PrefixLine(name, order, route_text(permit, &prefix)))
    }

    fn numbering() -> (u32, u64) {
        (4, 5)
    }
}
