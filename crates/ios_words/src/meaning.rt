//! What a row says of the values of its places.
ghost use Rattle.ios_words.specs.FoundValues.{values_of};
ghost use Rattle.ios_words.specs.Meanings.{give, packet, route, area};
ghost use Rattle.std.specs.Prelude.{◌≡◌, IfOk};

use crate::commands::{AreaText, Command, PacketText, RouteText};
use crate::found::Found;
use crate::rows::Meaning;
use arc_base::{Memory, Name};
use std::alloc::Global;

/// The command of a row of this meaning whose words gave these values.
pub(crate) fn give(alloc: Global, meaning: Meaning, found: Found) -> Result<Command, Memory>
    ensures { IfOk result (λ command. command ≡ give meaning (values_of found.entry)) }
{
    match meaning {
        Meaning::Hostname => Ok(Command::Hostname(text(alloc, found)?)),
        Meaning::Interface => Ok(Command::Interface(text(alloc, found)?)),
        Meaning::RouterOspf => Ok(Command::RouterOspf(found.number)),
        Meaning::RouterBgp => Ok(Command::RouterBgp(found.number)),
        Meaning::ExtendedList => Ok(Command::ListBlock(true, text(alloc, found)?)),
        Meaning::StandardList => Ok(Command::ListBlock(false, text(alloc, found)?)),
        Meaning::ListLine => Ok(Command::ListLine(text(alloc, found)?, packet(found))),
        Meaning::PrefixLine => Ok(Command::PrefixLine(
            text(alloc, found)?,
            found.order,
            route(found),
        )),
        Meaning::Address => Ok(Command::Address(found.address, found.length)),
        Meaning::NoAddress => Ok(Command::NoAddress),
        Meaning::Shutdown => Ok(Command::Shutdown(true)),
        Meaning::NoShutdown => Ok(Command::Shutdown(false)),
        Meaning::Bandwidth => Ok(Command::Bandwidth(found.number)),
        Meaning::Cost => Ok(Command::Cost(found.number)),
        Meaning::Area => Ok(Command::Area(area(found))),
        Meaning::PointToPoint => Ok(Command::Point(true)),
        Meaning::Broadcast => Ok(Command::Point(false)),
        Meaning::GroupIn => Ok(Command::Group(text(alloc, found)?, true)),
        Meaning::GroupOut => Ok(Command::Group(text(alloc, found)?, false)),
        Meaning::Covers => Ok(Command::Covers(found.to, found.area)),
        Meaning::Passive => Ok(Command::Passive(true, Some(text(alloc, found)?))),
        Meaning::NoPassive => Ok(Command::Passive(false, Some(text(alloc, found)?))),
        Meaning::PassiveByDefault => Ok(Command::Passive(true, None)),
        Meaning::NoPassiveByDefault => Ok(Command::Passive(false, None)),
        Meaning::Reference => Ok(Command::Reference(found.number)),
        Meaning::RouterId => Ok(Command::RouterId(found.address)),
        Meaning::RemoteAs => Ok(Command::RemoteAs(found.address, found.number)),
        Meaning::NeighborDown => Ok(Command::NeighborDown(found.address, true)),
        Meaning::NoNeighborDown => Ok(Command::NeighborDown(found.address, false)),
        Meaning::NeighborList => Ok(Command::NeighborList(found.address, text(alloc, found)?)),
        Meaning::Tells => Ok(Command::Tells(found.to)),
        Meaning::Entry => Ok(Command::Entry(found.order, packet(found))),
        Meaning::Inert => Ok(Command::Inert),
    }
}

/// The name or number that was read.
fn text(alloc: Global, found: Found) -> Result<Name, Memory>
    ensures { IfOk result (λ name. name ≡ found.entry.text.now) }
{
    Name::make(alloc, found.text)
}

/// The entry of a packet list.
fn packet(found: Found) -> PacketText
    ensures { result ≡ packet (values_of found.entry) }
{
    PacketText {
        permit: found.permit,
        from: found.from,
        to: found.to,
        low: found.services.low,
        high: found.services.high,
    }
}

/// The entry of a prefix list.
fn route(found: Found) -> RouteText
    ensures { result ≡ route (values_of found.entry) }
{
    RouteText {
        permit: found.permit,
        prefix: found.to,
        low: found.low,
        high: found.high,
    }
}

/// The process and the area that an interface names.
fn area(found: Found) -> AreaText
    ensures { result ≡ area (values_of found.entry) }
{
    AreaText {
        process: found.number,
        area: found.area,
    }
}
