//! The plain line of each command, appended to a text without its line end. A line of a block
//! begins with one space.
ghost use Rattle.ios_words.specs.declared.commands.Command.TheVariants.{ListLine, PrefixLine};
ghost use Rattle.std.specs.Prelude.{◌≡◌, ◌++◌, OnOk};
ghost use Rattle.ios_words.specs.declared.kinds.BlockKind.TheVariants as blocks;
ghost use Rattle.ios_words.specs.Plain.{plain_line};
ghost use Rattle.ios_words.specs.Printed.{interface_word};
ghost use Rattle.ios_words.specs.Views.{list_block, text_of};

use crate::commands::{Command, PacketText, RouteText};
use crate::kinds::BlockKind;
use crate::numbers::list_kind;
use crate::printed_words::Word::{Address, Number, Text};
use crate::printed_words::{
    Word, either, mask, push_entry, push_order, push_route, push_sequence, push_top, push_unless,
    push_words, wildcard,
};
use arc_base::{Memory, Name};
use std::alloc::Global;

/// Adds an entry of a numbered list, as a line.
fn print_list_line(
    alloc: Global,
    text: &mut Vec<u8>,
    number: &Name,
    entry: &PacketText,
) -> Result<(), Memory>
    ensures { OnOk result (text.new.items
        ≡ text.old.items ++ plain_line blocks.Top (ListLine number.now entry.now)) }
{
    let extended = list_kind(number.bytes()).unwrap_or(false);
    push_top(alloc, text, b"access-list", &[Text(number.bytes())])?;
    push_entry(alloc, text, extended, entry)
}

/// Adds an entry of a prefix list.
fn print_prefix_line(
    alloc: Global,
    text: &mut Vec<u8>,
    name: &Name,
    order: Option<u32>,
    entry: &RouteText,
) -> Result<(), Memory>
    ensures { OnOk result (text.new.items
        ≡ text.old.items ++ plain_line blocks.Top (PrefixLine name.now order entry.now)) }
{
    push_top(alloc, text, b"ip prefix-list", &[Text(name.bytes())])?;
    push_sequence(alloc, text, order)?;
    push_route(alloc, text, entry)
}

/// Adds a top line.
fn print_top(alloc: Global, text: &mut Vec<u8>, command: &Command) -> Result<(), Memory>
    ensures { OnOk result
        (text.new.items ≡ text.old.items ++ plain_line blocks.Top command.now) }
{
    match command {
        Command::Hostname(name) => push_top(alloc, text, b"hostname", &[Text(name.bytes())]),
        Command::Interface(name) => push_top(alloc, text, b"interface", &[Text(name.bytes())]),
        Command::RouterOspf(number) => push_top(alloc, text, b"router ospf", &[Number(*number)]),
        Command::RouterBgp(number) => push_top(alloc, text, b"router bgp", &[Number(*number)]),
        Command::ListBlock(extended, name) => {
            let kind = either(*extended, b"extended", b"standard");
            push_top(alloc, text, b"ip access-list", &[kind, Text(name.bytes())])
        }
        Command::ListLine(number, entry) => print_list_line(alloc, text, number, entry),
        Command::PrefixLine(name, order, entry) => {
            print_prefix_line(alloc, text, name, *order, entry)
        }
        _ => Ok(()),
    }
}

/// Adds a line of an interface's block.
fn print_interface(alloc: Global, text: &mut Vec<u8>, command: &Command) -> Result<(), Memory>
    ensures { OnOk result
        (text.new.items ≡ text.old.items ++ plain_line blocks.Interface command.now) }
{
    match command {
        Command::Address(address, len) => {
            let words = [Text(b"ip address"), Address(*address), Address(mask(*len))];
            push_words(alloc, text, &words)
        }
        Command::NoAddress => push_words(alloc, text, &[Text(b"no ip address")]),
        Command::Shutdown(down) => push_unless(alloc, text, *down, &[Text(b"shutdown")]),
        Command::Bandwidth(number) => {
            push_words(alloc, text, &[Text(b"bandwidth"), Number(*number)])
        }
        Command::Cost(number) => push_words(alloc, text, &[Text(b"ip ospf cost"), Number(*number)]),
        Command::Area(area) => {
            let (process, area) = (Number(area.process), Number(area.area));
            let words = [Text(b"ip ospf"), process, Text(b"area"), area];
            push_words(alloc, text, &words)
        }
        Command::Point(point) => {
            let network = either(*point, b"point-to-point", b"broadcast");
            push_words(alloc, text, &[Text(b"ip ospf network"), network])
        }
        Command::Group(name, inbound) => {
            let (name, direction) = (Text(name.bytes()), either(*inbound, b"in", b"out"));
            push_words(alloc, text, &[Text(b"ip access-group"), name, direction])
        }
        _ => Ok(()),
    }
}

/// An interface that is passive, or each one where none is named.
fn interface_word(name: &Option<Name>) -> Word<'_>
    ensures { text_of result ≡ interface_word name.now }
{
    match name {
        Some(name) => Text(name.bytes()),
        None => Text(b"default"),
    }
}

/// Adds a line of an OSPF process.
fn print_ospf(alloc: Global, text: &mut Vec<u8>, command: &Command) -> Result<(), Memory>
    ensures { OnOk result
        (text.new.items ≡ text.old.items ++ plain_line blocks.Ospf command.now) }
{
    match command {
        Command::Covers(prefix, area) => {
            let (address, area) = (Address(prefix.addr), Number(*area));
            let wildcard = Address(wildcard(prefix.len));
            let words = [Text(b"network"), address, wildcard, Text(b"area"), area];
            push_words(alloc, text, &words)
        }
        Command::Passive(passive, name) => {
            let words = [Text(b"passive-interface"), interface_word(name)];
            push_unless(alloc, text, *passive, &words)
        }
        Command::Reference(number) => {
            let words = [Text(b"auto-cost reference-bandwidth"), Number(*number)];
            push_words(alloc, text, &words)
        }
        Command::RouterId(address) => {
            push_words(alloc, text, &[Text(b"router-id"), Address(*address)])
        }
        _ => Ok(()),
    }
}

/// Adds a line of a BGP process.
fn print_bgp(alloc: Global, text: &mut Vec<u8>, command: &Command) -> Result<(), Memory>
    ensures { OnOk result
        (text.new.items ≡ text.old.items ++ plain_line blocks.Bgp command.now) }
{
    match command {
        Command::RemoteAs(peer, number) => {
            let (peer, number) = (Address(*peer), Number(*number));
            let words = [Text(b"neighbor"), peer, Text(b"remote-as"), number];
            push_words(alloc, text, &words)
        }
        Command::NeighborDown(peer, down) => {
            let words = [Text(b"neighbor"), Address(*peer), Text(b"shutdown")];
            push_unless(alloc, text, *down, &words)
        }
        Command::NeighborList(peer, name) => {
            let (peer, name) = (Address(*peer), Text(name.bytes()));
            let (neighbor, list) = (Text(b"neighbor"), Text(b"prefix-list"));
            let words = [neighbor, peer, list, name, Text(b"in")];
            push_words(alloc, text, &words)
        }
        Command::Tells(prefix) => {
            let (address, mask) = (Address(prefix.addr), Address(mask(prefix.len)));
            let words = [Text(b"network"), address, Text(b"mask"), mask];
            push_words(alloc, text, &words)
        }
        Command::RouterId(address) => {
            push_words(alloc, text, &[Text(b"bgp router-id"), Address(*address)])
        }
        _ => Ok(()),
    }
}

/// Adds an entry of a list's block.
fn print_entry(
    alloc: Global,
    text: &mut Vec<u8>,
    extended: bool,
    command: &Command,
) -> Result<(), Memory>
    ensures { OnOk result
        (text.new.items ≡ text.old.items ++ plain_line (list_block extended) command.now) }
{
    let Command::Entry(order, entry) = command else {
        return Ok(());
    };
    push_order(alloc, text, *order)?;
    push_entry(alloc, text, extended, entry)
}

/// Adds the plain line of a command in a block of this kind, and nothing if it occurs in no such
/// block.
pub fn print(
    alloc: Global,
    text: &mut Vec<u8>,
    within: BlockKind,
    command: &Command,
) -> Result<(), Memory>
    ensures { OnOk result (text.new.items ≡ text.old.items ++ plain_line within command.now) }
{
    match within {
        BlockKind::Top => print_top(alloc, text, command),
        BlockKind::Interface => print_interface(alloc, text, command),
        BlockKind::Ospf => print_ospf(alloc, text, command),
        BlockKind::Bgp => print_bgp(alloc, text, command),
        BlockKind::Extended => print_entry(alloc, text, true, command),
        BlockKind::Standard => print_entry(alloc, text, false, command),
        BlockKind::Inert => Ok(()),
    }
}
