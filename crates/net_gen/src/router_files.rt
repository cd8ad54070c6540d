//! The texts of the router files, and the names that they give.
ghost use Rattle.ios_words.specs.Plain.{plain_line};
ghost use Rattle.net_gen.specs.Plans.{numbers, link_count, a_router};
ghost use Rattle.net_gen.specs.RouterFiles.{host_name, file_name, face_name, address, ended};
ghost use Rattle.net_gen.specs.RouterFiles.{face_lines, name_lines, link_lines};
ghost use Rattle.net_gen.specs.RouterFiles.{links_lines, process_lines, router_lines, text_of};
ghost use Rattle.std.specs.Prelude.{◌≡◌, ◌<◌, ◌≤◌, ◌++◌, ◌==◌, IfOk, OnOk, if◌then◌else◌};

use crate::plans::{a_router, has_end, link_count, port};
use arc_base::limits::MOST_GENERATED;
use arc_base::{Memory, Name};
use ios_words::{BlockKind, Command, print, whole};
use std::alloc::Global;

/// The name of a router.
pub fn host_name(alloc: Global, router: u32) -> Result<Name, Memory>
    ensures { IfOk result (λ name. name ≡ host_name router) }
{
    let text = format!(in alloc; "r{router}")?;
    Ok(Name::of(text.into_bytes()))
}

/// The name of a router's file.
pub fn file_name(alloc: Global, router: u32) -> Result<Name, Memory>
    ensures { IfOk result (λ name. name ≡ file_name router) }
{
    let text = format!(in alloc; "r{router}.cfg")?;
    Ok(Name::of(text.into_bytes()))
}

/// The name of an interface.
pub fn face_name(alloc: Global, number: u32) -> Result<Name, Memory>
    ensures { IfOk result (λ name. name ≡ face_name number) }
{
    let text = format!(in alloc; "GigabitEthernet0/{number}")?;
    Ok(Name::of(text.into_bytes()))
}

/// Adds the plain line of a command in a block of this kind, with its end.
fn push_command(
    alloc: Global,
    text: &mut Vec<u8>,
    within: BlockKind,
    command: &Command,
) -> Result<(), Memory>
    ensures { OnOk result
        (text.new.items ≡ text.old.items ++ ended (plain_line within command.now)) }
{
    print(alloc, text, within, command)?;
    text.push(b'\n')?;
    Ok(())
}

/// Adds the lines that name the router.
fn push_name(alloc: Global, text: &mut Vec<u8>, router: u32) -> Result<(), Memory>
    ensures { OnOk result (text.new.items ≡ text.old.items ++ text_of (name_lines router)) }
{
    let name = host_name(alloc, router)?;
    push_command(alloc, text, BlockKind::Top, &Command::Hostname(name))?;
    text.extend_from_slice(b"!\n")?;
    Ok(())
}

/// The address 10.b.c.d.
fn address(b: u32, c: u32, d: u32) -> u32
    requires second { b < 256 }
    requires third { c < 256 }
    requires fourth { d < 256 }
    ensures { result ≡ address b c d }
{
    0x0a00_0000 + b * 0x1_0000 + c * 0x100 + d
}

/// Adds the lines of an interface with this address.
fn push_face(
    alloc: Global,
    text: &mut Vec<u8>,
    number: u32,
    addr: u32,
    len: u8,
) -> Result<(), Memory>
    ensures { OnOk result
        (text.new.items ≡ text.old.items ++ text_of (face_lines number addr len)) }
{
    let name = face_name(alloc, number)?;
    push_command(alloc, text, BlockKind::Top, &Command::Interface(name))?;
    let command = Command::Address(addr, len);
    push_command(alloc, text, BlockKind::Interface, &command)?;
    text.extend_from_slice(b"!\n")?;
    Ok(())
}

/// The last byte of the router's address on the link.
fn end_number(routers: u32, router: u32, link: u32) -> u32
    ensures is { result ≡ (if a_router routers link == router then 1 else 2) }
    ensures few { result ≤ 2 }
{
    if a_router(routers, link) == router {
        1
    } else {
        2
    }
}

/// Adds the lines of the router's interface over the link.
fn push_link(
    alloc: Global,
    text: &mut Vec<u8>,
    routers: u32,
    router: u32,
    link: u32,
) -> Result<(), Memory>
    requires some { 1 ≤ routers }
    requires few { routers ≤ MOST_GENERATED }
    requires link { link ≤ 60 }
    ensures { OnOk result
        (text.new.items ≡ text.old.items ++ text_of (link_lines routers router link)) }
{
    let number = port(routers, router, link);
    let end = end_number(routers, router, link);
    push_face(alloc, text, number, address(0, link, end), 30)
}

/// Adds the lines of all interfaces over the router's links.
fn push_links(alloc: Global, text: &mut Vec<u8>, routers: u32, router: u32) -> Result<(), Memory>
    requires some { 1 ≤ routers }
    requires few { routers ≤ MOST_GENERATED }
    ensures { OnOk result (text.new.items
        ≡ text.old.items ++ text_of (links_lines routers router (numbers (link_count routers)))) }
{
    for place in 0..link_count(routers) {
        if has_end(routers, router, place + 1) {
            push_link(alloc, text, routers, router, place + 1)?;
        }
    }
    Ok(())
}

/// Adds the lines of the process, and the last line.
fn push_process(alloc: Global, text: &mut Vec<u8>) -> Result<(), Memory>
    ensures { OnOk result (text.new.items ≡ text.old.items ++ text_of process_lines) }
{
    push_command(alloc, text, BlockKind::Top, &Command::RouterOspf(1))?;
    push_command(alloc, text, BlockKind::Ospf, &Command::Covers(whole(), 0))?;
    text.extend_from_slice(b"!\nend\n")?;
    Ok(())
}

/// The text of a router's file.
pub fn router_text(alloc: Global, routers: u32, router: u32) -> Result<Name, Memory>
    requires some { 1 ≤ routers }
    requires few { routers ≤ MOST_GENERATED }
    requires router { router ≤ routers }
    ensures { IfOk result (λ text. text ≡ text_of (router_lines routers router)) }
{
    let mut text = Vec::new(alloc);
    push_name(alloc, &mut text, router)?;
    push_face(alloc, &mut text, 0, address(router, 0, 1), 24)?;
    push_links(alloc, &mut text, routers, router)?;
    push_process(alloc, &mut text)?;
    Ok(Name::of(text))
}
