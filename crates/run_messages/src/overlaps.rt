//! Which two interfaces have overlapping subnets.
ghost use Rattle.std.specs.Prelude.{◌<◌, ◌^◌, length};

use crate::showing::Shown;
use arc_base::{Memory, Name, Prefix};
use ios_config::{Config, FaceText, config};
use ios_lines::cut;
use net_model::{Document, LinkText};
use std::alloc::Global;
use std::fmt;
use std::net::Ipv4Addr;

/// An interface of a router with its address and subnet, and the line that gives them.
#[derive(Drop)]
struct Subnet {
    router: Name,
    face: Name,
    line: u32,
    addr: u32,
    prefix: Prefix,
}

/// The subnets of router files, in the order in which the files are added.
#[derive(Drop)]
pub struct Subnets {
    rows: Vec<Subnet>,
    /// How many of them are from files before the last.
    earlier: usize,
}

/// The settings of a router file, if it can be read.
pub(crate) fn config_of(alloc: Global, text: &[u8]) -> Option<Config>
    requires { length text.now < 2 ^ 32 }
{
    let lines = cut(alloc, text).ok()?;
    config(alloc, text, &lines).ok()
}

/// The prefix of an address with a mask of this many ones.
fn prefix_of(addr: u32, ones: u8) -> Option<Prefix> {
    let past = 32u32.checked_sub(u32::from(ones))?;
    let mask = u32::MAX.checked_shl(past).unwrap_or(0);
    Prefix::new(addr & mask, ones)
}

fn subnet_of(alloc: Global, router: &Name, face: &FaceText) -> Result<Option<Subnet>, Memory> {
    let (Some(addr), Some(ones)) = (face.addr, face.mask_len) else {
        return Ok(None);
    };
    let Some(prefix) = prefix_of(addr.value, ones.value) else {
        return Ok(None);
    };
    Ok(Some(Subnet {
        router: Name::make(alloc, router.bytes())?,
        face: Name::make(alloc, face.name.bytes())?,
        line: addr.line,
        addr: addr.value,
        prefix,
    }))
}

/// Whether the link has the first interface as its end a and the second as its end b.
fn joins(link: &LinkText, a: &Subnet, b: &Subnet) -> bool {
    link.a_router.is(a.router.bytes())
        && link.a_face.is(a.face.bytes())
        && link.b_router.is(b.router.bytes())
        && link.b_face.is(b.face.bytes())
}

/// Whether the two interfaces overlap, and no link of the document joins them.
fn is_overlap(doc: &Document, f: &Subnet, g: &Subnet) -> bool {
    let mut links = doc.links.slice().iter();
    !f.prefix.disjoint(&g.prefix) && !links.any(|link| joins(link, f, g) || joins(link, g, f))
}

/// The interface, named as in a link of the document, with its address.
impl fmt::Display for Subnet {
    fn fmt<W: fmt::Write>(&self, f: &mut fmt::Formatter<W>) -> fmt::Result {
        let (router, face) = (Shown(self.router.bytes()), Shown(self.face.bytes()));
        let (addr, len) = (Ipv4Addr::from_bits(self.addr), self.prefix.len);
        write!(f, "{router}:{face} ({addr}/{len})")
    }
}

impl Subnets {
    /// No subnets.
    pub fn none(alloc: Global) -> Subnets {
        Subnets {
            rows: Vec::new(alloc),
            earlier: 0,
        }
    }

    /// Adds the subnets of a router file, if it can be read.
    pub fn add(&mut self, alloc: Global, text: &[u8]) -> Result<(), Memory>
        requires { length text.now < 2 ^ 32 }
    {
        self.earlier = self.rows.len();
        let Some(config) = config_of(alloc, text) else {
            return Ok(());
        };
        let Some(hostname) = &config.hostname else {
            return Ok(());
        };
        for face in config.faces.slice() {
            if let Some(subnet) = subnet_of(alloc, &hostname.name, face)? {
                self.rows.push(subnet)?;
            }
        }
        Ok(())
    }

    /// The interface of the last file whose address is on this line, and the first one before it
    /// that it overlaps, in words.
    pub fn overlap(&self, alloc: Global, doc: &Document, line: u32) -> Option<String> {
        let mut last = self.rows.get(self.earlier..)?.iter();
        let place = self
            .earlier
            .checked_add(last.position(|row| row.line == line)?)?;
        let (second, others) = self.rows.get(..=place)?.split_last()?;
        let first = others.iter().find(|row| is_overlap(doc, row, second))?;
        format!(in alloc; "{first} and {second} share addresses, and no link joins them").ok()
    }
}
