//! The document of a generated network.
ghost use Rattle.net_gen.specs.Generated.{IsGeneratedHostNetwork, Asks, asked, link_text};
ghost use Rattle.net_gen.specs.Generated.{IsDocument};
ghost use Rattle.net_gen.specs.Plans.{numbers, link_count};
ghost use Rattle.net_gen.specs.RouterFiles.{file_name};
ghost use Rattle.std.specs.List.{AllZip};
ghost use Rattle.std.specs.Prelude.{◌≡◌, ◌≤◌, IfOk, map};

use crate::plans::{a_router, b_router, link_count, next, port};
use crate::router_files::{face_name, file_name, host_name};
use arc_base::limits::MOST_GENERATED;
use arc_base::{List, Memory, Name, Prefix};
use net_model::{Document, LinkText, Policy, PolicyKind, Service, Weights};
use std::alloc::Global;

/// The link of this number.
fn link_text(alloc: Global, routers: u32, link: u32) -> Result<LinkText, Memory>
    requires some { 1 ≤ routers }
    requires few { routers ≤ MOST_GENERATED }
    requires link { link ≤ 60 }
    ensures { IfOk result (λ text. text ≡ link_text routers link) }
{
    let a = a_router(routers, link);
    let b = b_router(routers, link);
    Ok(LinkText {
        a_router: host_name(alloc, a)?,
        a_face: face_name(alloc, port(routers, a, link))?,
        b_router: host_name(alloc, b)?,
        b_face: face_name(alloc, port(routers, b, link))?,
        waypoint: false,
    })
}

fn links(alloc: Global, routers: u32) -> Result<List<LinkText>, Memory>
    requires some { 1 ≤ routers }
    requires few { routers ≤ MOST_GENERATED }
    ensures { IfOk result (λ links.
        links ≡ map (link_text routers) (numbers (link_count routers))) }
{
    let mut links = List::make(alloc);
    for place in 0..link_count(routers) {
        links.push(link_text(alloc, routers, place + 1)?)?;
    }
    Ok(links)
}

fn file_names(alloc: Global, routers: u32) -> Result<List<Name>, Memory>
    requires few { routers ≤ MOST_GENERATED }
    ensures { IfOk result (λ names. names ≡ map file_name (numbers routers)) }
{
    let mut names = List::make(alloc);
    for place in 0..routers {
        names.push(file_name(alloc, place + 1)?)?;
    }
    Ok(names)
}

/// The host network of a router.
fn host_network(router: u32) -> Prefix
    requires { router ≤ MOST_GENERATED }
    ensures { IsGeneratedHostNetwork router result }
{
    Prefix {
        addr: 0x0a00_0000 + router * 0x1_0000,
        len: 24,
    }
}

/// The policy from the host network of a router to that of another, on all services.
fn policy(kind: PolicyKind, source: u32, target: u32) -> Policy
    requires source { source ≤ MOST_GENERATED }
    requires target { target ≤ MOST_GENERATED }
    ensures { Asks (record { kind = kind; source = source; target = target }) result }
{
    Policy {
        kind,
        from: host_network(source),
        to: host_network(target),
        service: Service::whole(),
    }
}

fn policies(alloc: Global, routers: u32) -> Result<List<Policy>, Memory>
    requires some { 1 ≤ routers }
    requires few { routers ≤ MOST_GENERATED }
    ensures { IfOk result (AllZip Asks (asked routers)) }
{
    let mut policies = List::make(alloc);
    for place in 0..routers {
        let router = place + 1;
        let kind = PolicyKind::Reach(1);
        policies.push(policy(kind, router, next(routers, router)))?;
    }
    policies.push(policy(PolicyKind::Blocked, 1, routers))?;
    Ok(policies)
}

/// The document of a network of `routers` routers.
pub fn document(alloc: Global, routers: u32) -> Result<Document, Memory>
    requires some { 1 ≤ routers }
    requires few { routers ≤ MOST_GENERATED }
    ensures { IfOk result (IsDocument routers) }
{
    Ok(Document {
        routers: file_names(alloc, routers)?,
        links: links(alloc, routers)?,
        policies: policies(alloc, routers)?,
        weights: Weights {
            list: 1,
            filter: 1,
            session: 1,
        },
    })
}
