//! The links of a generated network. Routers, links and the interfaces of a router are numbered
//! from 1.
ghost use Rattle.net_gen.specs.Plans.{link_count, next, a_router, b_router, has_end, port};
ghost use Rattle.std.specs.Prelude.{◌≡◌, ◌≤◌, ◌+◌};

use arc_base::limits::MOST_GENERATED;

/// How many links join `routers` routers.
pub fn link_count(routers: u32) -> u32
    requires { routers ≤ MOST_GENERATED }
    ensures { result ≡ link_count routers }
{
    routers + routers / 2
}

/// The router after this one around the ring.
pub fn next(routers: u32, router: u32) -> u32
    requires some { 1 ≤ routers }
    requires few { routers ≤ MOST_GENERATED }
    ensures { result ≡ next routers router }
{
    router % routers + 1
}

/// The router at the link's end a.
pub fn a_router(routers: u32, link: u32) -> u32
    ensures { result ≡ a_router routers link }
{
    if link <= routers {
        link
    } else {
        link - routers
    }
}

/// The router at the link's end b.
pub fn b_router(routers: u32, link: u32) -> u32
    requires some { 1 ≤ routers }
    requires few { routers ≤ MOST_GENERATED }
    requires link { link ≤ 60 }
    ensures { result ≡ b_router routers link }
{
    if link <= routers {
        next(routers, link)
    } else {
        link - routers + routers / 2
    }
}

/// Whether the link has an end at the router.
pub fn has_end(routers: u32, router: u32, link: u32) -> bool
    requires some { 1 ≤ routers }
    requires few { routers ≤ MOST_GENERATED }
    requires link { link ≤ 60 }
    ensures { result ≡ has_end routers router link }
{
    a_router(routers, link) == router || b_router(routers, link) == router
}

/// The number of the router's interface over the link.
pub fn port(routers: u32, router: u32, link: u32) -> u32
    requires some { 1 ≤ routers }
    requires few { routers ≤ MOST_GENERATED }
    requires link { link ≤ 60 }
    ensures { result ≡ port routers router link }
{
    let mut port = 0;
    for place in 0..link {
        if has_end(routers, router, place + 1) {
            port += 1;
        }
    }
    port
}
