//! Which links and arcs are routed for a host network (RFC 2328, RFC 4271), asked one by one.
ghost use Rattle.net_model.specs.Decided.{names, takes_part, is_able_end, is_open, tells, is_told};
ghost use Rattle.net_model.specs.Forwarding.{LiesInHostOf, IsHostOf, IsHostFace, HasHost};
ghost use Rattle.net_model.specs.Routing.{tail_end, head_end, session_at, IsAbleEnd, IsOpen};
ghost use Rattle.net_model.specs.Routing.{RouteListPermits, FilterPermits, Advertises, Carries};
ghost use Rattle.net_model.specs.Routing.{IsRoutedLink};
ghost use Rattle.net_model.specs.Tables.{IsRoutedOver, IsToldOf};
ghost use Rattle.std.specs.Option.{option_copied};
ghost use Rattle.std.specs.Prelude.{◌≡◌, ◌↔◌, ℕ, Any, find, IsTrue, IfSome, IfNone};

use crate::rows::{FaceRow, LinkRow, Network, Protocol, SessionRow};
use arc_base::{Face, Link, ListId, Prefix};

/// What `routed_if_told` needs to know of a host network, computed once for all links.
#[derive(Clone, Copy, Debug)]
pub struct Told {
    /// Whether some interface that is up advertises the host network.
    pub host: bool,
    /// Whether the sessions are sorted by router, so that those of a router are found by binary
    /// search.
    pub by_router: bool,
}

impl FaceRow {
    /// Whether the prefix lies in the host network of this interface.
    pub fn hosts(&self, p: Prefix) -> bool
        ensures { IsTrue result ↔ LiesInHostOf p self.now }
    {
        let Some(host) = self.host else { return false };
        p.inside(&host)
    }

    /// Whether this is the host network of this interface, is advertised, and the interface is up.
    fn tells(&self, to: Prefix) -> bool
        ensures { result ≡ tells to self.now }
    {
        match self.host {
            Some(host) => host.addr == to.addr && host.len == to.len && self.told && self.up,
            None => false,
        }
    }

    /// Whether this interface is not passive, and no session of it is shut down.
    pub fn is_open(&self, session: Option<&SessionRow>) -> bool
        ensures holds { IsTrue result ↔ IsOpen (option_copied session.entry) self.now }
        ensures value { result ≡ is_open (option_copied session.entry) self.now }
    {
        if self.passive {
            return false;
        }
        match session {
            Some(session) => !session.down,
            None => true,
        }
    }
}

impl LinkRow {
    /// Where the link's arc begins: at end a where `from_a` is true, and else at end b.
    pub fn tail(&self, from_a: bool) -> Face
        ensures { result ≡ tail_end self.now from_a }
    {
        if from_a { self.a } else { self.b }
    }

    /// Where the link's arc ends: at end b where `from_a` is true, and else at end a.
    pub fn head(&self, from_a: bool) -> Face
        ensures { result ≡ head_end self.now from_a }
    {
        if from_a { self.b } else { self.a }
    }
}

impl Network {
    /// The interface whose host network holds the prefix.
    pub fn host_of(&self, p: Prefix) -> Option<Face>
        ensures found { IfSome result (λ face. IsHostOf self.now p face.0) }
        ensures none { IfNone result ((place : ℕ) → ¬ IsHostOf self.now p place) }
    {
        for (place, face) in self.faces.slice().iter().enumerate() {
            if face.hosts(p) {
                return Some(Face(place as u32));
            }
        }
        None
    }

    /// The interface in whose host network the prefix lies, where there is one.
    pub fn host_face(&self, p: Prefix) -> &FaceRow
        requires { HasHost self.now p }
        ensures { IsHostFace self.now p result.now }
    {
        match self.host_of(p) {
            Some(face) => match self.faces.get(face.0) {
                Some(row) => row,
                None => unreachable!(),
            },
            None => unreachable!(),
        }
    }

    /// The session of the interface. It looks through all sessions of the network.
    pub fn session_at(&self, face: Face) -> Option<&SessionRow>
        ensures { option_copied result ≡ session_at self.now face }
    {
        self.sessions.slice().iter().find(|s| s.face.0 == face.0)
    }

    fn some_tells(&self, to: Prefix) -> bool
        ensures { result ≡ is_told self.now to }
    {
        self.faces.slice().iter().any(|face| face.tells(to))
    }

    /// Whether the host network is advertised by an interface that is up. It looks through all
    /// interfaces of the network.
    #[tactic(auto, using(crate::proofs::Decided::told_right))]
    pub fn is_told(&self, to: Prefix) -> bool
        ensures holds { IsTrue result ↔ Any (Advertises to) self.now.faces }
        ensures value { result ≡ is_told self.now to }
    {
        self.some_tells(to)
    }

    /// Whether the session's peer is the address of this interface, and its remote AS that of the
    /// interface's router.
    fn names(&self, session: &SessionRow, far: &FaceRow) -> bool
        ensures { result ≡ names self.now session.now far.now }
    {
        let Some(addr) = far.addr else { return false };
        match self.routers.get(far.router.0) {
            Some(router) => addr == session.peer && session.remote == router.asn,
            None => false,
        }
    }

    fn takes_part(&self, session: Option<&SessionRow>, near: &FaceRow, far: &FaceRow) -> bool
        ensures { result
            ≡ takes_part self.now.protocol self.now (option_copied session.entry) near.now far.now }
    {
        match self.protocol {
            Protocol::Ospf => near.enabled,
            Protocol::Bgp => match session {
                Some(session) => self.names(session, far),
                None => false,
            },
        }
    }

    /// Whether the interface `near` makes its link able from its side, where `far` is the other
    /// end.
    #[tactic(auto, using(crate::proofs::Decided::able_right))]
    pub fn is_able_end(&self, session: Option<&SessionRow>, near: &FaceRow, far: &FaceRow) -> bool
        ensures holds { IsTrue result ↔
            IsAbleEnd self.now (option_copied session.entry) near.now far.now }
        ensures value { result
            ≡ is_able_end self.now (option_copied session.entry) near.now far.now }
    {
        near.up && near.addr.is_some() && self.takes_part(session, near, far)
    }

    fn route_list_permits(&self, filter: Option<ListId>, to: Prefix) -> bool
        ensures { IsTrue result ↔ RouteListPermits self.now filter to }
    {
        let Some(id) = filter else { return true };
        match self.route_lists.get(id.0) {
            Some(list) => list.permits(to),
            None => false,
        }
    }

    fn filter_permits(&self, session: Option<&SessionRow>, to: Prefix) -> bool
        ensures { IsTrue result ↔ FilterPermits self.now (option_copied session.entry) to }
    {
        match session {
            Some(session) => self.route_list_permits(session.filter, to),
            None => true,
        }
    }

    /// Whether the interface `head` can hand a route for the host network on to the interface
    /// `tail`.
    fn carries(
        &self,
        tail_session: Option<&SessionRow>,
        tail: &FaceRow,
        head_session: Option<&SessionRow>,
        head: &FaceRow,
        to: Prefix,
    ) -> bool
        ensures { IsTrue result ↔ Carries self.now to (option_copied tail_session.entry) tail.now
            (option_copied head_session.entry) head.now }
    {
        self.is_able_end(tail_session, tail, head)
            && self.is_able_end(head_session, head, tail)
            && tail.is_open(tail_session)
            && head.is_open(head_session)
            && self.filter_permits(tail_session, to)
    }

    /// Whether the arc of the link with this row is routed for the host network. The sessions are
    /// those of its tail and head.
    pub(crate) fn routed_over(
        &self,
        told: bool,
        row: &LinkRow,
        from_a: bool,
        tail_session: Option<&SessionRow>,
        head_session: Option<&SessionRow>,
        to: Prefix,
    ) -> bool
        requires told { IsTrue told ↔ Any (Advertises to) self.now.faces }
        requires tail { option_copied tail_session ≡ session_at self.now (tail_end row.now from_a) }
        requires head { option_copied head_session ≡ session_at self.now (head_end row.now from_a) }
        ensures { IsTrue result ↔ IsRoutedOver self.now row.now from_a to }
    {
        let tail = row.tail(from_a);
        let head = row.head(from_a);
        let Some(tail_row) = self.faces.get(tail.0) else {
            return false;
        };
        let Some(head_row) = self.faces.get(head.0) else {
            return false;
        };
        told && self.carries(tail_session, tail_row, head_session, head_row, to)
    }

    /// What `routed_if_told` needs to know of the host network. It goes over the interfaces and the
    /// sessions once each.
    pub fn told(&self, to: Prefix) -> Told
        ensures { IsToldOf self.now to result }
    {
        Told {
            host: self.is_told(to),
            by_router: self.has_sessions_by_router(),
        }
    }

    /// Whether the link's arc, from end a to end b where `from_a` is true and else from b to a, is
    /// routed for the host network.
    /// It looks through all interfaces and sessions; for many links see `routed_if_told` and
    /// `routed_links`.
    pub fn routed(&self, link: Link, from_a: bool, to: Prefix) -> bool
        ensures { IsTrue result ↔ IsRoutedLink self.now link.0 from_a to }
    {
        self.routed_if_told(self.told(to), link, from_a, to)
    }

    /// The answer of `routed`, where `told` is the result of `told`. It looks through the
    /// sessions of the two routers at the link's ends, which it finds by binary search. Only if the
    /// sessions are not sorted by router it looks through them all.
    pub fn routed_if_told(&self, told: Told, link: Link, from_a: bool, to: Prefix) -> bool
        requires { IsToldOf self.now to told }
        ensures { IsTrue result ↔ IsRoutedLink self.now link.0 from_a to }
    {
        let Some(row) = self.links.get(link.0) else {
            return false;
        };
        let tail_session = self.session_found(told.by_router, row.tail(from_a));
        let head_session = self.session_found(told.by_router, row.head(from_a));
        self.routed_over(told.host, row, from_a, tail_session, head_session, to)
    }
}
