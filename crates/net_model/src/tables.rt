//! Which arcs of all links are routed for one host network, found in one go.
ghost use Rattle.net_model.specs.Routing.{session_at, Advertises};
ghost use Rattle.net_model.specs.Tables.{IsSessionIndex, TellsRouted, AreRoutedLinks};
ghost use Rattle.std.specs.Option.{option_copied, option_or};
ghost use Rattle.std.specs.Prelude.{◌≡◌, ◌↔◌, ◌<◌, ◌==◌, ℕ, length, slice_index_or, if◌then◌else◌};
ghost use Rattle.std.specs.Prelude.{None, Some, Any, IsTrue, IfOk};

use crate::rows::{Network, SessionRow};
use arc_base::{Face, Link, List, Memory, Prefix};
use std::alloc::Global;

/// For a link and a host network, whether the link's two arcs are routed.
#[derive(Clone, Copy, Debug, PartialEq, Eq)]
pub struct RoutedLink {
    /// The arc from end a to end b.
    pub from_a: bool,
    /// The arc from end b to end a.
    pub from_b: bool,
}

impl Network {
    /// For each link whether its arcs are routed for the host network. It goes over the interfaces,
    /// the sessions and the links once each.
    pub fn routed_links(&self, alloc: Global, to: Prefix) -> Result<List<RoutedLink>, Memory>
        ensures { IfOk result (AreRoutedLinks self.now to) }
    {
        let told = self.is_told(to);
        let places = self.session_places(alloc)?;
        let mut table = List::make(alloc);
        for place in 0..self.links.len() {
            table.push(self.routed_both_ways(told, &places, Link(place), to))?;
        }
        Ok(table)
    }

    fn routed_both_ways(
        &self,
        told: bool,
        places: &[Option<u32>],
        link: Link,
        to: Prefix,
    ) -> RoutedLink
        requires told { IsTrue told ↔ Any (Advertises to) self.now.faces }
        requires places { IsSessionIndex self.now places.now }
        ensures { TellsRouted self.now link.0 to result }
    {
        let Some(row) = self.links.get(link.0) else {
            return RoutedLink {
                from_a: false,
                from_b: false,
            };
        };
        let a = self.session_in(places, row.a);
        let b = self.session_in(places, row.b);
        let from_a = self.routed_over(told, row, true, a, b, to);
        let from_b = self.routed_over(told, row, false, b, a, to);
        RoutedLink { from_a, from_b }
    }

    /// The session of the interface, where `places` has those of all interfaces.
    fn session_in(&self, places: &[Option<u32>], face: Face) -> Option<&SessionRow>
        requires { IsSessionIndex self.now places.now }
        ensures { option_copied result ≡ session_at self.now face }
    {
        match places.get(face.0 as usize) {
            Some(Some(place)) => self.sessions.get(*place),
            Some(None) => None,
            None => self.session_at(face),
        }
    }

    /// The place of each interface's session.
    fn session_places(&self, alloc: Global) -> Result<Vec<Option<u32>>, Memory>
        ensures { IfOk result (λ places. IsSessionIndex self.now places.items) }
    {
        let mut places = Vec::from_elem(alloc, None, self.faces.len() as usize)?;
        for (place, session) in self.sessions.slice().iter().enumerate() {
            keep_first(&mut places, session.face.0 as usize, place as u32);
        }
        Ok(places)
    }
}

/// Sets the place where none is set yet.
fn keep_first(places: &mut [Option<u32>], at: usize, place: u32)
    ensures len { length places.new ≡ length places.old }
    ensures each { (k : ℕ) → k < length places.old →
        slice_index_or places.new k None
        ≡ (if at == k then option_or (slice_index_or places.old k None) (Some place)
        else slice_index_or places.old k None) }
{
    if at < places.len() && places[at].is_none() {
        places[at] = Some(place);
    }
}
