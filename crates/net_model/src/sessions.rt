//! The session of an interface, found among those of its router.
ghost use Rattle.net_model.specs.Routing.{session_at};
ghost use Rattle.net_model.specs.Tables.{router_at, StandByRouter};
ghost use Rattle.std.specs.List.Sorted.{IsPartitionPoint};
ghost use Rattle.std.specs.Option.{option_copied};
ghost use Rattle.std.specs.Prelude.{◌≡◌, ◌↔◌, ◌≤◌, ◌<◌, ◌==◌, IsTrue, find, length};

use crate::rows::{Network, SessionRow};
use arc_base::Face;

/// The first of these sessions at the interface.
fn first_at(sessions: &[SessionRow], face: Face) -> Option<&SessionRow>
    ensures { option_copied result ≡ find (λ s. s.face.0 == face.0) sessions.now }
{
    sessions.iter().find(|s| s.face.0 == face.0)
}

impl Network {
    /// The router of the interface, and 0 where there is no such interface.
    fn router_at(&self, face: Face) -> u32
        ensures { result ≡ router_at self.now face }
    {
        match self.faces.get(face.0) {
            Some(row) => row.router.0,
            None => 0,
        }
    }

    /// Whether the sessions are sorted by router. A router's sessions are then together, and are
    /// found by binary search.
    pub fn has_sessions_by_router(&self) -> bool
        ensures { IsTrue result ↔ StandByRouter self.now }
    {
        let sessions = self.sessions.slice();
        for place in 1..sessions.len() {
            if self.router_at(sessions[place].face) < self.router_at(sessions[place - 1].face) {
                return false;
            }
        }
        true
    }

    /// The number of sessions of the routers before this one, found by halves.
    fn sessions_before(&self, router: u64) -> usize
        requires { StandByRouter self.now }
        ensures within { result ≤ length self.now.sessions }
        ensures point { IsPartitionPoint (λ s. router_at self.now s.face < router)
            (λ s. router ≤ router_at self.now s.face) self.now.sessions result }
    {
        self.sessions
            .slice()
            .partition_point(|s| u64::from(self.router_at(s.face)) < router)
    }

    /// The session of the interface. It looks through the sessions of the interface's router.
    pub fn session_of_router(&self, face: Face) -> Option<&SessionRow>
        requires { StandByRouter self.now }
        ensures { option_copied result ≡ session_at self.now face }
    {
        let router = u64::from(self.router_at(face));
        let start = self.sessions_before(router);
        let end = self.sessions_before(router + 1);
        first_at(&self.sessions.slice()[start..end], face)
    }

    /// The session of the interface, where `by_router` says whether the sessions are sorted by
    /// router.
    pub(crate) fn session_found(&self, by_router: bool, face: Face) -> Option<&SessionRow>
        requires { IsTrue by_router → StandByRouter self.now }
        ensures { option_copied result ≡ session_at self.now face }
    {
        if by_router {
            self.session_of_router(face)
        } else {
            self.session_at(face)
        }
    }
}
