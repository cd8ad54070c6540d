//! Which of the routed arcs a graph takes.
ghost use Rattle.class_graph.specs.Graphs.{MayUse};
ghost use Rattle.std.specs.Prelude.{◌↔◌, IsTrue};

/// Which of the routed arcs a graph has.
#[derive(Clone, Copy, Debug, PartialEq, Eq)]
pub enum Mode {
    /// All of them.
    Routed,
    /// Those that permit the packets of the class.
    Permitted,
    /// Of these, those over links that are no waypoints.
    PermittedOffWaypoint,
}

impl Mode {
    /// Whether an arc that permits the packets or not, over a link that is a waypoint or not, is of
    /// this mode.
    pub(crate) fn takes(self, permits: bool, waypoint: bool) -> bool
        ensures { IsTrue result ↔ MayUse self (IsTrue permits) waypoint }
    {
        match self {
            Mode::Routed => true,
            Mode::Permitted => permits,
            Mode::PermittedOffWaypoint => permits && !waypoint,
        }
    }
}
