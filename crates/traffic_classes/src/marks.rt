//! The marks of a network with its policies.
ghost use Rattle.traffic_classes.specs.SortedMarks.{AreSorted};

use arc_base::Prefix;
use net_model::Service;

/// The prefixes and services that traffic is told apart by: those of the entries of bound packet
/// lists, those of policies, and the whole range of each protocol of which one of these services
/// has a part but not all.
#[derive(Debug, Drop)]
pub struct Marks {
    pub sources: Vec<Prefix>,
    pub destinations: Vec<Prefix>,
    pub services: Vec<Service>,
    /// The sources by their first addresses.
    pub by_source: Vec<Prefix>,
    /// The destinations by their first addresses.
    pub by_destination: Vec<Prefix>,
    pub ghost sorted_sources: { AreSorted sources.items by_source.items },
    pub ghost sorted_destinations: { AreSorted destinations.items by_destination.items },
}
