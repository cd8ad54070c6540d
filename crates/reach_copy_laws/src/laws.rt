//! Laws of copies: each is the contract of a function that does nothing.
ghost use Rattle.reach_copy_laws.specs.Laws.{FewerKeepsPast, FewerKeepsPastReally};
ghost use Rattle.reach_copy_laws.specs.Laws.{FewerKeepsPreferred, FewerKeepsPreferredReally};

/// Over a copy that permits fewer packets a yes of `nodes`, and one of `prefers`, is true of the
/// network, also where it looks at more of a packet than the model does.
pub fn fewer_packets_pass()
    ensures past { FewerKeepsPast }
    ensures past_really { FewerKeepsPastReally }
    ensures preferred { FewerKeepsPreferred }
    ensures preferred_really { FewerKeepsPreferredReally }
{}
