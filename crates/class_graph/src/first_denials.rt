//! The first denial of a list of classes.
ghost use Rattle.class_graph.specs.Classes.{AreAllUniform};
ghost use Rattle.class_graph.specs.FirstDenials.{IsFirstDenial, lower_of};
ghost use Rattle.class_graph.specs.Hosts.{HasHostPair};
ghost use Rattle.class_graph.specs.Listed.{AreListed};
ghost use Rattle.std.specs.Prelude.{◌≡◌, length, IfOk};

use crate::denials::denied_link;
use crate::hosts::HostPair;
use arc_base::{Link, List, Memory};
use net_model::{Class, Network};
use std::alloc::Global;

/// A link with a class that it denies.
#[derive(Clone, Copy, Debug)]
pub struct Denial {
    pub link: Link,
    pub class: Class,
}

/// The first link that denies some of the classes, with the first of these. It looks at each link
/// once for each class.
pub(crate) fn first_denial(
    alloc: Global,
    net: &Network,
    pair: &HostPair,
    classes: &List<Class>,
    listed: &List<bool>,
) -> Result<Option<Denial>, Memory>
    requires pair { HasHostPair net.now pair.now }
    requires uniform { AreAllUniform net.now classes.now }
    requires listed { AreListed net.now listed.now }
    ensures { IfOk result (IsFirstDenial net.now pair.now.to classes.now (length classes.now)) }
{
    let mut best = None;
    for class in classes.slice() {
        let found = denied_link(alloc, net, pair, *class, listed)?;
        best = lower(best, found, *class);
    }
    Ok(best)
}

/// The denial at the lower link, and at one link the earlier denial.
fn lower(best: Option<Denial>, found: Option<Link>, class: Class) -> Option<Denial>
    ensures { result ≡ lower_of best found class }
{
    let Some(link) = found else { return best };
    match best {
        Some(denial) if denial.link.0 <= link.0 => Some(denial),
        _ => Some(Denial { link, class }),
    }
}
