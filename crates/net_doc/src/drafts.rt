//! A document as it is written: a policy may allow more failures than the limit, and then the
//! refusal says how many.
use arc_base::{List, Name, Prefix};
use net_model::{LinkText, Service, Weights};

/// What a policy asks, with as many failures as are written.
#[derive(Clone, Copy, Debug)]
pub(crate) enum KindText {
    Blocked,
    Through,
    Reach(u64),
}

/// A policy as it is written.
#[derive(Clone, Copy, Debug)]
pub(crate) struct PolicyText {
    pub(crate) kind: KindText,
    pub(crate) from: Prefix,
    pub(crate) to: Prefix,
    pub(crate) service: Service,
}

/// A document as it is written.
#[derive(Debug, Drop)]
pub(crate) struct Draft {
    pub(crate) routers: List<Name>,
    pub(crate) links: List<LinkText>,
    pub(crate) policies: Vec<PolicyText>,
    pub(crate) weights: Weights,
}
