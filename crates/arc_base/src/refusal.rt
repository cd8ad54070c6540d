//! The kinds of refusal of input.

/// Why input is refused. Each kind is printed as one word, in lower case with hyphens.
#[derive(Clone, Copy, Debug, PartialEq, Eq)]
pub enum Kind {
    /// The document is no JSON, or a member is missing, unknown or of the wrong form.
    DocumentForm,
    /// The store does not hold a file that is to be read.
    Missing,
    /// A file has more bytes than its limit, or the router files up to this one have more than
    /// theirs.
    TooLong,
    /// An indented line belongs to no block.
    OrphanLine,
    /// No line form matches.
    UnknownLine,
    /// A word of a line is out of its form or range, missing, or one too many; or a banner is not
    /// closed.
    BadWord,
    /// A mask or wildcard is an address, but its ones are not contiguous.
    WildcardNotPrefix,
    /// An interface, process or list block occurs twice, or a list occurs both as lines and as a
    /// block.
    DuplicateBlock,
    /// The numbers of a list's entries do not rise, or only some entries have one.
    SequenceNotRising,
    /// A router has no name, or the name of an earlier one.
    Hostname,
    /// A router has no routing process, two, or one of another protocol than the first router's.
    Protocol,
    /// An OSPF area differs from the first one of the network.
    TwoAreas,
    /// A router has the autonomous system of an earlier one.
    SameAs,
    /// A neighbour is not the far end of a listed link, or has no autonomous system.
    NeighborUnknown,
    /// A BGP network statement names no connected subnet of its router.
    NetworkNotConnected,
    /// Two subnets overlap and are not those of the two ends of one link.
    Overlap,
    /// A link names an interface that is unknown, a loopback or in use, or one router twice.
    LinkFace,
    /// The ends of a link have addresses in different subnets, or the same address.
    LinkSubnets,
    /// An inbound packet list denies the routing protocol's own packets on a link.
    ListStopsSession,
    /// The OSPF network types at a link's ends differ, or a router id occurs twice.
    AdjacencyForm,
    /// A prefix lies in no host network, or source and destination lie in the same one.
    Endpoint,
    /// A count passes its limit: which, and how many there are.
    Limit(LimitKind, u64),
    /// The name of an output is that of an input or of another output.
    OutputName,
    /// A line of an edit file names no edit, or one that was named before.
    EditLine,
    /// A router that is named on the command line is none of the network's.
    UnknownRouter,
}

/// What is counted against a limit.
#[derive(Clone, Copy, Debug, PartialEq, Eq)]
pub enum LimitKind {
    /// The routers of a document: at most `ROUTER_LIMIT`.
    Routers,
    /// The interfaces of a router: at most `INTERFACE_LIMIT`.
    Interfaces,
    /// The links of a document: at most `LINK_LIMIT`.
    Links,
    /// The policies of a document: at most `POLICY_LIMIT`.
    Policies,
    /// The failures that a reach policy allows: at most `FAILURE_LIMIT`.
    Failures,
    /// The entries of a list: at most `ENTRY_LIMIT`, or `EDITED_ENTRY_LIMIT` where files are to be
    /// changed.
    Entries,
    /// The traffic classes of a document: at most `CLASS_LIMIT`.
    Classes,
    /// The modelled edits of a network: at most `EDIT_LIMIT`.
    Edits,
    /// The literals of a formula: at most `LITERAL_LIMIT`.
    Literals,
    /// The variables of a formula: at most `VARIABLE_LIMIT`.
    Variables,
}
