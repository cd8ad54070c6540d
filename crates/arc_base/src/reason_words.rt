//! The words for why input is refused, and for why a certificate or a proof is rejected.
ghost use Rattle.arc_base.specs.ReasonWords.{certificate_word, count_word, kind_words};
ghost use Rattle.std.specs.Prelude.{◌≡◌, IfOk};

use crate::certificate::CertKind;
use crate::refusal::{Kind, LimitKind};
use std::alloc::{AllocError, Global};

impl LimitKind {
    /// The word for what is counted.
    pub fn word(self) -> &'static [u8]
        ensures { result.now ≡ count_word self }
    {
        match self {
            LimitKind::Routers => b"routers",
            LimitKind::Interfaces => b"interfaces",
            LimitKind::Links => b"links",
            LimitKind::Policies => b"policies",
            LimitKind::Failures => b"failures",
            LimitKind::Entries => b"entries",
            LimitKind::Classes => b"classes",
            LimitKind::Edits => b"edits",
            LimitKind::Literals => b"literals",
            LimitKind::Variables => b"variables",
        }
    }
}

/// The words for a count that passes its limit.
fn limit_words(alloc: Global, what: LimitKind, count: u64) -> Result<Vec<u8>, AllocError>
    ensures { IfOk result (λ text. text.items ≡ kind_words (Kind.Limit what count)) }
{
    let mut text = Vec::from_slice(alloc, b"limit ")?;
    text.extend_from_slice(what.word())?;
    text.extend_from_slice(b" ")?;
    let count = count.to_string(alloc)?;
    text.extend_from_slice(count.as_bytes())?;
    Ok(text)
}

impl Kind {
    /// The words for the kind: one in lower case with hyphens, or `limit`, what is counted and how
    /// many there are.
    pub fn words(self, alloc: Global) -> Result<Vec<u8>, AllocError>
        ensures { IfOk result (λ text. text.items ≡ kind_words self) }
    {
        let word: &'static [u8] = match self {
            Kind::Limit(what, count) => return limit_words(alloc, what, count),
            Kind::DocumentForm => b"document-form",
            Kind::Missing => b"missing",
            Kind::TooLong => b"too-long",
            Kind::OrphanLine => b"orphan-line",
            Kind::UnknownLine => b"unknown-line",
            Kind::BadWord => b"bad-word",
            Kind::WildcardNotPrefix => b"wildcard-not-prefix",
            Kind::DuplicateBlock => b"duplicate-block",
            Kind::SequenceNotRising => b"sequence-not-rising",
            Kind::Hostname => b"hostname",
            Kind::Protocol => b"protocol",
            Kind::TwoAreas => b"two-areas",
            Kind::SameAs => b"same-as",
            Kind::NeighborUnknown => b"neighbor-unknown",
            Kind::NetworkNotConnected => b"network-not-connected",
            Kind::Overlap => b"overlap",
            Kind::LinkFace => b"link-face",
            Kind::LinkSubnets => b"link-subnets",
            Kind::ListStopsSession => b"list-stops-session",
            Kind::AdjacencyForm => b"adjacency-form",
            Kind::Endpoint => b"endpoint",
            Kind::OutputName => b"output-name",
            Kind::EditLine => b"edit-line",
            Kind::UnknownRouter => b"unknown-router",
        };
        Vec::from_slice(alloc, word)
    }
}

impl CertKind {
    /// The word for the kind, in lower case with hyphens.
    pub fn word(self) -> &'static [u8]
        ensures { result.now ≡ certificate_word self }
    {
        match self {
            CertKind::Form => b"form",
            CertKind::NoEnd => b"no-end",
            CertKind::NoClaim => b"no-claim",
            CertKind::Edit => b"edit",
            CertKind::Price => b"price",
            CertKind::Policy => b"policy",
            CertKind::Witness => b"witness",
            CertKind::NotYes => b"not-yes",
            CertKind::IdNotRising => b"id-not-rising",
            CertKind::NegativeHint => b"negative-hint",
            CertKind::UnknownId => b"unknown-id",
            CertKind::HintNotUnit => b"hint-not-unit",
            CertKind::NoConflict => b"no-conflict",
            CertKind::BoundTooLow => b"bound-too-low",
            CertKind::BoundTooHigh => b"bound-too-high",
            CertKind::NotRefuted => b"not-refuted",
            CertKind::Memory => b"memory",
        }
    }
}
