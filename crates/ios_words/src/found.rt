//! What the words of a line gave so far.
ghost use Rattle.ios_words.specs.Values.{tested};
ghost use Rattle.std.specs.Prelude.{◌≡◌, option_map};

use crate::kinds::Flaw;
use crate::kinds::Flaw::Amiss;
use crate::names::is_face_name;
use crate::numbers::{area_of, is_from, list_kind, mask_length, number_in, wildcard_length};
use crate::prefixes::{class_prefix, holding, route_of};
use crate::protocols::{port_of, services_of};
use crate::rows::Form;
use crate::services::Services;
use arc_base::{Prefix, is_name, read_address};

/// What the words of a line gave so far.
#[derive(Clone, Copy, Debug)]
pub(crate) struct Found<'a> {
    /// A name or number as it is written.
    pub(crate) text: &'a [u8],
    pub(crate) number: u32,
    pub(crate) address: u32,
    /// The length of a mask or wildcard.
    pub(crate) length: u8,
    pub(crate) area: u32,
    /// The number of an entry.
    pub(crate) order: Option<u32>,
    pub(crate) permit: bool,
    /// Whether the list of an entry is extended.
    pub(crate) extended: bool,
    /// Where packets come from.
    pub(crate) from: Prefix,
    /// Where packets go to, or another prefix.
    pub(crate) to: Prefix,
    /// The lengths of a route.
    pub(crate) low: u8,
    pub(crate) high: u8,
    /// The services of packets.
    pub(crate) services: Services,
}

impl<'a> Found<'a> {
    ghost use Rattle.ios_words.specs.FoundValues.{values_of, word_values};
    ghost use Rattle.ios_words.specs.Values.{values_with, with_ports, no_values};
    ghost use Rattle.std.specs.Prelude.{◌≡◌, ◌≤◌};

    /// What is known before the first word: whether the line is in the block of an extended list.
    pub(crate) fn nothing(extended: bool) -> Found<'a>
        ensures { values_of result ≡ no_values extended }
    {
        let whole = holding(0, 0);
        Found {
            text: &[],
            number: 0,
            address: 0,
            length: 0,
            area: 0,
            order: None,
            permit: false,
            extended,
            from: whole,
            to: whole,
            low: 0,
            high: 0,
            services: Services::whole(),
        }
    }

    /// What is known after a word of this form, or what is wrong with it.
    pub(crate) fn with(self, form: Form, word: &'a [u8]) -> Result<Found<'a>, Flaw>
        ensures { word_values result ≡ values_with form (values_of self.entry) word.now }
    {
        let mut found = self;
        match form {
            Form::Name => found.text = tested(is_name(word), word).ok_or(Amiss)?,
            Form::FaceName => found.text = tested(is_face_name(word), word).ok_or(Amiss)?,
            Form::Number(low, high) => found.number = number_in(word, low, high).ok_or(Amiss)?,
            Form::Address => found.address = read_address(word).ok_or(Amiss)?,
            Form::Host => {
                found.address = read_address(word).ok_or(Amiss)?;
                found.to = holding(found.address, 32);
            }
            Form::Network => found.to = class_prefix(read_address(word)).ok_or(Amiss)?,
            Form::Mask(least) => {
                found.length = mask_length(word, least)?;
                found.to = holding(self.address, found.length);
            }
            Form::Wildcard => {
                found.length = wildcard_length(word)?;
                found.to = holding(self.address, found.length);
            }
            Form::Area => found.area = area_of(word).ok_or(Amiss)?,
            Form::ListNumber => {
                found.extended = list_kind(word).ok_or(Amiss)?;
                found.text = word;
            }
            Form::Order(high) => found.order = Some(number_in(word, 1, high).ok_or(Amiss)?),
            Form::Route => {
                let (address, len) = route_of(word).ok_or(Amiss)?;
                found.to = holding(address, len);
                found.low = len;
                found.high = len;
            }
            Form::AtLeast => {
                found.low = number_in(word, u32::from(self.to.len), 32).ok_or(Amiss)? as u8;
                found.high = 32;
            }
            Form::AtMost => {
                found.high = number_in(word, u32::from(self.low), 32).ok_or(Amiss)? as u8;
            }
            Form::Protocol => found.services = services_of(word).ok_or(Amiss)?,
            Form::Port => found = self.with_port(word)?,
            Form::FirstPort => found = self.with_first_port(word)?,
            Form::LastPort => found = self.with_last_port(word)?,
        }
        Ok(found)
    }

    fn with_port(self, word: &[u8]) -> Result<Found<'a>, Flaw>
        ensures { word_values result ≡ values_with Form.Port (values_of self.entry) word.now }
    {
        match port_of(self.services.protocol(), word) {
            Some(port) => Ok(self.with_ports(port, port)),
            None => Err(Flaw::Amiss),
        }
    }

    fn with_first_port(self, word: &[u8]) -> Result<Found<'a>, Flaw>
        ensures { word_values result ≡ values_with Form.FirstPort (values_of self.entry) word.now }
    {
        match port_of(self.services.protocol(), word) {
            Some(first) => Ok(self.with_ports(first, 65535)),
            None => Err(Flaw::Amiss),
        }
    }

    fn with_last_port(self, word: &[u8]) -> Result<Found<'a>, Flaw>
        ensures { word_values result ≡ values_with Form.LastPort (values_of self.entry) word.now }
    {
        let first = self.services.first_port();
        match port_of(self.services.protocol(), word) {
            Some(last) => {
                if is_from(u64::from(first), 65535, u64::from(last)) {
                    Ok(self.with_ports(first, last))
                } else {
                    Err(Flaw::Amiss)
                }
            }
            None => Err(Flaw::Amiss),
        }
    }

    /// With the ports from one to another of the protocol before them.
    fn with_ports(self, first: u32, last: u32) -> Found<'a>
        requires ordered { first ≤ last }
        requires few { last ≤ 65535 }
        ensures { values_of result ≡ with_ports (values_of self.entry) first last }
    {
        Found {
            services: Services::of_ports(self.services.protocol(), first, last),
            ..self
        }
    }
}

/// The word itself, where the test comes out true.
fn tested(holds: bool, word: &[u8]) -> Option<&[u8]>
    ensures { option_map (λ word. word.now) result ≡ tested holds word.now }
{
    if holds { Some(word) } else { None }
}
