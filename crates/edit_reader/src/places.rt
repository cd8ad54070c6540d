//! The places of edits, looked up by their texts in a hash map; each text is made once.
ghost use Rattle.edit_reader.specs.Places.{place_of, FindsEdits};
ghost use Rattle.policy_report.specs.Edits.{edit_text};
ghost use Rattle.std.specs.Option.{option_or};
ghost use Rattle.std.specs.Prelude.{◌≡◌, ◌<◌, ◌^◌, ℕ, List as Items, Some, None, length, map, IfOk};
ghost use Rattle.std.specs.Prelude.{bytes_eq, if◌then◌else◌};

use arc_base::{List, Memory, Name};
use edit_list::Edit;
use indexmap::IndexMap;
use net_model::Network;
use policy_report::edit_text;
use std::alloc::Global;

/// The texts of the edits, in the order of the edits.
pub(crate) fn edit_texts(
    alloc: Global,
    net: &Network,
    edits: &List<Edit>,
) -> Result<List<Name>, Memory>
    ensures { IfOk result (λ texts. texts ≡ map (edit_text net.now) edits.now) }
{
    let mut texts = List::make(alloc);
    for at in 0..edits.len() {
        texts.push(Name::of(edit_text(alloc, net, edits, at)?))?;
    }
    Ok(texts)
}

/// The places of texts in their list, each the first at which the text occurs.
#[derive(Drop)]
pub(crate) struct TextPlaces<'a> {
    pub(crate) places: IndexMap<&'a [u8], u32>,
}

impl<'a> TextPlaces<'a> {
    /// Notes the place of a text, unless it has one.
    fn note(&mut self, text: &'a [u8], place: u32) -> Result<(), Memory>
        ensures { IfOk result (λ done. (other : Items ℕ) → place_of self.new other
            ≡ option_or (place_of self.old other)
            (if bytes_eq text.now other then Some place else None)) }
    {
        if self.places.contains_key(&text) {
            return Ok(());
        }
        self.places.insert(text, place)?;
        Ok(())
    }

    /// The places of the texts of edits.
    pub(crate) fn of(alloc: Global, texts: &'a [Name]) -> Result<TextPlaces<'a>, Memory>
        requires { length texts.now < 2 ^ 32 }
        ensures { IfOk result (λ found. (net : Network) (edits : Items Edit) →
            texts.now ≡ map (edit_text net) edits → FindsEdits net edits found) }
    {
        let mut found = TextPlaces {
            places: IndexMap::new(alloc),
        };
        for (place, text) in texts.iter().enumerate() {
            found.note(text.bytes(), place as u32)?;
        }
        Ok(found)
    }

    /// The place of the text, if it has one.
    pub(crate) fn get(&self, text: &[u8]) -> Option<u32>
        ensures { result ≡ place_of self.now text.now }
    {
        self.places.get(&text).copied()
    }
}
