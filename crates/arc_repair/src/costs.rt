//! The prices of edits, as the descent asks for them.

use arc_base::List;
use edit_list::{Edit, price};
use net_model::Document;
use price_descent::Prices;

/// The prices of edits by the weights of a document.
#[derive(Clone, Copy)]
pub(crate) struct Costs<'a> {
    pub(crate) doc: &'a Document,
    pub(crate) edits: &'a List<Edit>,
}

impl Prices for Costs<'_> {
    ghost use Rattle.arc_repair.specs.Search.{flagged_cost};

    ghost price_of = { λ costs flags. flagged_cost costs.doc.now costs.edits.now flags };

    fn price(&self, values: &[bool]) -> u64 {
        if values.len() == self.edits.len() as usize {
            price(self.doc, self.edits, values)
        } else {
            0
        }
    }
}
