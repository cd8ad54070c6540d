//! A network from a number.
ghost use Rattle.net_gen.specs.Generated.{router_texts, IsGenerated};
ghost use Rattle.net_gen.specs.Plans.{link_count};
ghost use Rattle.std.specs.Prelude.{◌≡◌, ◌+◌, ◌^◌, ◌<◌, ◌≤◌, length, All, IfOk};

use crate::documents::document;
use crate::router_files::router_text;
use arc_base::limits::{FEWEST_GENERATED, MOST_GENERATED};
use arc_base::{List, Memory, Name};
use net_model::Document;
use std::alloc::Global;

/// A document, and the texts of the router files that it names, in their order.
#[derive(Debug, Drop)]
pub struct Generated {
    pub doc: Document,
    pub files: List<Name>,
}

fn router_texts(alloc: Global, routers: u32) -> Result<List<Name>, Memory>
    requires some { 1 ≤ routers }
    requires few { routers ≤ MOST_GENERATED }
    ensures { IfOk result (λ texts. texts ≡ router_texts routers) }
{
    let mut texts = List::make(alloc);
    for place in 0..routers {
        texts.push(router_text(alloc, routers, place + 1)?)?;
    }
    Ok(texts)
}

/// The network of `number` routers. Its cost is that of its text.
pub fn generate(alloc: Global, number: u32) -> Result<Generated, Memory>
    requires some { FEWEST_GENERATED ≤ number }
    requires few { number ≤ MOST_GENERATED }
    ensures generated { IfOk result (IsGenerated number) }
    ensures files { IfOk result (λ made. length made.files ≡ length made.doc.routers) }
    ensures bytes { IfOk result (λ made. All (λ text. length text < 2 ^ 32) made.files) }
    ensures short { IfOk result (λ made. All (λ text. length text ≤ 8192) made.files) }
    ensures routers { IfOk result (λ made. length made.doc.routers ≡ number) }
    ensures links { IfOk result (λ made. length made.doc.links ≡ link_count number) }
    ensures policies { IfOk result (λ made. length made.doc.policies ≡ number + 1) }
{
    let doc = document(alloc, number)?;
    let files = router_texts(alloc, number)?;
    Ok(Generated { doc, files })
}
