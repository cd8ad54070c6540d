//! The full names of interfaces, in indexes that hold them by reference.
ghost use Rattle.arc_base.specs.Lists.{AreDistinct};
ghost use Rattle.net_rules.specs.Names.{names_at, file_names};
ghost use Rattle.net_rules.specs.Sites.{full_names, host_name};
ghost use Rattle.std.specs.Prelude.{◌≡◌, ◌<◌, [], ◌∷◌, ◌++◌, Contains, IfOk, MatchBool};
ghost use Rattle.std.specs.Prelude.{MatchOption, Some, slice_get, OnOk, IsTrue, ◌↔◌};

use arc_base::{List, Memory};
use indexmap::IndexSet;
use ios_config::Config;
use std::alloc::Global;

/// The name of a router and that of one of its interfaces.
pub type FullName<'a> = (&'a [u8], &'a [u8]);

/// The name that the file gives its router.
pub fn host_name(config: &Config) -> &[u8]
    ensures { result.now ≡ host_name config.now }
{
    match &config.hostname {
        Some(given) => given.name.bytes(),
        None => &[],
    }
}

/// Adds a name at the end, and says whether it is new.
pub fn add_name<'a>(
    names: &mut IndexSet<FullName<'a>>,
    router: &'a [u8],
    face: &'a [u8],
) -> Result<bool, Memory>
    ensures { IfOk result (λ new. MatchBool new
        ((¬ Contains (names_at names.old.keys) (router.now, face.now))
        × (names_at names.new.keys ≡ names_at names.old.keys ++ (router.now, face.now) ∷ []))
        (Contains (names_at names.old.keys) (router.now, face.now))) }
{
    let (_place, new) = names.insert_full((router, face))?;
    Ok(new)
}

/// Adds the names of a file's interfaces, which are new.
fn add_file<'a>(names: &mut IndexSet<FullName<'a>>, config: &'a Config) -> Result<(), Memory>
    requires { AreDistinct (names_at names.old.keys ++ file_names config.now) }
    ensures { OnOk result
        (names_at names.new.keys ≡ names_at names.old.keys ++ file_names config.now) }
{
    let router = host_name(config);
    for face in config.faces.slice() {
        add_name(names, router, face.name.bytes())?;
    }
    Ok(())
}

/// The full names of all interfaces, each at its place.
pub fn index_names<'a>(
    alloc: Global,
    configs: &'a List<Config>,
) -> Result<IndexSet<FullName<'a>>, Memory>
    requires { AreDistinct (full_names configs.now) }
    ensures { IfOk result (λ names. names_at names.keys ≡ full_names configs.now) }
{
    let mut names = IndexSet::new(alloc);
    for config in configs.slice() {
        add_file(&mut names, config)?;
    }
    Ok(names)
}

/// The place of the interface with this name.
pub fn place_of(names: &IndexSet<FullName<'_>>, router: &[u8], face: &[u8]) -> Option<usize>
    ensures { MatchOption result
        (¬ Contains (names_at names.now.keys) (router.now, face.now))
        (λ place. slice_get (names_at names.now.keys) place ≡ Some (router.now, face.now)) }
{
    let place = names.get_index_of(&(router, face))?;
    Some(place)
}

/// Whether this name is there.
pub fn contains_name(names: &IndexSet<FullName<'_>>, router: &[u8], face: &[u8]) -> bool
    ensures { IsTrue result ↔ Contains (names_at names.now.keys) (router.now, face.now) }
{
    names.contains(&(router, face))
}
