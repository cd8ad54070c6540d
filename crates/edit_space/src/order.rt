//! The order of lists: by router, and then in byte order of names.
ghost use Rattle.edit_list.specs.Ordered.{IsKeyBefore};
ghost use Rattle.edit_space.specs.Working.{key_of, compare_keys, IsWithin, ArePlaces, AreInPlace};
ghost use Rattle.std.specs.Prelude.{◌≡◌, ◌≢◌, ◌↔◌, ◌<◌, ◌^◌, length, slice_set, Contains, All};
ghost use Rattle.std.specs.Prelude.{AllPairs, IfOk};

use arc_base::{List, Memory, Name};
use edit_list::Site;
use std::alloc::Global;
use std::cmp::Ordering;

/// A list and its key in the order: the place of its router, and its name.
#[derive(Debug, Drop)]
pub struct Keyed {
    pub router: u32,
    pub name: Name,
    /// The list that there was, or the interface of the new list.
    pub site: Site,
}

fn compare(a: &Keyed, b: &Keyed) -> Ordering
    ensures { result ≡ compare_keys (key_of a.now) (key_of b.now) }
{
    a.router
        .cmp(&b.router)
        .then(a.name.bytes().cmp(b.name.bytes()))
}

/// The lists in their order.
fn in_order(lists: Vec<Keyed>) -> Result<List<Keyed>, Memory>
    requires { AllPairs (λ x y. key_of x ≢ key_of y) lists.items }
    ensures order { IfOk result (AllPairs (λ x y. IsKeyBefore (key_of x) (key_of y))) }
    ensures same { IfOk result (λ sorted. (x : Keyed) →
        Contains sorted x ↔ Contains lists.items x) }
{
    let mut sorted = lists;
    sorted.sort_by(|a, b| compare(a, b))?;
    List::of(sorted)
}

/// Where lists are in their order.
#[derive(Debug, Drop)]
pub struct Places {
    /// For each list that there was.
    pub bound: Vec<u32>,
    /// The place of the new list, by interface; any number where there is none.
    pub new: Vec<u32>,
}

/// Where these lists are: a table by old list, and one by interface.
fn find_places(alloc: Global, bound: u32, faces: u32, lists: &[Keyed]) -> Result<Places, Memory>
    requires within { All (λ list. IsWithin bound faces list.site) lists.now }
    requires apart { AllPairs (λ x y. x.site ≢ y.site) lists.now }
    requires few { length lists.now < 2 ^ 32 }
    ensures { IfOk result (ArePlaces lists.now) }
{
    let mut places = Places {
        bound: Vec::from_elem(alloc, 0, bound as usize)?,
        new: Vec::from_elem(alloc, 0, faces as usize)?,
    };
    for (place, list) in lists.iter().enumerate() {
        match list.site {
            Site::Bound(id) => put(&mut places.bound, id.0, place as u32),
            Site::New(face) => put(&mut places.new, face.0, place as u32),
        }
    }
    Ok(places)
}

/// Notes the place of the list with this number.
fn put(places: &mut Vec<u32>, at: u32, place: u32)
    requires { at < length places.old.items }
    ensures { places.new.items ≡ slice_set places.old.items at place }
{
    places[at as usize] = place;
}

/// The lists in their order, and where they are: a table by old list, and one by interface.
pub fn placed_lists(
    alloc: Global,
    bound: u32,
    faces: u32,
    lists: Vec<Keyed>,
) -> Result<(List<Keyed>, Places), Memory>
    requires keys { AllPairs (λ x y. key_of x ≢ key_of y) lists.items }
    requires within { All (λ list. IsWithin bound faces list.site) lists.items }
    requires sites { AllPairs (λ x y. x.site ≢ y.site) lists.items }
    ensures { IfOk result (λ placed. AreInPlace lists.items placed.0 placed.1) }
{
    let sorted = in_order(lists)?;
    let places = find_places(alloc, bound, faces, sorted.slice())?;
    Ok((sorted, places))
}
