//! Which interface of a link its router lacks.
ghost use Rattle.std.specs.Prelude.{◌<◌, ◌^◌, length};

use crate::overlaps::config_of;
use crate::showing::Shown;
use arc_base::Name;
use ios_config::{Config, FaceText};
use std::alloc::Global;

/// The letters that an interface's name begins with, and the rest.
fn parts(name: &[u8]) -> Option<(&[u8], &[u8])> {
    let end = name.iter().position(|byte| !byte.is_ascii_alphabetic())?;
    name.split_at_checked(end)
}

/// Whether the command line of IOS would take the word for the name: the letters may be
/// abbreviated, in either case.
fn is_near(word: &[u8], name: &[u8]) -> bool {
    let (Some((front, unit)), Some((kind, numbers))) = (parts(word), parts(name)) else {
        return false;
    };
    match kind.get(..front.len()) {
        Some(letters) => letters.eq_ignore_ascii_case(front) && unit == numbers,
        None => false,
    }
}

/// The interface of a router that the word may mean, if there is just one.
fn near_face<'a>(config: &'a Config, word: &[u8]) -> Option<&'a FaceText> {
    let faces = config.faces.slice();
    let mut near = faces.iter().filter(|face| is_near(word, face.name.bytes()));
    let first = near.next()?;
    match near.next() {
        Some(_) => None,
        None => Some(first),
    }
}

/// The message about an end of a link, if this is the file of its router and lacks its interface.
pub fn missing_face(alloc: Global, text: &[u8], router: &Name, face: &Name) -> Option<String>
    requires { length text.now < 2 ^ 32 }
{
    let config = config_of(alloc, text)?;
    let hostname = config.hostname.as_ref()?;
    let mut faces = config.faces.slice().iter();
    if !hostname.name.is(router.bytes()) || faces.any(|it| it.name.is(face.bytes())) {
        return None;
    }
    let (router, word) = (Shown(router.bytes()), Shown(face.bytes()));
    match near_face(&config, face.bytes()) {
        Some(near) => {
            let near = Shown(near.name.bytes());
            format!(in alloc; "{router} has no interface {word}; is it {router}:{near}?").ok()
        }
        None => format!(in alloc; "{router} has no interface {word}").ok(),
    }
}
