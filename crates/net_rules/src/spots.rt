//! Where an interface is in its file.
ghost use Rattle.net_rules.specs.Sites.{sites};
ghost use Rattle.std.specs.Prelude.{◌≡◌, ◌≤◌, ◌<◌, Some, IfSome, IsSomeAnd, MatchOption, length};
ghost use Rattle.std.specs.Prelude.{slice_get};

use arc_base::List;
use ios_config::{Config, FaceText};

/// An interface of a file, with the place of the file.
#[derive(Clone, Copy, Debug)]
pub struct Spot<'a> {
    pub router: usize,
    pub face: &'a FaceText,
}

/// The interface at a place among those of all files.
pub fn spot_at(configs: &List<Config>, place: u32) -> Option<Spot<'_>>
    ensures place { MatchOption result (length (sites configs.now) ≤ place) (λ spot.
        IsSomeAnd (slice_get (sites configs.now) place) (λ site.
        (site.router ≡ spot.router) × (site.face ≡ spot.face.now))) }
    ensures router { IfSome result (λ spot. spot.router < length configs.now) }
{
    let mut rest = place;
    for (router, config) in configs.slice().iter().enumerate() {
        match config.faces.get(rest) {
            Some(face) => return Some(Spot { router, face }),
            None => rest -= config.faces.len(),
        }
    }
    None
}
