//! Whether paths share no link and lead from the source to the target.
ghost use Rattle.net_model.specs.Validity.{IsValid};
ghost use Rattle.net_model.specs.Witnesses.{IsPath, IsRightPaths};
ghost use Rattle.std.specs.List.{flat_map};
ghost use Rattle.std.specs.Prelude.{◌≢◌, ◌↔◌, ◌+◌, ◌⊎◌, IsTrue, Contains, AllPairs, All, length};
ghost use Rattle.witness_check.specs.Cases.{CaseHolds, ends_in};
ghost use Rattle.witness_check.specs.Paths.{IsFullCount, StandOnce};

use crate::cases::Case;
use arc_base::Link;
use net_model::LinkPath;

/// Whether the link is one of these.
pub(crate) fn contains(links: &[Link], link: Link) -> bool
    ensures { IsTrue result ↔ Contains links.now link }
{
    links.iter().any(|l| l.0 == link.0)
}

/// Whether the link occurs in one of the paths.
fn is_used(paths: &[LinkPath], link: Link) -> bool
    ensures { IsTrue result ↔ Contains (flat_map (λ path. path.links) paths.now) link }
{
    for path in paths {
        if contains(path.links.slice(), link) {
            return true;
        }
    }
    false
}

/// Whether the link is one of these, or occurs in one of the later paths.
fn stands_again(link: Link, links: &[Link], later: &[LinkPath]) -> bool
    ensures { IsTrue result ↔
        (Contains links.now link ⊎ Contains (flat_map (λ path. path.links) later.now) link) }
{
    contains(links, link) || is_used(later, link)
}

/// Whether no link of these occurs twice among them, or in one of the later paths.
fn stand_once(links: &[Link], later: &[LinkPath]) -> bool
    ensures { IsTrue result ↔ StandOnce links.now (flat_map (λ path. path.links) later.now) }
{
    for (place, link) in links.iter().enumerate() {
        if stands_again(*link, &links[place + 1..], later) {
            return false;
        }
    }
    true
}

/// Whether no link occurs twice in the paths.
fn are_disjoint(paths: &[LinkPath]) -> bool
    ensures { IsTrue result ↔ AllPairs (λ l m. l ≢ m) (flat_map (λ path. path.links) paths.now) }
{
    for (place, path) in paths.iter().enumerate() {
        if !stand_once(path.links.slice(), &paths[place + 1..]) {
            return false;
        }
    }
    true
}

impl Case<'_> {
    /// Whether there are as many paths as are asked: one more than links may fail, or none where
    /// the packets enter and leave at one router.
    fn is_full_count(&self, k: u32, paths: &[LinkPath]) -> bool
        ensures { IsTrue result ↔ IsFullCount (ends_in self.now) k (length paths.now) }
    {
        if self.is_local() {
            return paths.is_empty();
        }
        paths.len() as u64 == u64::from(k) + 1
    }

    /// Whether each of these is a path from the source to the target.
    fn are_paths(&self, paths: &[LinkPath]) -> bool
        requires told { CaseHolds self.now }
        requires valid { IsValid self.now.net.now }
        ensures { IsTrue result ↔ All (IsPath self.now.net.now (ends_in self.now)) paths.now }
    {
        for path in paths {
            if !self.is_path(path) {
                return false;
            }
        }
        true
    }

    /// Whether the paths are right: the policy is clear, its packets enter and leave, and some path
    /// is left whichever links fail.
    pub(crate) fn are_right_paths(&self, k: u32, paths: &[LinkPath]) -> bool
        requires told { CaseHolds self.now }
        requires valid { IsValid self.now.net.now }
        ensures { IsTrue result ↔
            IsRightPaths self.now.net.now (ends_in self.now) k self.now.whole paths.now }
    {
        if !self.is_full_count(k, paths) {
            return false;
        }
        if !self.each_passes(self.whole) {
            return false;
        }
        if !self.are_paths(paths) {
            return false;
        }
        are_disjoint(paths) && self.is_clear()
    }
}
