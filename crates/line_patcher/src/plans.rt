//! What the chosen edits do to each router, found once for all files.
ghost use Rattle.line_patcher.specs.NewListLines.{face_places};
ghost use Rattle.line_patcher.specs.SessionLines.{turned_face};
ghost use Rattle.line_patcher.specs.Working.{IsPlan};
ghost use Rattle.std.specs.List.{filter_map};
ghost use Rattle.std.specs.Prelude.{◌≡◌, IfOk};

use arc_base::groups::{Group, append, grouped};
use arc_base::{List, Memory, Name};
use edit_list::{Edit, NewList};
use edit_space::{Changes, lists_made, new_names};
use net_build::{Built, FacePlace, Places};
use net_model::Network;
use std::alloc::Global;

/// What the chosen edits do, by interface, list and router.
#[derive(Debug, Drop)]
pub struct Plan {
    pub changes: Changes,
    /// Where each interface has its block.
    pub faces: Vec<FacePlace>,
    /// For each router the interfaces whose sessions are turned.
    pub turned: Vec<Group<u32>>,
    /// For each router its new lists.
    pub new_lists: Vec<Group<NewList>>,
    /// For each router their names.
    pub names: Vec<List<Name>>,
}

/// The interface whose session an edit turns, with its router.
fn turned_face(net: &Network, edit: &Edit) -> Option<(u32, u32)>
    ensures { result ≡ turned_face net.now edit.now }
{
    match edit {
        Edit::Session(face) => match net.faces.get(face.0) {
            Some(row) => Some((row.router.0, face.0)),
            None => None,
        },
        _ => None,
    }
}

fn turned_faces(alloc: Global, net: &Network, edits: &[Edit]) -> Result<Vec<(u32, u32)>, Memory>
    ensures { IfOk result (λ faces. faces.items ≡ filter_map (turned_face net.now) edits.now) }
{
    Ok(
        edits
            .iter()
            .filter_map(|e| turned_face(net, e))
            .collect(alloc)?,
    )
}

/// Where the interfaces of all files have their blocks.
fn face_places(alloc: Global, places: &[Places]) -> Result<Vec<FacePlace>, Memory>
    ensures { IfOk result (λ faces. faces.items ≡ face_places places.now) }
{
    let mut faces = Vec::new(alloc);
    for own in places {
        append(&mut faces, own.faces.slice())?;
    }
    Ok(faces)
}

impl Plan {
    /// What these edits do to the network.
    pub fn of(alloc: Global, built: &Built, edits: Vec<Edit>) -> Result<Plan, Memory>
        ensures edits { IfOk result (λ plan. plan.changes.edits.items ≡ edits.items) }
        ensures plan { IfOk result (IsPlan built.now) }
    {
        let net = &built.net;
        let changes = Changes::of(alloc, net, edits)?;
        let routers = net.routers.len();
        let turned = turned_faces(alloc, net, &changes.edits)?;
        let lists = lists_made(alloc, net, &changes)?;
        Ok(Plan {
            faces: face_places(alloc, built.places.slice())?,
            turned: grouped(alloc, routers, &turned)?,
            new_lists: grouped(alloc, routers, &lists)?,
            names: new_names(alloc, net, &lists)?,
            changes,
        })
    }
}
