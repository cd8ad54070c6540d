//! Laws over the definitions alone: each is the contract of a function that does nothing.
ghost use Rattle.edit_list.specs.Determined.{EditListsAreOne, EditListsAreThere};

/// A network has a list of edits for a document whose policies have their ends.
pub fn edit_lists_are_there()
    ensures { EditListsAreThere }
{}

/// A valid network has one list of edits for a document.
pub fn edit_lists_are_one()
    ensures { EditListsAreOne }
{}
