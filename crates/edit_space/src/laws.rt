//! Laws of the network after edits: each is the contract of a function that does nothing.
ghost use Rattle.edit_list.specs.Determined.{AfterIsThere, AfterIsValid, AfterIsOne};
ghost use Rattle.edit_space.specs.NewNames.{NewNamesAreNew, NewNamesDiffer};

/// After any edits of a valid network there is one network, and it is valid.
pub fn networks_after_edits_are_valid()
    ensures there { AfterIsThere }
    ensures valid { AfterIsValid }
    ensures one { AfterIsOne }
{}

/// A new list has a name that its router's file does not give or bind, and no other new list of the
/// router has it.
pub fn new_names_clash_with_none()
    ensures new { NewNamesAreNew }
    ensures differ { NewNamesDiffer }
{}
