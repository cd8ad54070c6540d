//! Laws over the definitions alone: each is the contract of a function that does nothing.
ghost use Rattle.file_copies.specs.Changes.{ChangesAreLeft, PatchesAreThere, PatchesHaveTheNetwork};

/// Once the copies of the changed files are written, the router files are left patched.
pub fn changes_are_left()
    ensures { ChangesAreLeft }
{}

/// Router files that a network was built from can be patched by any edits, and the patched files,
/// read again, have exactly the network after the edits.
pub fn patches_have_the_network()
    ensures there { PatchesAreThere }
    ensures network { PatchesHaveTheNetwork }
{}
