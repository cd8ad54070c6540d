//! Laws over the definitions alone: each is the contract of a function that does nothing.
ghost use Rattle.patch_size_laws.specs.Sizes.{PatchedFilesAreShort};

/// Router files within the limits of files to be edited are, after edits, within those of files to
/// be read.
pub fn patched_files_are_short()
    ensures { PatchedFilesAreShort }
{}
