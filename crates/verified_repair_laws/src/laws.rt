//! Laws over the definitions alone: each is the contract of a function that does nothing.
ghost use Rattle.verified_repair_laws.specs.VerifiedRepairs.{RepairedFilesAreVerified};

use network_edit_laws::edits_keep_classes;
use patch_size_laws::laws::patched_files_are_short;

/// Once the files that `repair` leaves replace the old ones, `verify` says yes to each policy.
pub fn repaired_files_are_verified()
    ensures { RepairedFilesAreVerified }
{
    patched_files_are_short();
    edits_keep_classes();
}
