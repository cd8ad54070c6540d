//! How large the files of a command may be.
ghost use Rattle.run_files.specs.Limits.{entries_limit, least_limit, router_limit, routers_limit};
ghost use Rattle.std.specs.Prelude.{◌≡◌, ◌≤◌};

use arc_base::limits::{
    ALL_EDITED_FILES_LIMIT, ALL_ROUTER_FILES_LIMIT, EDITED_ENTRY_LIMIT, EDITED_FILE_LIMIT,
    ENTRY_LIMIT, ROUTER_FILE_LIMIT,
};

/// Which limits hold for the router files that a command reads.
#[derive(Clone, Copy, Debug, PartialEq, Eq)]
pub enum Limits {
    /// Those of a command that judges the files as they are.
    Judging,
    /// The smaller ones of a command that edits the files, or judges edits of them: an edited file
    /// then stays within the limits of `Judging`.
    Editing,
}

impl Limits {
    /// How many bytes a router file may have.
    pub fn router_bytes(self) -> u64
        ensures value { result ≡ router_limit self }
        ensures small { result ≤ ROUTER_FILE_LIMIT }
        ensures least { least_limit ≤ result }
    {
        match self {
            Limits::Judging => ROUTER_FILE_LIMIT,
            Limits::Editing => EDITED_FILE_LIMIT,
        }
    }

    /// How many bytes all router files together may have.
    pub fn all_bytes(self) -> u64
        ensures value { result ≡ routers_limit self }
        ensures small { result ≤ ALL_ROUTER_FILES_LIMIT }
        ensures least { least_limit ≤ result }
    {
        match self {
            Limits::Judging => ALL_ROUTER_FILES_LIMIT,
            Limits::Editing => ALL_EDITED_FILES_LIMIT,
        }
    }

    /// How many entries a list of a router file may have.
    pub fn entries(self) -> u32
        ensures value { result ≡ entries_limit self }
        ensures small { result ≤ ENTRY_LIMIT }
    {
        match self {
            Limits::Judging => ENTRY_LIMIT,
            Limits::Editing => EDITED_ENTRY_LIMIT,
        }
    }
}
