//! The limits of the program: each count and size that an input may have, with its unit and its
//! reason. Contracts and definitions take their limits from here.

/// Routers of a network. Tables over pairs of routers stay small, and a witness names a side by as
/// many marks.
pub const ROUTER_LIMIT: u64 = 256;

/// Interfaces of a router. Those of one router are looked through one by one.
pub const INTERFACE_LIMIT: u32 = 256;

/// Links of a network. A graph has two arcs for each, so one search over it stays short.
pub const LINK_LIMIT: u64 = 1_024;

/// Policies of a document. Each is judged by itself, over the classes of its own.
pub const POLICY_LIMIT: u64 = 256;

/// Failed links or routers that a policy or a command may ask about. Reach under k failures asks
/// for k + 1 disjoint paths, each found by one search.
pub const FAILURE_LIMIT: u64 = 16;

/// What an edit of one kind may cost at most: 32 of the greatest weight come to the highest price.
pub const WEIGHT_LIMIT: u64 = 16;

/// Entries of a list of a router file.
pub const ENTRY_LIMIT: u32 = 16_384;

/// Entries of a list of a router file that is to be edited. With one more for each edit the list
/// stays within the other limit, so that the edited file can be read again.
pub const EDITED_ENTRY_LIMIT: u32 = 2_048;

/// Traffic classes of a document. Each has a graph of its own to be searched, and a question of the
/// repair formula.
pub const CLASS_LIMIT: u64 = 4_096;

/// Modelled edits of a network for a document. Each is a variable of the repair formula.
pub const EDIT_LIMIT: u64 = 8_192;

/// Variables of a formula. A search keeps several words of each.
pub const VARIABLE_LIMIT: u64 = 16_777_216;

/// Literals of a formula, each occurrence counted. A search keeps them all, in some 32 bytes each.
pub const LITERAL_LIMIT: u64 = 32_000_000;

/// Nodes of a network of conditions.
pub const NODE_LIMIT: u32 = 65_536;

/// Arcs of one question over a network of conditions.
pub const ARC_LIMIT: u32 = 65_536;

/// Questions over a network of conditions. With these three the variables and the literals of its
/// formula are counted in 64 bits.
pub const QUESTION_LIMIT: u32 = 4_096;

/// The highest price of a repair that may be asked for. The repair formula counts up to it, edit by
/// edit.
pub const PRICE_LIMIT: u32 = 512;

/// The highest price of a repair where the words do not say it.
pub const DEFAULT_PRICE: u32 = 32;

/// Conflicts that a search may learn from. A log has a clause for each.
pub const CONFLICT_LIMIT: u64 = 200_000;

/// Conflicts that a search may learn from where the words do not say it.
pub const DEFAULT_CONFLICTS: u64 = 50_000;

/// The fewest routers of a generated network: with fewer, the ring has no chords.
pub const FEWEST_GENERATED: u64 = 6;

/// The most routers of a network that is generated.
pub const MOST_GENERATED: u64 = 40;

/// Bytes of the name of a router, a list or an interface.
pub const NAME_LIMIT: usize = 64;

/// Bytes of the name of a file in a document.
pub const FILE_NAME_LIMIT: usize = 1_024;

/// Bytes of a document: 1 MiB, room for the most routers, links and policies. No kind of file has a
/// smaller limit.
pub const DOCUMENT_LIMIT: u64 = 1_048_576;

/// Bytes of an edit file: 1 MiB, more than a hundred for each edit.
pub const EDIT_FILE_LIMIT: u64 = 1_048_576;

/// Bytes of a router file: 8 MiB.
pub const ROUTER_FILE_LIMIT: u64 = 8_388_608;

/// Bytes of all router files together: 64 MiB.
pub const ALL_ROUTER_FILES_LIMIT: u64 = 67_108_864;

/// Bytes of a router file that is to be edited: 1 MiB. Each edit adds at most 512 bytes, and new
/// numbers four bytes to each entry, so the edited file stays within the other limit.
pub const EDITED_FILE_LIMIT: u64 = 1_048_576;

/// Bytes of all router files together that are to be edited: 16 MiB.
pub const ALL_EDITED_FILES_LIMIT: u64 = 16_777_216;

/// Bytes of a formula in DIMACS form: 256 MiB, eight for each literal that it may have.
pub const FORMULA_FILE_LIMIT: u64 = 268_435_456;

/// Bytes of a proof, a certificate or a report: 1 TiB, more than any report of few short witnesses
/// has.
pub const PROOF_LIMIT: u64 = 1_099_511_627_776;

/// Bytes that one read of a file asks for. Few reads serve a large file, in little memory.
pub const PIECE_LENGTH: usize = 65_536;
