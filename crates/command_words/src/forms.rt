//! The table of the commands: how each is written. The grammar of the command line, the reading of
//! words, the usage and the help come from its rows.
ghost use Rattle.command_words.specs.Commands.{form_named, form_of_row, forms};
ghost use Rattle.std.specs.Prelude.{◌≡◌, MatchOption, None, Some, bytes_eq, find, map};
ghost use Rattle.std.specs.Prelude.{option_copied};

use std::fmt;

/// Which command a row is of.
#[derive(Clone, Copy, Debug, PartialEq, Eq)]
pub enum CommandKind {
    Verify,
    Trace,
    Repair,
    Check,
    Apply,
    Solve,
    Lrat,
    Generate,
    Nodes,
    Prefers,
    Recheck,
}

/// An option of a command, which takes one value: `--NAME VALUE` or `--NAME=VALUE`.
#[derive(Clone, Copy, Debug)]
pub struct CommandOption {
    pub name: &'static str,
    /// The word for its value in the usage line.
    pub value: &'static str,
}

/// How a command is written.
#[derive(Clone, Copy, Debug)]
pub struct CommandForm {
    pub kind: CommandKind,
    /// The first word.
    pub name: &'static str,
    /// The words for the arguments that follow it, in order.
    pub places: &'static [&'static str],
    /// The options that must be given.
    pub needed: &'static [CommandOption],
    /// The options that may be left out.
    pub optional: &'static [CommandOption],
    /// What these words mean.
    pub meaning: &'static str,
}

impl fmt::Display for CommandForm {
    fn fmt<W: fmt::Write>(&self, f: &mut fmt::Formatter<W>) -> fmt::Result {
        f.write_str(self.name)?;
        for place in self.places {
            write!(f, " {place}")?;
        }
        for CommandOption { name, value } in self.needed {
            write!(f, " --{name} {value}")?;
        }
        for CommandOption { name, value } in self.optional {
            write!(f, " [--{name} {value}]")?;
        }
        Ok(())
    }
}

const OUT: CommandOption = CommandOption {
    name: "out",
    value: "SUFFIX",
};

const PROOF: CommandOption = CommandOption {
    name: "proof",
    value: "NAME",
};

const DOWN: CommandOption = CommandOption {
    name: "down",
    value: "A,B",
};

const MAX_PRICE: CommandOption = CommandOption {
    name: "max-price",
    value: "N",
};

const CONFLICTS: CommandOption = CommandOption {
    name: "conflicts",
    value: "N",
};

const FORMS: &[CommandForm] = &[
    CommandForm {
        kind: CommandKind::Verify,
        name: "verify",
        places: &["DOC"],
        needed: &[],
        optional: &[],
        meaning: "DOC is a document",
    },
    CommandForm {
        kind: CommandKind::Trace,
        name: "trace",
        places: &["DOC", "FROM", "TO"],
        needed: &[],
        optional: &[DOWN],
        meaning: "DOC is a document, FROM and TO prefixes like 10.1.0.0/24, A,B failed links",
    },
    CommandForm {
        kind: CommandKind::Repair,
        name: "repair",
        places: &["DOC"],
        needed: &[OUT, PROOF],
        optional: &[MAX_PRICE, CONFLICTS],
        meaning: "DOC is a document, SUFFIX follows the names of copies, NAME is the certificate",
    },
    CommandForm {
        kind: CommandKind::Check,
        name: "check",
        places: &["DOC", "CERT"],
        needed: &[],
        optional: &[],
        meaning: "DOC is a document, CERT a report of verify or a certificate of repair",
    },
    CommandForm {
        kind: CommandKind::Apply,
        name: "apply",
        places: &["DOC", "EDITS"],
        needed: &[OUT],
        optional: &[],
        meaning: "DOC is a document, EDITS a file of edits, SUFFIX follows the names of copies",
    },
    CommandForm {
        kind: CommandKind::Solve,
        name: "solve",
        places: &["CNF"],
        needed: &[PROOF],
        optional: &[CONFLICTS],
        meaning: "CNF is a formula in DIMACS form, NAME the proof that is written",
    },
    CommandForm {
        kind: CommandKind::Lrat,
        name: "lrat",
        places: &["CNF", "PROOF"],
        needed: &[],
        optional: &[],
        meaning: "CNF is a formula in DIMACS form, PROOF a proof in LRAT form",
    },
    CommandForm {
        kind: CommandKind::Generate,
        name: "generate",
        places: &["N"],
        needed: &[PROOF],
        optional: &[],
        meaning: "N is a number of routers, NAME the certificate that is written",
    },
    CommandForm {
        kind: CommandKind::Nodes,
        name: "nodes",
        places: &["DOC", "FROM", "TO", "K"],
        needed: &[],
        optional: &[],
        meaning: "DOC is a document, FROM and TO prefixes like 10.1.0.0/24, K a number of routers",
    },
    CommandForm {
        kind: CommandKind::Prefers,
        name: "prefers",
        places: &["DOC", "FROM", "TO", "ROUTERS"],
        needed: &[],
        optional: &[],
        meaning: "DOC is a document, FROM and TO prefixes like 10.1.0.0/24, ROUTERS like r1,r2,r3",
    },
    CommandForm {
        kind: CommandKind::Recheck,
        name: "recheck",
        places: &["DOC", "REPORT"],
        needed: &[],
        optional: &[],
        meaning: "DOC is a document, REPORT an old report of verify",
    },
];

/// The forms of all commands.
pub fn command_forms() -> &'static [CommandForm]
    ensures { map form_of_row result.now ≡ forms }
{
    FORMS
}

/// The first of these forms with this name.
fn named_among<'a>(forms: &'a [CommandForm], name: &str) -> Option<&'a CommandForm>
    ensures { option_copied result
        ≡ find (λ form. bytes_eq form.name.now name.now) forms.entry.now }
{
    forms.iter().find(|form| form.name == name)
}

/// The form of the command of this name.
pub fn form_named(name: &str) -> Option<CommandForm>
    ensures { MatchOption result (form_named name.now ≡ None)
        (λ form. form_named name.now ≡ Some (form_of_row form)) }
{
    named_among(command_forms(), name).copied()
}
