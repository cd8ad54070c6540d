//! The commands of a file, line for line.
ghost use Rattle.ios_config.specs.Commands.{AreCommandsOf, IsFaultOfFile, opened_by};
ghost use Rattle.ios_config.specs.Reading.{standing, open_after, refusal, IsReading};
ghost use Rattle.ios_lines.specs.Lines.{AreLinesOf};
ghost use Rattle.ios_words.specs.Commands.{HasWordsIn};
ghost use Rattle.std.specs.Prelude.{◌≡◌, IfOk, IfErr};

use crate::fault::ConfigFault;
use arc_base::Kind;
use ios_lines::{Line, Lines};
use ios_words::{BlockKind, Command, WordFault, command};
use std::alloc::Global;

/// A command of a file, with its line and the line that heads its block, which is 0 if it is in
/// none.
#[derive(Debug, Drop)]
pub struct FileCommand {
    pub line: u32,
    pub block: u32,
    pub command: Command,
}

/// The kind of block that the command of a top line opens. One that opens none counts as inert.
pub fn opened_by(command: &Command) -> BlockKind
    ensures { result ≡ opened_by command.now }
{
    match command {
        Command::Interface(_) => BlockKind::Interface,
        Command::RouterOspf(_) => BlockKind::Ospf,
        Command::RouterBgp(_) => BlockKind::Bgp,
        Command::ListBlock(true, _) => BlockKind::Extended,
        Command::ListBlock(false, _) => BlockKind::Standard,
        _ => BlockKind::Inert,
    }
}

/// The kind of block that a line is in, where this is the kind of the open block.
fn standing(line: &Line, current: BlockKind) -> BlockKind
    ensures { result ≡ standing line.now current }
{
    if line.head || line.block == 0 {
        BlockKind::Top
    } else {
        current
    }
}

/// The kind of the open block after a line that is read as this command.
fn open_after(line: &Line, command: &Command, current: BlockKind) -> BlockKind
    ensures { result ≡ open_after line.now command.now current }
{
    if line.head {
        opened_by(command)
    } else {
        current
    }
}

/// The fault of the line of this number, which is no command.
fn refused(number: u32, fault: WordFault) -> ConfigFault
    ensures { result ≡ refusal number fault }
{
    match fault {
        WordFault::Unknown => ConfigFault::Refused(number, Kind::UnknownLine),
        WordFault::BadWord(_) => ConfigFault::Refused(number, Kind::BadWord),
        WordFault::WildcardNotPrefix => ConfigFault::Refused(number, Kind::WildcardNotPrefix),
        WordFault::Memory => ConfigFault::Memory,
    }
}

/// The command of the line of this number, which is in a block of this kind.
fn read(
    alloc: Global,
    text: &[u8],
    line: &Line,
    number: u32,
    within: BlockKind,
) -> Result<FileCommand, ConfigFault>
    requires { HasWordsIn text.now line.now }
    ensures { IsReading text.now line.now number within result }
{
    match command(alloc, text, line, within) {
        Ok(command) => Ok(FileCommand {
            line: number,
            block: line.block,
            command,
        }),
        Err(fault) => Err(refused(number, fault)),
    }
}

/// The commands of a file, or the first line that is none.
pub fn commands(alloc: Global, text: &[u8], lines: &Lines) -> Result<Vec<FileCommand>, ConfigFault>
    requires { AreLinesOf text.now lines.now }
    ensures ok { IfOk result (λ commands. AreCommandsOf text.now lines.now commands.items) }
    ensures err { IfErr result (IsFaultOfFile text.now lines.now) }
{
    let mut commands = Vec::new(alloc);
    let mut current = BlockKind::Top;
    for (place, line) in lines.rows.slice().iter().enumerate() {
        if !line.inert {
            let c = read(alloc, text, line, place as u32 + 1, standing(line, current))?;
            current = open_after(line, &c.command, current);
            commands.push(c)?;
        }
    }
    Ok(commands)
}
