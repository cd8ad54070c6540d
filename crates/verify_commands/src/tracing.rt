//! The command `trace DOC FROM TO`.
ghost use Rattle.net_rules.specs.Linking.{first_above};
ghost use Rattle.run_files.specs.Answers.{Answers, IsJudging, OnlyReads};
ghost use Rattle.run_files.specs.Limits.{least_limit};
ghost use Rattle.std.specs.Prelude.{◌≡◌, None, IfOk};
ghost use Rattle.verify_commands.specs.Traces.{down_flags, IsTraceRefusal, IsTraced};

use arc_base::{Kind, List, Name};
use arc_outside::Store;
use command_words::TraceWords;
use net_checks::has_endpoints;
use route_trace::trace_text;
use run_files::{Done, Limits, Stop, refused};
use run_inputs::read_input;
use std::alloc::{AllocError, Global};

/// For each link, whether it is down.
fn down_flags(alloc: Global, links: u32, numbers: &[u32]) -> Result<Vec<bool>, AllocError>
    requires { first_above links numbers.now ≡ None }
    ensures { IfOk result (λ flags. flags.items ≡ down_flags links numbers.now) }
{
    let mut flags = Vec::from_elem(alloc, false, links as usize)?;
    for number in numbers {
        if let Some(place) = number.checked_sub(1) {
            flags[place as usize] = true;
        }
    }
    Ok(flags)
}

/// Traces packets from the one prefix to the other, with these links down.
pub fn trace<S: Store>(alloc: Global, words: &TraceWords, store: &mut S) -> Result<Done, Stop>
    ensures answer { Answers IsJudging (IsTraceRefusal words.now) (IsTraced words.now)
        (S.held store.old) result }
    ensures reads { OnlyReads least_limit S.held S.faults S.absences S.taken
        store.old store.new result }
{
    let input = read_input(
        alloc,
        &words.document,
        words.down.slice(),
        Limits::Judging,
        store,
    )?;
    if !has_endpoints(&input.net, words.from, words.to) {
        return Err(refused(alloc, &words.document, 0, Kind::Endpoint));
    }
    let down = down_flags(alloc, input.net.links.len(), words.down.slice())?;
    let text = trace_text(alloc, &input.net, down.as_slice(), words.from, words.to)?;
    Ok(Done {
        text: Name::of(text),
        writes: List::make(alloc),
        status: 0,
    })
}
