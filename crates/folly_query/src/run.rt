ghost use Rattle.std.specs.Prelude.{◌≡◌, ◌≢◌, ◌↔◌, ◌⊎◌, IfSome, None};
ghost use Rattle.fan_base.specs.Outside.{shown};
ghost use Rattle.query_words.specs.declared.command.Settings.{Settings};
ghost use Rattle.query_words.specs.declared.command.Generation.{Generation};
ghost use Rattle.query_words.specs.Grammar.{IsCommand, IsOutside};
ghost use Rattle.query_words.specs.Laws.{AreSettingsInRange};
ghost use Rattle.run_ending.specs.Ends.{IsPoolTold};
ghost use Rattle.folly_query.specs.Endings.{Comes, EndsAs, GainsNoReply, RefusesAs, SumsUpAs, TellsPool, asked_of};
ghost use Rattle.folly_query.specs.Reports.{IsRefusal, TellsNothing};

use crate::answer::answer;
use crate::args::Args;
use crate::generated::sum_up;
use crate::report::{Report, Status};
use fan_base::{Gate, Memory, Sink, Source};
use input_reader::{ReadEnd, read_source};
use query_model::BadInput;
use query_model::laws::accepted_is_within_limits;
use query_text::{error_line, input_law};
use query_words::laws::{commands_are_in_range, words_are_at_most_one_command};
use query_words::{Command, Settings};
use reply_printer::write_all;
use std::alloc::Global;
use std::sync::Wait;
use std::thread::Threads;

/// Does what the words ask for. For `run` it reads the source to its end, and writes the replies, or the error line of the first
/// line that is refused. For `gen` it reads nothing, and writes the line that sums up the replies to the input that is made up.
/// The replies are made over threads, and a worker calls the gate round each task that it takes. It may wait.
pub fn query_main<S: Source, K: Sink + Send, G: Gate, R: Threads + Wait + Sync>(
    rt: &R,
    alloc: Global,
    words: &Args,
    source: &mut S,
    sink: &mut K,
    gate: &G,
) -> Report
    // The words alone decide whether anything is done. Where they are no command, nothing is read or written.
    ensures usage { (result.status ≡ Status.Usage) ↔ IsOutside words.now }
    ensures untouched { result.status ≡ Status.Usage → (source.new ≡ source.old) × (sink.new ≡ sink.old) }

    // Where a read fails or the source has too much, nothing is written.
    ensures unwritten { (result.status ≡ Status.ReadFault) ⊎ (result.status ≡ Status.TooLarge) → sink.new ≡ sink.old }

    // What a run's status says of the source, the sink and the report.
    ensures ends { (settings : Settings) → IsCommand words.now (Command.Run settings) → EndsAs settings
        (shown (S.left source.old) (S.faults source.old)) (shown (S.left source.new) (S.faults source.new))
        (shown (K.holds sink.old) (K.faults sink.old)) (shown (K.holds sink.new) (K.faults sink.new)) result }

    // Which status a run comes to, where the bytes of its source are known.
    ensures comes { (settings : Settings) → IsCommand words.now (Command.Run settings)
        → IfSome (S.left source.old) (λ bytes. Comes settings.shards bytes
        (shown (S.left source.old) (S.faults source.old)) (shown (S.left source.new) (S.faults source.new))
        (shown (K.holds sink.old) (K.faults sink.old)) (shown (K.holds sink.new) (K.faults sink.new)) result.status) }

    // What the status says where an input is made up. The source is left as it is.
    ensures sums_up { (generation : Generation) (settings : Settings) → IsCommand words.now (Command.Generate generation settings) →
        SumsUpAs generation settings (shown (K.holds sink.old) (K.faults sink.old)) (shown (K.holds sink.new) (K.faults sink.new)) result }
    ensures unread { (generation : Generation) (settings : Settings) → IsCommand words.now (Command.Generate generation settings)
        → source.new ≡ source.old }

    // Where the words or the input are refused nothing runs. Without a pool nothing is told, and no reply was written.
    ensures nothing { IsRefusal result.status → TellsNothing result }
    ensures unmade { result.pool ≡ None → TellsNothing result }
    ensures unanswered { result.pool ≡ None →
        GainsNoReply (shown (K.holds sink.old) (K.faults sink.old)) (shown (K.holds sink.new) (K.faults sink.new)) result.status }

    // There is a pool only where words and input are accepted. Where there is one, whatever the status, it was stopped exactly where the settings ask
    // for it. Of a stopped one each record of what it ran or handed back is of one of the first early tasks, no two of one; of a joined one
    // each task that it accepted has one record, and these are the first early ones.
    ensures pool { (settings : Settings) → IsCommand words.now (Command.Run settings) → IfSome result.pool (TellsPool settings
        (shown (S.left source.old) (S.faults source.old)) (shown (S.left source.new) (S.faults source.new))) }
    ensures made_up_pool { (generation : Generation) (settings : Settings) → IsCommand words.now (Command.Generate generation settings) →
        IfSome result.pool (IsPoolTold (asked_of generation settings)) }
{
    words_are_at_most_one_command();
    commands_are_in_range();
    match words.command() {
        Some(Command::Run(settings)) => run(rt, alloc, settings, source, sink, gate),
        Some(Command::Generate(generation, settings)) => {
            sum_up(rt, alloc, generation, settings, sink, gate)
        }
        None => Report::empty(alloc, Status::Usage),
    }
}

/// Reads an input, and answers it or refuses it.
fn run<S: Source, K: Sink + Send, G: Gate, R: Threads + Wait + Sync>(
    rt: &R,
    alloc: Global,
    settings: Settings,
    source: &mut S,
    sink: &mut K,
    gate: &G,
) -> Report
    requires { AreSettingsInRange settings }
    ensures ends { EndsAs settings (shown (S.left source.old) (S.faults source.old)) (shown (S.left source.new) (S.faults source.new))
        (shown (K.holds sink.old) (K.faults sink.old)) (shown (K.holds sink.new) (K.faults sink.new)) result }
    ensures comes { IfSome (S.left source.old) (λ bytes. Comes settings.shards bytes (shown (S.left source.old) (S.faults source.old))
        (shown (S.left source.new) (S.faults source.new)) (shown (K.holds sink.old) (K.faults sink.old)) (shown (K.holds sink.new) (K.faults sink.new)) result.status) }
    ensures running { result.status ≢ Status.Usage }
    ensures unwritten { (result.status ≡ Status.ReadFault) ⊎ (result.status ≡ Status.TooLarge) → sink.new ≡ sink.old }
    ensures nothing { IsRefusal result.status → TellsNothing result }
    ensures unmade { result.pool ≡ None → TellsNothing result }
    ensures unanswered { result.pool ≡ None →
        GainsNoReply (shown (K.holds sink.old) (K.faults sink.old)) (shown (K.holds sink.new) (K.faults sink.new)) result.status }
    ensures pool { IfSome result.pool (TellsPool settings
        (shown (S.left source.old) (S.faults source.old)) (shown (S.left source.new) (S.faults source.new))) }
{
    input_law();
    let table = match read_source(alloc, source, settings.shards) {
        Ok(table) => table,
        Err(ReadEnd::Memory) => return Report::empty(alloc, Status::Memory),
        Err(ReadEnd::Fault) => return Report::empty(alloc, Status::ReadFault),
        Err(ReadEnd::TooLarge) => return Report::empty(alloc, Status::TooLarge),
        Err(ReadEnd::Bad(bad)) => return Report::empty(alloc, refuse(alloc, bad, sink)),
    };
    accepted_is_within_limits();
    Report::of_run(answer(rt, alloc, table, settings, sink, gate))
}

/// Writes the error line of a refusal, as far as the sink takes it, and gives the status.
fn refuse<K: Sink>(alloc: Global, bad: BadInput, sink: &mut K) -> Status
    ensures ends { RefusesAs bad (shown (K.holds sink.old) (K.faults sink.old)) (shown (K.holds sink.new) (K.faults sink.new)) result }
{
    let line = match error_line(alloc, &bad) {
        Ok(line) => line,
        Err(Memory) => return Status::Memory,
    };
    let _ = write_all(sink, line.as_slice());
    Status::BadInput(bad)
}
