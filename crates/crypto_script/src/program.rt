//! The whole program, from the words and the bytes read to the bytes written.

ghost use Rattle.std.specs.Prelude.{◌≡◌, ◌≤◌, ◌⊎◌, [], true, Some, None, map, IfOk, IfErr, IfSome, Ok, string_bytes};
ghost use Rattle.std.specs.Io.KnownBytes.{Appends, Keeps};
ghost use Rattle.kc_base.specs.Streams.{AppendsFront, Rose};
ghost use Rattle.load_mode.specs.Requests.{load_line};
ghost use Rattle.load_mode.specs.Turns.{AreLoaded};
ghost use Rattle.script_text.specs.Script.{script_of};
ghost use Rattle.alg_registry.specs.Legal.{LegalReg};
ghost use Rattle.alg_registry.specs.Made.{Made};
ghost use Rattle.board.specs.Legal.{LegalBoard};
ghost use Rattle.templates.specs.Table.{table};
ghost use Rattle.command_line.specs.CommandLine.{IsWithinLimits};
ghost use Rattle.script_run.specs.Endings.{EndsShut, IsShutOnce};
ghost use Rattle.script_run.specs.Runs.{ReadsUpTo, InTurn};
ghost use Rattle.script_run.specs.Statuses.{status_of};
ghost use Rattle.client_texts.specs.OneList.{AreOneList, AreCallersBeside};
ghost use Rattle.crypto_script.specs.Asked.{AsksScript, AsksClients, AsksScripts, AsksLoad, AsksNothing, UnlessAsked, ForScript, ForClients, ForLoad, workers_for, clients_for};
ghost use Rattle.crypto_script.specs.Asked.{OfScript, OfEndedScript, OfScriptAt, OfGiven, OfEndedInput, OfStoppedInput, IsUnbegun};
ghost use Rattle.crypto_script.specs.Asked.{WritesText, WritesPlainText, WritesByLines, WritesFront, WritesCutOff, WritesBrokenOff, WritesAnswered, WritesUpTo, WritesFirst, WritesOutput, WritesFrontOrNone};
ghost use Rattle.crypto_script.specs.Asked.{DidNotRead, SaysMalformed, SaysAnyMalformed, TraceCanBeRead, EndsOrWantsMemory};
ghost use Rattle.crypto_script.specs.Refusals.{of_words};
ghost use Rattle.crypto_script.specs.Words.{script_asked, script_in_mode, clients_asked, clients_in_mode, load_asked, load_in_mode};

use alg_registry::RegLog;
use board::BoardLog;
use client_run::run_clients;
use command_line::{CommandLineError, parse_words};
use crew::Gate;
use kc_base::{Sink, Source};
use run_options::Mode;
use script_run::{
    RunError, RunResult, nothing_is_broken_off, nothing_is_by_lines, nothing_is_front, run_load,
    run_traced, status_by,
};
use std::alloc::Global;
use std::sync::Wait;
use std::thread::Threads;
use transforms::Ask;

/// How a run ended.
#[derive(Drop)]
pub struct Outcome {
    /// The program's exit status.
    pub status: u8,
    /// All that happened in the registry.
    pub registry: RegLog,
    /// All that happened on the board.
    pub board: BoardLog<Ask>,
}

// Why a run ends whose words are no command, or can't be read for want of memory.
fn refusal_of(error: CommandLineError) -> RunError
    ensures { result ≡ of_words error }
{
    match error {
        CommandLineError::NoMemory => RunError::NoMemory,
        _ => RunError::Usage,
    }
}

// What the words ask for.
fn mode_for(alloc: Global, words: &[String]) -> Result<Mode, RunError>
    ensures script { IfOk result (λ mode. script_asked (map string_bytes words.now) ≡ script_in_mode (Ok mode)) }
    ensures clients { IfOk result (λ mode. clients_asked (map string_bytes words.now) ≡ clients_in_mode (Ok mode)) }
    ensures load { IfOk result (λ mode. load_asked (map string_bytes words.now) ≡ load_in_mode (Ok mode)) }
    ensures bounds { IfOk result IsWithinLimits }
    ensures refused { IfErr result (λ e. (e ≡ RunError.NoMemory)
        ⊎ ((e ≡ RunError.Usage) × (script_asked (map string_bytes words.now) ≡ None)
        × (clients_asked (map string_bytes words.now) ≡ None) × (load_asked (map string_bytes words.now) ≡ None))) }
{
    match parse_words(alloc, words) {
        Ok(mode) => Ok(mode),
        Err(error) => Err(refusal_of(error)),
    }
}

// The outcome of what was run.
fn outcome_of(ran: RunResult) -> Outcome
    ensures status { result.status ≡ status_of ran.answer }
    ensures registry { result.registry ≡ ran.registry }
    ensures board { result.board ≡ ran.board }
{
    let RunResult {
        answer,
        registry,
        board,
    } = ran;
    Outcome {
        status: status_by(answer),
        registry,
        board,
    }
}

/// Does all that the program does: reads a script from the source, and writes the answers of its lines to the sink, and
/// then the run's trace, where the words ask for it; or reads several scripts, runs them at once behind a first part
/// whose transforms they share, and writes their answers when all have ended; or makes the requests of a load, and
/// writes its line. Of a script it reads at most 65,536 bytes at once, and only where the answers to each whole line of
/// what it has are written. The words are the program's arguments without its name. Beside the scripts, or the load,
/// stand as many workers as the words ask for, which do their jobs and build their instances; they pass the gate with
/// each job.
///
/// | status | comes |
/// |---|---|
/// | 0 | the run reached the end, and no line is malformed; or the load's line is written |
/// | 1 | the run reached the end, and a line is malformed |
/// | 2 | the words are no command |
/// | 3, 4 | the source, the sink failed |
/// | 5 | memory is wanting |
/// | 6 | the source has more than 2^28 bytes |
#[tactic(auto, using(crate::proofs::Refusing::nothing_traced, crate::proofs::Refusing::nothing_by_lines_traced))]
pub fn run<S: Source, K: Sink, G: Gate + Sync, R: Threads + Wait + Sync>(
    rt: &R,
    alloc: Global,
    words: &[String],
    gate: &G,
    src: &mut S,
    out: &mut K,
) -> Outcome
    // A script that reaches its end (0, 1): it was read whole, its text was written, then the trace where the words ask
    // for it, which can be read back, and the board was shut last. It has called the registry in turn, with as many
    // looks at once as a probe has names. What a settled script writes is a function of its lines alone: the same
    // beside every number of workers.
    ensures ended { AsksScript words.now → result.status ≤ 1 → IfSome (S.left src.old) (λ _. S.left src.new ≡ Some []) }
    ensures whole { OfEndedScript result words.now (S.left src.old) (WritesText (K.held out.old) (K.held out.new)) }
    ensures readable { ForScript words.now (λ o. o.trace ≡ true → result.status ≤ 1 → TraceCanBeRead result (S.left src.old)) }
    ensures shut { AsksScript words.now → result.status ≤ 1 → EndsShut result.board }
    ensures in_turn { AsksScript words.now → result.status ≤ 1 → IfSome (S.left src.old) (λ s. InTurn (script_of s) result.registry) }
    ensures malformed { AsksScript words.now → result.status ≤ 1 → IfSome (S.left src.old) (SaysMalformed result) }
    ensures settled { OfEndedScript result words.now (S.left src.old) (WritesPlainText (K.held out.old) (K.held out.new)) }

    // Several scripts at once that reach their end (0, 1): the same of the whole input and the whole output, the first
    // part's text, the clients' and that of the end. A pipeline that they share has one list of requests, in which
    // those of each stand in the order of its lines; each was handed out.
    ensures clients_ended { AsksClients words.now → result.status ≤ 1 → IfSome (S.left src.old) (λ _. S.left src.new ≡ Some []) }
    ensures clients_whole { OfEndedInput result words.now (S.left src.old) (WritesOutput (K.held out.old) (K.held out.new)) }
    ensures clients_readable { ForClients words.now (λ o. o.trace ≡ true → result.status ≤ 1 → TraceCanBeRead result (S.left src.old)) }
    ensures clients_shut { AsksClients words.now → result.status ≤ 1 → EndsShut result.board }
    ensures clients_malformed { OfEndedInput result words.now (S.left src.old) SaysAnyMalformed }
    ensures one_list { ForClients words.now (λ options. result.status ≤ 1 → AreOneList options.clients result.board) }

    // A load that reaches its end (0): its line was written, pads 0 and 1 have accepted its requests and handed each
    // out, and the board was shut last.
    ensures load_line { ForLoad words.now (λ l. result.status ≡ 0 → Appends (K.held out.old) (K.held out.new) (load_line l.seed l.count)) }
    ensures loaded { ForLoad words.now (λ load. result.status ≡ 0 → AreLoaded load.seed load.count result.board) }
    ensures load_shut { AsksLoad words.now → result.status ≡ 0 → EndsShut result.board }

    // 2: the words are no command. Such words end with 2, or with 5, and nothing is read, written or recorded.
    ensures usage { result.status ≡ 2 → AsksNothing words.now }
    ensures refused { UnlessAsked words.now ((result.status ≡ 2) ⊎ (result.status ≡ 5)) }
    ensures untouched { UnlessAsked words.now ((src.new ≡ src.old) × (out.new ≡ out.old) × (result.registry ≡ []) × (result.board ≡ [])) }

    // 3: the source failed. The lines whose line feed stood in what it gave are answered whole, and nothing else is
    // written. Of several scripts nothing is written, and none has run, under 6 too.
    ensures read_fault { result.status ≡ 3 → Rose (S.faults src.old) (S.faults src.new) }
    ensures answered { OfGiven result words.now 3 (S.left src.old) (S.left src.new) (WritesAnswered (K.held out.old) (K.held out.new)) }
    ensures clients_unwritten { AsksClients words.now → DidNotRead result → Keeps (K.held out.old) (K.held out.new) }
    ensures clients_unrun { AsksClients words.now → DidNotRead result → (result.registry ≡ []) × (result.board ≡ []) }

    // 4: the sink failed. It has gained the text of the lines that stood before the last 65,536 bytes read, or more.
    // The script has made the calls of what is answered, and none besides but the shut: only of the last line, or of
    // the end of input, may the text stand there in part. Of several scripts nothing was written, or a front; so too
    // under 5.
    ensures write_fault { result.status ≡ 4 → Rose (K.faults out.old) (K.faults out.new) }
    ensures answered_front { OfGiven result words.now 4 (S.left src.old) (S.left src.new) (WritesFirst (K.held out.old) (K.held out.new)) }
    ensures called { OfScriptAt result words.now 4 (S.left src.old) (WritesCutOff (K.held out.old) (K.held out.new)) }
    ensures clients_front { OfStoppedInput result words.now (S.left src.old) (WritesFrontOrNone (K.held out.old) (K.held out.new)) }

    // 5: memory is wanting. As under 4; or the sink has gained the text of first lines, which are answered, and the
    // script has made the first calls of the next line, or of the end of input, and none besides but the shut.
    ensures stopped { OfScriptAt result words.now 5 (S.left src.old) (WritesBrokenOff (K.held out.old) (K.held out.new)) }

    // 6: the source gave more than 2^28 bytes. The lines of a front of them are answered whole that is at most a read
    // shorter than the limit.
    ensures too_long { ReadsUpTo (S.left src.old) (S.left src.new) (result.status ≡ 6) }
    ensures answered_up_to { OfGiven result words.now 6 (S.left src.old) (S.left src.new) (WritesUpTo (K.held out.old) (K.held out.new)) }

    // However a run ends: what it has written is a front of the text; or the whole of it, and a front of the trace. It
    // goes by lines: only the answers to the last line that was answered may stand there in part, and nothing of a line
    // that wasn't answered. A load reads nothing, and what it has written is a front of its line.
    ensures by_lines { OfScript result words.now (S.left src.old) (WritesByLines (K.held out.old) (K.held out.new)) }
    ensures front { OfScript result words.now (S.left src.old) (WritesFront (K.held out.old) (K.held out.new)) }
    ensures load_front { ForLoad words.now (λ load. AppendsFront (K.held out.old) (K.held out.new) (load_line load.seed load.count)) }
    ensures load_source { AsksLoad words.now → src.new ≡ src.old }
    ensures load_status { AsksLoad words.now → (result.status ≡ 0) ⊎ (result.status ≡ 4) ⊎ (result.status ≡ 5) }
    ensures known { result.status ≤ 6 }

    // Whatever ended it: each entry of a history is right for those before it, each instance is what its template makes
    // of its children, and only the first script, or the load, the workers and the clients made entries. The board was
    // shut once; after that the workers alone made entries, and all of these are work. So beside no workers the shut is
    // last. Only under 2 and 5, and with clients from 3 on, may there be no board; then nothing was recorded.
    ensures legal { LegalReg result.registry }
    ensures legal_board { LegalBoard result.board }
    ensures faithful { Made table result.registry }
    ensures callers { AreCallersBeside (workers_for words.now) (clients_for words.now) result.registry result.board }
    ensures closed { IsShutOnce (workers_for words.now) result.board ⊎ IsUnbegun result words.now }

    // A command over streams that don't fail, and an input within the limit, reaches the end where memory suffices.
    ensures complete { AsksScripts words.now → ¬ (Rose (S.faults src.old) (S.faults src.new))
        → ¬ (Rose (K.faults out.old) (K.faults out.new)) → EndsOrWantsMemory result (S.left src.old) }
{
    nothing_is_front();
    nothing_is_by_lines();
    nothing_is_broken_off();
    let mode = match mode_for(alloc, words) {
        Ok(mode) => mode,
        Err(error) => return outcome_of(RunResult::refused_run(alloc, error)),
    };
    let options = match mode {
        Mode::Script(options) => options,
        Mode::Load(options) => return outcome_of(run_load(rt, alloc, &options, gate, out)),
        Mode::Clients(options) => {
            return outcome_of(run_clients(rt, alloc, &options, gate, src, out));
        }
    };
    outcome_of(run_traced(rt, alloc, &options, gate, src, out))
}
