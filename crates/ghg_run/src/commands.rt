//! All that the program does.

ghost use Rattle.std.specs.Prelude.{◌≡◌, ◌≤◌, ◌<◌, false, None};
ghost use Rattle.std.specs.Option.{is_some};
ghost use Rattle.ghg_run.specs.Run.{Generates, IsRun, asked_for, opens_door, reads_input, store_in};
ghost use Rattle.ghg_run.specs.Serve.{register_of};
ghost use Rattle.ghg_outer.specs.Counts.{IsCounted};

use crate::opening::open_office;
use crate::serving::serve_office;
use crate::splicing::splice;
use ghg_keeper::Keeper;
use ghg_office::Office;
use ghg_outer::{Door, Sink, Source};
use ghg_review::answer_review;
use ghg_script::Script;
use ghg_session::{Environment, answer_script, report};
use ghg_steps::Steps;
use ghg_versions::Desk;
use ghg_words::{Command, Sample, Settings, Status, read_command};
use ghg_workers::{Gate, Workers};
use std::alloc::{AllocError, Global};
use std::hash::RandomState;
use std::sync::ledger::{Blank, Ledger};
use std::thread::Threads;

/// Does what the words ask for, and answers the number of the status that the program ends with.
///
/// The word `compile` asks it to answer the script that the input holds, `serve` to serve connections at a
/// port of loopback, `generate` to write the summary of a run of generated submissions, `splice` to write a
/// submission that fills a series, and `review` to answer a script that may also freeze the present figures
/// and ask what became of them. With `--store NAME`, `compile` and `serve` first replay the submissions that
/// were kept in that store, and keep there those that are accepted now. For each submission no more nodes are
/// evaluated than its rows affect.
///
/// | Status | Cause | Written, behind the replies to the requests that were answered |
/// |---|---|---|
/// | 0 | the script was answered to its end | nothing |
/// | 0 | all connections were served | nothing |
/// | 0 | the summary or the spliced series is due | all of it |
/// | 2 | the words are no command | the line `bad command line` |
/// | 3 | the input is no script | the line with the number of the first malformed command |
/// | 4 | the input failed | nothing |
/// | 5 | the output failed | a proper prefix of what is due next |
/// | 6 | the store failed | nothing |
/// | 7 | the door failed | nothing |
/// | 8 | memory ran out | nothing; if the output grows, perhaps a proper prefix of what is due next |
/// | 9 | a kept submission is refused | the line with its number and the reply to it |
/// | 10 | the series is not spliced | the line of the refusal |
///
/// With each of them the rows that a store tells are the submissions that were accepted: those that it had,
/// and those of this run, also where the reply to one was broken off.
///
/// The contract says this of what the objects of the outside tell before and after: the tape of the input
/// and that of the output, the shelf of the keeper, and the register of the door.
pub fn run<S: Source, W: Sink, K: Keeper, D: Door, G: Gate, T: Threads + Sync, L: Ledger>(
    rt: &T,
    alloc: Global,
    hasher: RandomState,
    words: &[String],
    input: &mut S,
    out: &mut W,
    keeper: &mut K,
    door: &mut D,
    gate: &G,
    steps: &mut Steps<L>,
) -> u8
    // What was done for the command that the words ask for, with a status that has its cause.
    ensures run { IsRun (asked_for words.now) (K.shelf keeper.old) (K.shelf keeper.new)
        (S.tape input.old) (S.tape input.new) (W.tape out.old) (W.tape out.new)
        (register_of D.Link.Told.tape (D.register door.old))
        (register_of D.Link.Told.tape (D.register door.new)) steps.old steps.new result }
    // What the command does not ask for is as it was.
    ensures unread { reads_input (asked_for words.now) ≡ false → input.new ≡ input.old }
    ensures unkept { store_in (asked_for words.now) ≡ None → keeper.new ≡ keeper.old }
    ensures unopened { opens_door (asked_for words.now) ≡ false → door.new ≡ door.old }
{
    match read_command(words) {
        Some(Command::Compile(settings)) => {
            let environment = environment(rt, alloc, &settings, gate);
            match open_office(hasher, &environment, &settings.store, out, keeper, steps) {
                Ok(mut office) => answer_script::<Script, S, W, K, G, T, L>(
                    &environment,
                    input,
                    out,
                    &mut office,
                    keeper,
                    steps,
                ).code(),
                Err(status) => status.code(),
            }
        }
        Some(Command::Serve(service)) => {
            let settings = &service.settings;
            let environment = environment(rt, alloc, settings, gate);
            match open_office(hasher, &environment, &settings.store, out, keeper, steps) {
                Ok(office) => {
                    serve_office(&environment, &service, office, keeper, door, steps).code()
                }
                Err(status) => status.code(),
            }
        }
        Some(Command::Generate(sample)) => {
            let workers = Workers {
                threads: rt,
                count: sample.workers,
                gate,
            };
            generate(alloc, hasher, &workers, &sample, out, steps).code()
        }
        Some(Command::Splice(splicing)) => splice(alloc, &splicing, input, out).code(),
        Some(Command::Review(settings)) => {
            let workers = Workers {
                threads: rt,
                count: settings.workers,
                gate,
            };
            let mut desk = Desk::new(alloc, Office::new(alloc, hasher));
            answer_review(alloc, &workers, input, out, &mut desk, steps).code()
        }
        None => report(out, BAD_COMMAND_LINE, Status::BadCommandLine).code(),
    }
}

const BAD_COMMAND_LINE: &[u8] = b"bad command line\n";

/// Does what the words ask for, as [`run`] does, and counts the steps in a new ledger, from 0.
pub fn run_counted<S: Source, W: Sink, K: Keeper, D: Door, G: Gate, T: Threads + Sync, L: Ledger>(
    rt: &T,
    alloc: Global,
    hasher: RandomState,
    words: &[String],
    input: &mut S,
    out: &mut W,
    keeper: &mut K,
    door: &mut D,
    gate: &G,
    blank: Blank,
) -> u8
    requires name { blank.name ≡ L.name }
    requires parts { blank.parts ≡ L.parts }
    requires some { 0 < blank.parts }
    // Of the steps it says only that there is such a number, since no type of the signature may name the
    // ledger. The bound on them is a clause of `run`.
    ensures run { (steps : _) × IsRun (asked_for words.now) (K.shelf keeper.old) (K.shelf keeper.new)
        (S.tape input.old) (S.tape input.new) (W.tape out.old) (W.tape out.new)
        (register_of D.Link.Told.tape (D.register door.old))
        (register_of D.Link.Told.tape (D.register door.new)) 0 steps result }
    ensures unread { reads_input (asked_for words.now) ≡ false → input.new ≡ input.old }
    ensures unkept { store_in (asked_for words.now) ≡ None → keeper.new ≡ keeper.old }
    ensures unopened { opens_door (asked_for words.now) ≡ false → door.new ≡ door.old }
{
    let mut steps = Steps::<L>::new(blank);
    run(
        rt, alloc, hasher, words, input, out, keeper, door, gate, &mut steps,
    )
}

// What a command with these settings works with.
fn environment<'a, T, G>(
    threads: &'a T,
    alloc: Global,
    settings: &Settings<'_>,
    gate: &'a G,
) -> Environment<'a, T, G>
    ensures workers { result.workers.count ≡ settings.now.workers }
    ensures stored { result.stored ≡ is_some settings.now.store }
{
    Environment {
        alloc,
        workers: Workers {
            threads,
            count: settings.workers,
            gate,
        },
        stored: settings.store.is_some(),
    }
}

// Runs the generated submissions, and writes the summary.
fn generate<W: Sink, G: Gate, T: Threads + Sync, L: Ledger>(
    alloc: Global,
    hasher: RandomState,
    workers: &Workers<'_, T, G>,
    sample: &Sample,
    out: &mut W,
    steps: &mut Steps<L>,
) -> Status
    requires { (1 ≤ workers.now.count) × (workers.now.count ≤ 64) }
    ensures run { Generates sample.now (W.tape out.old) (W.tape out.new) steps.old steps.new result }
    ensures counted { IsCounted (W.tape out.old).faults (W.tape out.new).faults
        (result ≡ Status.OutputFailed) }
{
    match ghg_generator::generate(alloc, hasher, workers, sample.seed, sample.lines, steps) {
        Ok(summary) => report(out, &summary, Status::Done),
        Err(AllocError) => Status::OutOfMemory,
    }
}
