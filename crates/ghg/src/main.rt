//! Compiles national greenhouse gas inventories after the 2006 IPCC Guidelines: answers a script of
//! submissions and requests for tables, or serves such requests over HTTP.
//!
//! [`ghg_run::run_counted`] does all that the program does, and its contract says what that is. `main` hands
//! it the process's words, input, output, files and connections, and ends with its status.
#![tactic(auto)]

ghost use Rattle.std.specs.Prelude.{◌≡◌, [], drop, IfOk, MatchResult};
ghost use Rattle.std.specs.IoError.{error_kind};
ghost use Rattle.std.specs.Vec.Iter.{into_iter_items};

use ghg_keeper::{FileKeeper, Unknown};
use ghg_outer::{Door, InputSource, OutputSink, Source, TcpDoor};
use ghg_run::run_counted;
use ghg_words::Status;
use ghg_workers::OpenGate;
use sqlite::Start;
use std::alloc::{AllocError, Global};
use std::env::Args;
use std::hash::RandomState;
use std::io::{BufReader, ErrorKind};
use std::marker::Brand;
use std::process::ExitCode;
use std::sync::ledger::Blank;
use std::thread::Threads;
use std::{env, io};

// The words behind the program's name. There are none where one of them is not UTF-8, which is no command
// either.
fn words_behind(alloc: Global, args: io::Result<Args>) -> Result<Vec<String>, AllocError>
    ensures { IfOk result (λ words. MatchResult args
        (λ all. words.items ≡ drop 1 (into_iter_items all))
        (λ error. (words.items ≡ []) × (error_kind error ≡ ErrorKind.InvalidData))) }
{
    match args {
        Ok(all) => all_but_first(alloc, all),
        Err(error) if error.kind() == ErrorKind::InvalidData => Ok(Vec::new(alloc)),
        Err(_) => Err(AllocError),
    }
}

fn all_but_first(alloc: Global, words: Args) -> Result<Vec<String>, AllocError>
    ensures { IfOk result (λ rest. rest.items ≡ drop 1 (into_iter_items words)) }
{
    words.skip(1).collect(alloc)
}

// No clause can tell what the process's own words and streams hold. So `main` only names them, and the
// functions that it hands them to are over any.
fn main(rt: HostRuntime) -> ExitCode {
    let alloc = rt.alloc();
    let Ok(words) = words_behind(alloc, env::args(&rt)) else {
        return ExitCode::from(Status::OutOfMemory.code());
    };
    let Ok(reader) = BufReader::new(alloc, rt.reader()) else {
        return ExitCode::from(Status::OutOfMemory.code());
    };
    let Ok(hasher) = RandomState::new(&rt) else {
        return ExitCode::from(Status::OutOfMemory.code());
    };
    let mut input = InputSource::new(reader);
    let mut door = TcpDoor::new(&rt);
    let status = run_over(&rt, &rt, hasher, &words, &mut input, &mut door, Unknown);
    ExitCode::from(status)
}

// Runs over any first contents of the files of a store, and then makes one file of the two.
fn run_over<S: Source, D: Door, T: Threads + Sync, B: Start>(
    host: &HostRuntime,
    rt: &T,
    hasher: RandomState,
    words: &[String],
    input: &mut S,
    door: &mut D,
    start: B,
) -> u8 {
    let mut keeper = FileKeeper::new(host, start);
    let status = run_counted::<_, _, _, _, _, _, Brand>(
        rt,
        host.alloc(),
        hasher,
        words,
        input,
        &mut OutputSink::new(io::writer(host)),
        &mut keeper,
        door,
        &OpenGate,
        Blank::new(1),
    );
    if let Some(store) = keeper.into_store() {
        // What was acknowledged is kept already. Where its log cannot be copied, the two files are the store.
        drop(store.close());
    }
    status
}
