//! Commands, and the words that ask for them.

ghost use Rattle.std.specs.Prelude.{◌≡◌, ◌≤◌, IfSome, codes, map, option_map, option_and_then};
ghost use Rattle.std.specs.String.{string_bytes};
ghost use Rattle.ghg_words.specs.Command.{AreWorkers, IsBounded, command_in, command_named, compile_of, generate_of, number_from, options_of_compile, options_of_generate, options_of_review, options_of_serve, options_of_splice, review_of, serve_of, settings_of, splice_of, spliced_unit, workers_of};
ghost use Rattle.ghg_words.specs.Options.{seen, value_of};

use crate::options::{Options, read_options};
use crate::values::{StoreName, number_within};
use ghg_splice::Method;
use ghg_units::{Name, Unit, unit_named};

/// What a command line asks for.
///
/// | First word | Options, each at most once, in any order |
/// |---|---|
/// | `compile` | `--workers`, `--store` |
/// | `serve` | `--port`, `--connections`; `--workers`, `--store` |
/// | `generate` | `--seed`, `--lines`; `--workers` |
/// | `splice` | `--method`, `--name`, `--unit` |
/// | `review` | `--workers` |
///
/// Those before a semicolon, and all of `splice`, have to stand. Without `--workers` there is one worker.
#[derive(Drop)]
pub enum Command<'a> {
    /// To answer a script of submissions and requests for tables.
    Compile(Settings<'a>),
    /// To answer the same requests over HTTP, one connection after the other.
    Serve(Service<'a>),
    /// To answer the submissions that a seed decides, and write a summary.
    Generate(Sample),
    /// To fill the years that a series lacks, and write the submission that enters them.
    Splice(Splicing),
    /// To answer a script that may also freeze the present data as a version, compare them with one, and ask
    /// for the uncertainty of a trend.
    Review(Review),
}

/// What `compile` and `serve` take.
#[derive(Debug, Drop)]
pub struct Settings<'a> {
    /// The number of workers, from 1 to 64.
    pub workers: u32,
    /// The store that keeps the accepted submissions, where one is named.
    pub store: Option<StoreName<'a>>,
}

/// How connections are served.
#[derive(Debug, Drop)]
pub struct Service<'a> {
    pub settings: Settings<'a>,
    /// The port on loopback, from 1.
    pub port: u16,
    /// How many connections are served, from 1 to 1,000,000.
    pub connections: u32,
}

/// The submissions that are generated.
#[derive(Debug, Drop)]
pub struct Sample {
    /// The number of workers, from 1 to 64.
    pub workers: u32,
    /// The seed of the draws, at most 2,147,483,647.
    pub seed: u32,
    /// How many lines there are, from 1 to 1,000.
    pub lines: u32,
}

/// What is spliced, and how.
#[derive(Drop)]
pub struct Splicing {
    /// The technique.
    pub method: Method,
    /// The series that is filled, which is no global warming potential.
    pub name: Name,
    /// The unit of its figures, other than `yr`.
    pub unit: Unit,
}

/// How the script of a review is answered.
#[derive(Debug, Drop)]
pub struct Review {
    /// The number of workers, from 1 to 64.
    pub workers: u32,
}

/// Reads the words after the program's name. `None` where they are no command.
#[tactic(auto, unfolding(crate::specs::Command::command_in))]
pub fn read_command(words: &[String]) -> Option<Command<'_>>
    ensures command { result ≡ command_in (map string_bytes words.now) }
    ensures bounds { IfSome result IsBounded }
{
    let (word, rest) = words.split_first()?;
    command_named(word.as_str(), read_options(rest)?)
}

// The command of that name, with these options.
fn command_named<'a>(word: &str, options: Options<'a>) -> Option<Command<'a>>
    ensures command { result ≡ command_named word.now (seen options.entry) }
    ensures bounds { IfSome result IsBounded }
{
    match word {
        "compile" => compile_with(options_of_compile(options)?),
        "serve" => serve_with(options_of_serve(options)?),
        "generate" => generate_with(options_of_generate(options)?),
        "splice" => splice_with(options_of_splice(options)?),
        "review" => review_with(options_of_review(options)?),
        _ => None,
    }
}

// The options, if `compile` takes them.
#[tactic(auto, unfolding(crate::specs::Command::options_of_compile))]
fn options_of_compile(options: Options<'_>) -> Option<Options<'_>>
    ensures { option_map seen result ≡ options_of_compile (seen options.entry) }
{
    options.only(&["workers", "store"])
}

// The options, if `serve` takes them.
#[tactic(auto, unfolding(crate::specs::Command::options_of_serve))]
fn options_of_serve(options: Options<'_>) -> Option<Options<'_>>
    ensures { option_map seen result ≡ options_of_serve (seen options.entry) }
{
    options.only(&["workers", "store", "port", "connections"])
}

// The options, if `generate` takes them.
#[tactic(auto, unfolding(crate::specs::Command::options_of_generate))]
fn options_of_generate(options: Options<'_>) -> Option<Options<'_>>
    ensures { option_map seen result ≡ options_of_generate (seen options.entry) }
{
    options.only(&["seed", "lines", "workers"])
}

// The options, if `splice` takes them.
#[tactic(auto, unfolding(crate::specs::Command::options_of_splice))]
fn options_of_splice(options: Options<'_>) -> Option<Options<'_>>
    ensures { option_map seen result ≡ options_of_splice (seen options.entry) }
{
    options.only(&["method", "name", "unit"])
}

// The options, if `review` takes them.
#[tactic(auto, unfolding(crate::specs::Command::options_of_review))]
fn options_of_review(options: Options<'_>) -> Option<Options<'_>>
    ensures { option_map seen result ≡ options_of_review (seen options.entry) }
{
    options.only(&["workers"])
}

fn compile_with(options: Options<'_>) -> Option<Command<'_>>
    ensures command { result ≡ compile_of (seen options.entry) }
    ensures bounds { IfSome result IsBounded }
{
    Some(Command::Compile(settings_from(options)?))
}

fn serve_with(options: Options<'_>) -> Option<Command<'_>>
    ensures command { result ≡ serve_of (seen options.entry) }
    ensures bounds { IfSome result IsBounded }
{
    Some(Command::Serve(Service {
        settings: settings_from(options)?,
        port: number_from(options, "port", 1, 65_535)? as u16,
        connections: number_from(options, "connections", 1, 1_000_000)?,
    }))
}

fn generate_with<'a>(options: Options<'_>) -> Option<Command<'a>>
    ensures command { result ≡ generate_of (seen options.entry) }
    ensures bounds { IfSome result IsBounded }
{
    Some(Command::Generate(Sample {
        workers: workers_from(options)?,
        seed: number_from(options, "seed", 0, 2_147_483_647)?,
        lines: number_from(options, "lines", 1, 1_000)?,
    }))
}

fn splice_with<'a>(options: Options<'_>) -> Option<Command<'a>>
    ensures command { result ≡ splice_of (seen options.entry) }
    ensures bounds { IfSome result IsBounded }
{
    Some(Command::Splice(Splicing {
        method: Method::named(options.value_of("method")?)?,
        name: Name::plain(options.value_of("name")?.as_bytes())?,
        unit: unit_from(options.value_of("unit")?)?,
    }))
}

fn review_with<'a>(options: Options<'_>) -> Option<Command<'a>>
    ensures command { result ≡ review_of (seen options.entry) }
    ensures bounds { IfSome result IsBounded }
{
    Some(Command::Review(Review {
        workers: workers_from(options)?,
    }))
}

// The unit that a text names, which is no half-life's.
fn unit_from(text: &str) -> Option<Unit>
    ensures { result ≡ spliced_unit text.now }
{
    match unit_named(text.as_bytes())? {
        Unit::Year => None,
        unit => Some(unit),
    }
}

// The number that an option gives, between two bounds.
#[tactic(auto, unfolding(crate::specs::Command::number_from))]
fn number_from(options: Options<'_>, name: &str, low: u32, high: u32) -> Option<u32>
    ensures value { result ≡ number_from name.now low high (seen options.entry) }
    ensures least { IfSome result (λ n. low ≤ n) }
    ensures bound { IfSome result (λ n. n ≤ high) }
{
    number_within(low, high, options.value_of(name)?)
}

// The settings that the options give.
fn settings_from(options: Options<'_>) -> Option<Settings<'_>>
    ensures value { result ≡ settings_of (seen options.entry) }
    ensures bounds { IfSome result (λ settings. AreWorkers settings.workers) }
{
    let workers = workers_from(options)?;
    let store = match options.value_of("store") {
        None => None,
        Some(text) => Some(StoreName::new(text)?),
    };
    Some(Settings { workers, store })
}

// The number of workers that the options give.
fn workers_from(options: Options<'_>) -> Option<u32>
    ensures value { result ≡ workers_of (value_of (codes "workers") (seen options.entry)) }
    ensures bounds { IfSome result AreWorkers }
{
    match options.value_of("workers") {
        None => Some(1),
        Some(text) => number_within(1, MOST_WORKERS, text),
    }
}

/// The most workers of a command.
const MOST_WORKERS: u32 = 64;
