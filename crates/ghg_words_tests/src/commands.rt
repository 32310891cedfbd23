//! Each option of the command line, and the same lines as `clap` reads them.

use clap::{Arg, ArgAction, ArgMatches, Error};
use ghg_units::unit_word;
use ghg_words::{Command, read_command};
use std::alloc::{AllocError, Global};
use std::process::Abort;
use std::str;
use std::test::Fail;

// An option of commands.
struct Case {
    name: &'static str,
    // The commands that take it.
    commands: &'static [&'static str],
    // What they have without it. `None` where they need it.
    default: Option<&'static str>,
    // Texts that it takes, and what the commands have then.
    taken: &'static [(&'static str, &'static str)],
    // Texts that it does not take.
    refused: &'static [&'static str],
}

const OPTIONS: &[Case] = &[
    Case {
        name: "workers",
        commands: &["compile", "serve", "generate", "review"],
        default: Some("1"),
        taken: &[("7", "7"), ("64", "64"), ("0000000001", "1")],
        refused: &["", "0", "65", "x", "00000000001"],
    },
    Case {
        name: "store",
        commands: &["compile", "serve"],
        default: Some("None"),
        taken: &[
            ("s", "Some(StoreName { text: \"s\" })"),
            ("help", "Some(StoreName { text: \"help\" })"),
        ],
        refused: &["", ".x", "-x"],
    },
    Case {
        name: "port",
        commands: &["serve"],
        default: None,
        taken: &[("8000", "8000"), ("65535", "65535")],
        refused: &["0", "65536", "00000008000"],
    },
    Case {
        name: "connections",
        commands: &["serve"],
        default: None,
        taken: &[("2", "2"), ("1000000", "1000000")],
        refused: &["0", "1000001"],
    },
    Case {
        name: "seed",
        commands: &["generate"],
        default: None,
        taken: &[("0", "0"), ("2147483647", "2147483647")],
        refused: &["-1", "2147483648"],
    },
    Case {
        name: "lines",
        commands: &["generate"],
        default: None,
        taken: &[("1", "1"), ("1000", "1000")],
        refused: &["0", "1001"],
    },
    Case {
        name: "method",
        commands: &["splice"],
        default: None,
        taken: &[("linear", "linear"), ("overlap", "overlap")],
        refused: &["mean", "Linear"],
    },
    Case {
        name: "name",
        commands: &["splice"],
        default: None,
        taken: &[("A", "A"), ("ELEC.GAS", "ELEC.GAS")],
        refused: &["a", "GWP.CO2"],
    },
    Case {
        name: "unit",
        commands: &["splice"],
        default: None,
        taken: &[("TJ", "TJ"), ("kt", "kt")],
        refused: &["tj", "yr"],
    },
];

const COMMANDS: &[&str] = &["compile", "serve", "generate", "splice", "review"];

// Lines that are no command, whatever the options are.
const NO_COMMANDS: &[&[&str]] = &[
    &[],
    &["help"],
    &["-h"],
    &["reviews"],
    &["compile", "--help"],
    &["compile", "--"],
    &["review", "x"],
];

impl Case {
    fn is_of(&self, command: &str) -> bool {
        self.commands.iter().any(|one| *one == command)
    }

    // A text that it takes.
    fn text(&self) -> &'static str {
        match self.taken.first() {
            Some((text, _)) => *text,
            None => "",
        }
    }
}

// Fails with the words where they are not read as they have to be.
fn check(rt: &impl Abort, holds: bool, words: &[String]) {
    assert!(rt; holds, "{words:?}");
}

fn push(alloc: Global, words: &mut Vec<String>, word: &str) -> Result<(), AllocError> {
    words.push(String::from_str(alloc, word)?)?;
    Ok(())
}

// Appends an option in two words.
fn push_option(
    alloc: Global,
    words: &mut Vec<String>,
    name: &str,
    text: &str,
) -> Result<(), AllocError> {
    words.push(format!(in alloc; "--{name}")?)?;
    push(alloc, words, text)
}

// A command with the options that it needs, but for the one of a name.
fn line_without(alloc: Global, command: &str, name: &str) -> Result<Vec<String>, AllocError> {
    let mut words = Vec::new(alloc);
    push(alloc, &mut words, command)?;
    for option in OPTIONS {
        if option.default.is_none() && option.is_of(command) && option.name != name {
            push_option(alloc, &mut words, option.name, option.text())?;
        }
    }
    Ok(words)
}

// The same with that option at the end, in two words.
fn line_ended(
    alloc: Global,
    command: &str,
    name: &str,
    text: &str,
) -> Result<Vec<String>, AllocError> {
    let mut words = line_without(alloc, command, name)?;
    push_option(alloc, &mut words, name, text)?;
    Ok(words)
}

// A command with all options that it takes, of which the one of a name stands at the front, in one word.
fn line_begun(
    alloc: Global,
    command: &str,
    name: &str,
    text: &str,
) -> Result<Vec<String>, AllocError> {
    let mut words = Vec::new(alloc);
    push(alloc, &mut words, command)?;
    words.push(format!(in alloc; "--{name}={text}")?)?;
    for option in OPTIONS {
        if option.is_of(command) && option.name != name {
            push_option(alloc, &mut words, option.name, option.text())?;
        }
    }
    Ok(words)
}

// What a command has, each option by its name.
fn shown(alloc: Global, command: &Command) -> Result<String, AllocError> {
    match command {
        Command::Compile(settings) => format!(in alloc; "{settings:?}"),
        Command::Serve(service) => format!(in alloc; "{service:?}"),
        Command::Generate(sample) => format!(in alloc; "{sample:?}"),
        Command::Review(review) => format!(in alloc; "{review:?}"),
        Command::Splice(splicing) => {
            let method = splicing.method.word();
            let name = str::from_utf8(splicing.name.as_bytes()).unwrap_or("");
            let unit = unit_word(splicing.unit);
            format!(in alloc; "{{ method: {method}, name: {name}, unit: {unit} }}")
        }
    }
}

// Whether words are a command that has this by the name of an option.
fn has(alloc: Global, words: &[String], name: &str, want: &str) -> Result<bool, AllocError> {
    match read_command(words) {
        None => Ok(false),
        Some(command) => {
            let shown = shown(alloc, &command)?;
            let within = format!(in alloc; "{name}: {want},")?;
            let last = format!(in alloc; "{name}: {want} }}")?;
            Ok(shown.contains(within.as_str()) || shown.contains(last.as_str()))
        }
    }
}

#[test]
fn texts_of_options_are_taken_at_any_place(rt: HostRuntime) -> Result<(), Fail> {
    let alloc = rt.alloc();
    for option in OPTIONS {
        for command in option.commands {
            for (text, want) in option.taken {
                let ended = line_ended(alloc, command, option.name, text)?;
                check(&rt, has(alloc, &ended, option.name, want)?, &ended);
                let begun = line_begun(alloc, command, option.name, text)?;
                check(&rt, has(alloc, &begun, option.name, want)?, &begun);
            }
        }
    }
    Ok(())
}

#[test]
fn options_are_left_out_where_they_have_a_default(rt: HostRuntime) -> Result<(), Fail> {
    let alloc = rt.alloc();
    for option in OPTIONS {
        for command in option.commands {
            let words = line_without(alloc, command, option.name)?;
            match option.default {
                Some(want) => check(&rt, has(alloc, &words, option.name, want)?, &words),
                None => check(&rt, read_command(&words).is_none(), &words),
            }
        }
    }
    Ok(())
}

#[test]
fn other_texts_are_no_command(rt: HostRuntime) -> Result<(), Fail> {
    let alloc = rt.alloc();
    for option in OPTIONS {
        for command in option.commands {
            for text in option.refused {
                let ended = line_ended(alloc, command, option.name, text)?;
                check(&rt, read_command(&ended).is_none(), &ended);
                let begun = line_begun(alloc, command, option.name, text)?;
                check(&rt, read_command(&begun).is_none(), &begun);
            }
        }
    }
    Ok(())
}

#[test]
fn an_option_stands_once_with_its_text_behind_its_own_commands(
    rt: HostRuntime,
) -> Result<(), Fail> {
    let alloc = rt.alloc();
    for option in OPTIONS {
        for command in COMMANDS {
            let mut words = line_ended(alloc, command, option.name, option.text())?;
            check(
                &rt,
                read_command(&words).is_some() == option.is_of(command),
                &words,
            );
            words.push(format!(in alloc; "--{}", option.name)?)?;
            check(&rt, read_command(&words).is_none(), &words);
            push(alloc, &mut words, option.text())?;
            check(&rt, read_command(&words).is_none(), &words);
        }
    }
    Ok(())
}

#[test]
fn all_else_is_no_command(rt: HostRuntime) -> Result<(), Fail> {
    let alloc = rt.alloc();
    for line in NO_COMMANDS {
        let mut words = Vec::new(alloc);
        for word in *line {
            push(alloc, &mut words, word)?;
        }
        check(&rt, read_command(&words).is_none(), &words);
    }
    Ok(())
}

// ---- the same by `clap`

// The reader with an option that takes one text.
fn with_option<'a>(
    alloc: Global,
    reader: clap::Command<'a>,
    name: &'a str,
    is_needed: bool,
) -> Result<clap::Command<'a>, AllocError> {
    let option = Arg::new(alloc, name)
        .long(name)
        .required(is_needed)
        .action(ArgAction::Set);
    reader.arg(option)
}

// What `clap` reads of the options of a command.
fn read_by_clap<'a>(
    alloc: Global,
    command: &'a str,
    words: &'a [&'a str],
) -> Result<ArgMatches<'a>, Error> {
    let mut reader = clap::Command::new(alloc, command);
    for option in OPTIONS {
        if option.is_of(command) {
            reader = with_option(alloc, reader, option.name, option.default.is_none())?;
        }
    }
    reader.try_get_matches_from(words)
}

// Whether `clap` reads words as a command whose option has this text; nothing where it takes them for none.
fn clap_has(alloc: Global, words: &[String], name: &str, text: Option<&str>) -> Result<bool, Fail> {
    let mut named = Vec::new(alloc);
    for word in words {
        named.push(word.as_str())?;
    }
    let command = match words.first() {
        Some(word) => word.as_str(),
        None => "",
    };
    match read_by_clap(alloc, command, &named) {
        Ok(matches) => Ok(text.is_some() && matches.get_str(name) == text),
        Err(_) => Ok(text.is_none()),
    }
}

#[test]
fn clap_reads_options_in_the_same_way(rt: HostRuntime) -> Result<(), Fail> {
    let alloc = rt.alloc();
    for option in OPTIONS {
        for command in COMMANDS {
            for (text, _) in option.taken {
                let want = if option.is_of(command) {
                    Some(*text)
                } else {
                    None
                };
                let ended = line_ended(alloc, command, option.name, text)?;
                check(&rt, clap_has(alloc, &ended, option.name, want)?, &ended);
                let begun = line_begun(alloc, command, option.name, text)?;
                check(&rt, clap_has(alloc, &begun, option.name, want)?, &begun);
            }
        }
    }
    Ok(())
}
