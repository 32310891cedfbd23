//! Options: `--name value` in two words, or `--name=value` in one.

ghost use Rattle.std.specs.Prelude.{◌≡◌, ◌<◌, IfSome, MatchOption, [], length, map, option_map};
ghost use Rattle.std.specs.List.{list_any};
ghost use Rattle.std.specs.Option.{option_copied};
ghost use Rattle.std.specs.Str.{bytes_eq};
ghost use Rattle.std.specs.String.{string_bytes};
ghost use Rattle.ghg_words.specs.Options.{are_named, leading, only, option_word, options_in, seen, text_of, value_of, with_first};

/// The options of a command line: names with their values.
#[derive(Clone, Copy)]
pub struct Options<'a> {
    words: &'a [String],
}

/// The options that the words are. `None` if a word belongs to none.
pub fn read_options<'a>(words: &'a [String]) -> Option<Options<'a>>
    ensures { option_map seen result ≡ options_in (map string_bytes words.now) }
{
    let mut rest = words;
    while let Some(first) = first_option(rest) {
        rest = first.after;
    }
    if rest.is_empty() {
        Some(Options { words })
    } else {
        None
    }
}

// An option with the words after it.
#[derive(Clone, Copy)]
struct FirstOption<'a> {
    name: &'a str,
    value: &'a str,
    after: &'a [String],
}

// The option that the words begin with.
fn first_option<'a>(words: &'a [String]) -> Option<FirstOption<'a>>
    ensures option { MatchOption result
        (leading (map string_bytes words.now) ≡ ([], map string_bytes words.now))
        (λ first. leading (map string_bytes words.now)
        ≡ with_first (first.name.now, first.value.now) (leading (map string_bytes first.after.now))) }
    ensures shorter { IfSome result (λ first. length first.after.now < length words.now) }
{
    let (word, after) = words.split_first()?;
    let (name, value) = option_word(word.as_str())?;
    match value {
        Some(value) => Some(FirstOption { name, value, after }),
        None => {
            let (value, after) = after.split_first()?;
            Some(FirstOption {
                name,
                value: value.as_str(),
                after,
            })
        }
    }
}

// The name of an option and, where it stands in the same word, its value.
fn option_word(word: &str) -> Option<(&str, Option<&str>)>
    ensures { option_map (λ x. (x.0.now, option_copied x.1)) result ≡ option_word word.now }
{
    let text = word.strip_prefix("--")?;
    match text.split_once('=') {
        Some((name, value)) => Some((name, Some(value))),
        None => Some((text, None)),
    }
}

impl<'a> Options<'a> {
    /// These options. `None` if one has another name than these, or if two have the same.
    #[tactic(auto, unfolding(crate::specs::Options::only))]
    pub fn only(self, names: &[&str]) -> Option<Options<'a>>
        ensures { option_map seen result ≡ only (map text_of names.now) (seen self.entry) }
    {
        if self.are_named(names) {
            Some(self)
        } else {
            None
        }
    }

    // Whether each has one of these names, and no two have the same.
    #[tactic(auto, using(crate::proofs::Words::among_texts), unfolding(crate::specs::Options::are_named))]
    fn are_named(self, names: &[&str]) -> bool
        ensures { result ≡ are_named (map text_of names.now) (seen self.entry) }
    {
        let mut rest = self.words;
        while let Some(first) = first_option(rest) {
            let later = Options { words: first.after };
            if !is_among(first.name, names) || later.value_of(first.name).is_some() {
                return false;
            }
            rest = first.after;
        }
        true
    }

    /// The value of the first option of that name.
    #[tactic(auto, unfolding(crate::specs::Options::value_of))]
    pub fn value_of(self, name: &str) -> Option<&'a str>
        ensures { option_copied result ≡ value_of name.now (seen self.entry) }
    {
        let mut rest = self.words;
        while let Some(first) = first_option(rest) {
            if first.name == name {
                return Some(first.value);
            }
            rest = first.after;
        }
        None
    }
}

// Whether the name is one of these.
fn is_among(name: &str, names: &[&str]) -> bool
    ensures { result ≡ list_any (λ known. bytes_eq known.now name.now) names.now }
{
    names.iter().any(|known| *known == name)
}
