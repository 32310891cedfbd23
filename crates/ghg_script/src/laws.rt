//! Laws of scripts.

ghost use Rattle.std.specs.Prelude.{◌≡◌};
ghost use Rattle.ghg_script.specs.declared.reading.TheConstants.{LONGEST_LINE, MOST_COMMANDS};
ghost use Rattle.ghg_script.specs.declared.script.TheConstants.{LENGTH_DIGITS, LONGEST_TABLE};
ghost use Rattle.ghg_script.specs.declared.word.TheConstants.{LONGEST_ID};
ghost use Rattle.ghg_script.specs.Commands.{ParsesTexts};
ghost use Rattle.ghg_script.specs.Reading.{ReadsLocally, ReadsOnce};
ghost use Rattle.ghg_script.specs.Review.{IsReviewFormOf, review_forms};
ghost use Rattle.ghg_script.specs.Script.{IsFormOf, SaysForms, script_forms};

use crate::dialect::Dialect;

/// In every dialect, bytes begin with a command exactly where its text is a prefix of them.
pub fn parses_texts<Q, D: Dialect<Q>>()
    ensures { ParsesTexts D.forms }
{}

/// What each line says, in the script of `compile` and in that of `review`.
pub fn lines_say_forms()
    ensures script { SaysForms script_forms IsFormOf }
    ensures review { SaysForms review_forms IsReviewFormOf }
{}

/// In every dialect, what stands behind the line of END changes nothing of what bytes read as.
pub fn reads_locally<Q, D: Dialect<Q>>()
    ensures { ReadsLocally D.forms }
{}

/// In every dialect, no bytes begin with two scripts.
pub fn reads_once<Q, D: Dialect<Q>>()
    ensures { ReadsOnce D.forms }
{}

/// The limits of a script: how many commands it has, its end included, how many bytes a line has before its
/// line feed, how many bytes an id and the name of a table have, and how many digits a length has.
pub fn limits_are_numbers()
    ensures commands { MOST_COMMANDS ≡ 1_000_000 }
    ensures line { LONGEST_LINE ≡ 120 }
    ensures id { LONGEST_ID ≡ 60 }
    ensures table { LONGEST_TABLE ≡ 16 }
    ensures length { LENGTH_DIGITS ≡ 8 }
{}
