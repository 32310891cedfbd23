//! What the lines of a script may say.

ghost use Rattle.std.specs.Prelude.{◌≡◌};

use crate::command::Line;

/// The forms of the lines that begin a command. `Q` are the requests of one line.
pub trait Dialect<Q> {
    ghost use Rattle.ghg_script.specs.Commands.{Forms};

    /// What a line says, or nothing where it begins no command.
    ghost forms: { Forms Q };

    /// Reads a line, without its line feed.
    fn read_form(line: &[u8]) -> Option<Line<Q>>
        ensures { result ≡ forms line.now };
}
