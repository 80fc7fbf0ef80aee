//! Parses the words after the program's name.

ghost use Rattle.std.specs.Prelude.{◌≡◌, IfSome, length, map};
ghost use Rattle.std.specs.Str.{bytes_eq};
ghost use Rattle.std.specs.String.{string_bytes};
ghost use Rattle.dfr_program.specs.Words as spec;

use comtrade_write::Kind;

/// What the words ask for. A number is the index, from 0, of the first word that names a file.
#[derive(Clone, Copy, Debug, PartialEq, Eq)]
pub enum Command {
    /// Replay the script on standard input.
    Replay(Kind),
    /// Record a script file in threads. After it comes the folder for the files of its records.
    Live(Kind, usize),
    /// Read a configuration file and its data file.
    Read(usize),
}

fn is_word(word: &String, text: &str) -> bool
    ensures { result ≡ bytes_eq (string_bytes word.now) text.now }
{
    word.as_str() == text
}

/// The kind that the word names: `ascii` or `binary`.
fn kind_of(word: &String) -> Option<Kind>
    ensures { result ≡ spec.kind (string_bytes word.now) }
{
    if is_word(word, "ascii") {
        Some(Kind::Ascii)
    } else if is_word(word, "binary") {
        Some(Kind::Binary)
    } else {
        None
    }
}

/// Parses `replay`, `replay --kind K`, `live SCRIPT DIR`, `live --kind K SCRIPT DIR` or
/// `read CFG DAT`. No word at all means `replay`. `ascii` is the default kind.
///
/// Returns None for any other words. `live` followed by two words names no kind. It does
/// not allocate.
pub fn command_of(words: &[String]) -> Option<Command>
    ensures value { result ≡ spec.command (map string_bytes words.now) }
    ensures files { IfSome result (spec.NamesFiles (length words.now)) }
{
    match words {
        [] => Some(Command::Replay(Kind::Ascii)),
        [verb] if is_word(verb, "replay") => Some(Command::Replay(Kind::Ascii)),
        [verb, flag, name] if is_word(verb, "replay") && is_word(flag, "--kind") => {
            match kind_of(name) {
                Some(kind) => Some(Command::Replay(kind)),
                None => None,
            }
        }
        [verb, _, _] if is_word(verb, "live") => Some(Command::Live(Kind::Ascii, 1)),
        [verb, flag, name, _, _] if is_word(verb, "live") && is_word(flag, "--kind") => {
            match kind_of(name) {
                Some(kind) => Some(Command::Live(kind, 3)),
                None => None,
            }
        }
        [verb, _, _] if is_word(verb, "read") => Some(Command::Read(1)),
        _ => None,
    }
}
