//! How many records, bytes and changes the command line asks for.

use clap::ArgMatches;
use dfr_folder::name_in;

/// The most changes of a contact in a second, if nothing is said.
const CHATTER: u64 = 20;

/// The most changes of a contact in a second that may be asked for.
const MOST_CHATTER: u64 = 1_000;

/// The number given with an option, or None without the option. An error if it isn't a number or is
/// less than 1.
pub(crate) fn count_of(found: &ArgMatches<'_>, name: &str) -> Result<Option<u64>, ()> {
    match found.get_str(name) {
        None => Ok(None),
        Some(text) => match text.parse::<u64>() {
            Ok(n) if n > 0 => Ok(Some(n)),
            _ => Err(()),
        },
    }
}

/// The most records and the most bytes of records to keep; at most one of them is given. The error
/// is the text of a usage error.
pub(crate) fn kept_of(found: &ArgMatches<'_>) -> Result<(Option<u64>, Option<u64>), &'static str> {
    let Ok(pairs) = count_of(found, "keep") else {
        return Err("error: --keep expects a number of records, 1 or more\n");
    };
    let Ok(bytes) = count_of(found, "keep-bytes") else {
        return Err("error: --keep-bytes expects a number of bytes, 1 or more\n");
    };
    if pairs.is_some() && bytes.is_some() {
        return Err("error: --keep cannot be combined with --keep-bytes\n");
    }
    Ok((pairs, bytes))
}

/// The path of the file of events, and the most changes of a contact in a second that it gets. The
/// error is the text of a usage error.
pub(crate) fn events_of<'a>(
    found: &ArgMatches<'a>,
) -> Result<(Option<&'a str>, usize), &'static str> {
    let events = found.get_str("events");
    let chatter = match count_of(found, "chatter") {
        Ok(None) => CHATTER,
        Ok(Some(_)) if events.is_none() => return Err("error: --chatter needs --events\n"),
        Ok(Some(n)) if n <= MOST_CHATTER => n,
        _ => return Err("error: --chatter expects a number of changes, 1 to 1000\n"),
    };
    if let Some(path) = events
        && let Some(name) = path.rsplit('/').next()
        && name_in(name.as_bytes()).is_some()
    {
        return Err("error: --events: FILE has a name as the files of records\n");
    }
    Ok((events, chatter as usize))
}
