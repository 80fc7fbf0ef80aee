//! What words ask for.

ghost use Rattle.std.specs.Prelude.{◌≡◌, IfOk, MatchOption, codes, map};
ghost use Rattle.std.specs.Borrow.{Bor};
ghost use Rattle.clap.specs.Words.{Text, found_of, kind_of, rows_of, subcommand_rows_of};
ghost use Rattle.comtrade_io.specs.Asking.{AnswersTo, Asks, AsksAs, Does, FitsNothing, Tells};
ghost use Rattle.comtrade_io.specs.Asking as Spec;
ghost use Rattle.comtrade_io.specs.Verbs as verbs;

use crate::command_line::commands::comtrade;
use crate::command_line::matched::{
    cursor_of, form_of, is_set, kind_of, named, names_of, part_of, picture_of, text_of, texts_of,
};
use crate::words::{
    Asked, Batch, Batched, Compared, Converted, Diagnosed, Importing, Names, Reported, Survey,
    Surveyed, View, Viewed, batch_of, new_names, survey_of, view_of,
};
use clap::error::ErrorKind;
use clap::{ArgMatches, Error};
use std::alloc::{AllocError, Global};

/// What is to be done with words.
#[derive(Debug, Drop)]
pub enum Answer<'a> {
    /// What they ask for.
    Do(Asked<'a>),
    /// A text that they ask for: help or the version.
    Print(String),
    /// Why they ask for nothing, as text of whole lines, with the words as they came.
    Refuse(String),
}

/// A pair, and what is printed of it.
#[tactic(auto, using(crate::proofs::MetCommands::no_view))]
fn viewed_of<'a>(view: View, found: &ArgMatches<'a>) -> Option<Asked<'a>>
    ensures { MatchOption result (FitsNothing (Asks (rows_of (found_of found.now)) (verbs.view_name view)))
        (Asks (rows_of (found_of found.now)) (verbs.view_name view)) }
{
    let names = names_of(found)?;
    Some(Asked::View(
        view,
        Viewed {
            names,
            part: part_of(found),
            form: form_of(found),
            lines: text_of(found, "LINES"),
            json: is_set(found, "json"),
            output: text_of(found, "output"),
        },
    ))
}

/// Records, a part of each, and how it is printed.
fn each_of<'a>(alloc: Global, found: &ArgMatches<'a>) -> Result<Batched<'a>, AllocError>
    ensures { IfOk result (Spec.IsBatched (rows_of (found_of found.now))) }
{
    Ok(Batched {
        names: texts_of(alloc, found, "NAMES")?,
        recursive: is_set(found, "recursive"),
        part: part_of(found),
        picture: picture_of(found),
        cursor: cursor_of(found),
        json: is_set(found, "json"),
        output: text_of(found, "output"),
    })
}

/// Records, and what is printed of each.
fn batched_of<'a>(
    alloc: Global,
    batch: Batch,
    found: &ArgMatches<'a>,
) -> Result<Asked<'a>, AllocError>
    ensures { IfOk result (Asks (rows_of (found_of found.now)) (verbs.batch_name batch)) }
{
    Ok(Asked::Batch(batch, each_of(alloc, found)?))
}

/// A pair, and the name of a new one: with three names the second is the data file.
fn new_pair_of<'a>(found: &ArgMatches<'a>) -> Option<(Names<'a>, &'a str)>
    ensures { MatchOption result ((names : Names) (name : Bor Text) → Spec.IsNewPair (rows_of (found_of found.now)) names name.now → ⊥)
        (λ p. Spec.IsNewPair (rows_of (found_of found.now)) p.0 p.1.now) }
{
    let file = text_of(found, "FILE")?;
    let second = text_of(found, "NAME")?;
    let (dat, name) = new_names(second, text_of(found, "LAST"));
    Some((named(file, dat)?, name))
}

/// A pair, and the pair to write with this data format.
#[tactic(auto, using(crate::proofs::MetCommands::no_convert))]
fn convert_of<'a>(found: &ArgMatches<'a>) -> Option<Asked<'a>>
    ensures { MatchOption result (FitsNothing (Asks (rows_of (found_of found.now)) (codes "convert")))
        (Asks (rows_of (found_of found.now)) (codes "convert")) }
{
    let (names, name) = new_pair_of(found)?;
    Some(Asked::Convert(Converted {
        names,
        kind: kind_of(found),
        part: part_of(found),
        name,
    }))
}

/// Files to import, and the pair to write.
#[tactic(auto, using(crate::proofs::MetCommands::no_import))]
fn import_of<'a>(alloc: Global, found: &ArgMatches<'a>) -> Result<Option<Asked<'a>>, AllocError>
    ensures { IfOk result (λ asked. MatchOption asked (FitsNothing (Asks (rows_of (found_of found.now)) (codes "import")))
        (Asks (rows_of (found_of found.now)) (codes "import"))) }
{
    let Some((names, name)) = new_pair_of(found) else {
        return Ok(None);
    };
    Ok(Some(Asked::Import(Importing {
        names,
        dates: text_of(found, "dates"),
        refused: texts_of(alloc, found, "refuse")?,
        encoding: text_of(found, "encoding"),
        name,
    })))
}

/// The names of two records, and how they are compared.
fn compared_of<'a>(found: &ArgMatches<'a>) -> Option<Compared<'a>>
    ensures { MatchOption result ((made : Compared) → Spec.IsCompared (rows_of (found_of found.now)) made → ⊥)
        (Spec.IsCompared (rows_of (found_of found.now))) }
{
    Some(Compared {
        one: text_of(found, "A")?,
        other: text_of(found, "B")?,
        by: text_of(found, "by"),
        shift: text_of(found, "shift"),
        pairs: text_of(found, "map"),
        part: part_of(found),
        picture: picture_of(found),
        output: text_of(found, "output"),
    })
}

/// Two records.
#[tactic(auto, using(crate::proofs::MetCommands::no_compare))]
fn compare_of<'a>(found: &ArgMatches<'a>) -> Option<Asked<'a>>
    ensures { MatchOption result (FitsNothing (Asks (rows_of (found_of found.now)) (codes "compare")))
        (Asks (rows_of (found_of found.now)) (codes "compare")) }
{
    Some(Asked::Compare(compared_of(found)?))
}

/// The records whose faults are told.
fn diagnosed_of<'a>(alloc: Global, found: &ArgMatches<'a>) -> Result<Asked<'a>, AllocError>
    ensures { IfOk result (Asks (rows_of (found_of found.now)) (codes "fault")) }
{
    Ok(Asked::Fault(Diagnosed {
        names: texts_of(alloc, found, "NAMES")?,
        recursive: is_set(found, "recursive"),
        long: is_set(found, "long"),
        line: text_of(found, "line"),
        json: is_set(found, "json"),
        encoding: text_of(found, "encoding"),
        output: text_of(found, "output"),
    }))
}

/// The records of which a report is made.
fn reported_of<'a>(alloc: Global, found: &ArgMatches<'a>) -> Result<Asked<'a>, AllocError>
    ensures { IfOk result (Asks (rows_of (found_of found.now)) (codes "report")) }
{
    Ok(Asked::Report(Reported {
        names: texts_of(alloc, found, "NAMES")?,
        recursive: is_set(found, "recursive"),
        encoding: text_of(found, "encoding"),
        output: text_of(found, "output"),
    }))
}

/// The folder of an extract.
#[tactic(auto, using(crate::proofs::MetCommands::no_extract))]
fn extract_of<'a>(found: &ArgMatches<'a>) -> Option<Asked<'a>>
    ensures { MatchOption result (FitsNothing (Asks (rows_of (found_of found.now)) (codes "extract")))
        (Asks (rows_of (found_of found.now)) (codes "extract")) }
{
    Some(Asked::Extract(text_of(found, "DIR")?))
}

/// Folders and files, which of their records are meant, and how they are listed.
fn listed_of<'a>(alloc: Global, found: &ArgMatches<'a>) -> Result<Surveyed<'a>, AllocError>
    ensures { IfOk result (Spec.IsSurveyed (rows_of (found_of found.now))) }
{
    Ok(Surveyed {
        names: texts_of(alloc, found, "NAMES")?,
        recursive: is_set(found, "recursive"),
        from: text_of(found, "from"),
        to: text_of(found, "to"),
        station: text_of(found, "station"),
        least_current: text_of(found, "min-current"),
        kinds: text_of(found, "type"),
        json: is_set(found, "json"),
        csv: is_set(found, "csv"),
        encoding: text_of(found, "encoding"),
        output: text_of(found, "output"),
    })
}

/// A list of many records.
fn surveyed_of<'a>(
    alloc: Global,
    survey: Survey,
    found: &ArgMatches<'a>,
) -> Result<Asked<'a>, AllocError>
    ensures { IfOk result (Asks (rows_of (found_of found.now)) (verbs.survey_name survey)) }
{
    Ok(Asked::Survey(survey, listed_of(alloc, found)?))
}

/// What a command's matches ask for.
#[tactic(auto, using(crate::proofs::MetCommands::no_command))]
fn asked_of<'a>(
    alloc: Global,
    verb: &str,
    found: &ArgMatches<'a>,
) -> Result<Option<Asked<'a>>, AllocError>
    ensures { IfOk result (λ asked. MatchOption asked (FitsNothing (Asks (rows_of (found_of found.now)) verb.now))
        (Asks (rows_of (found_of found.now)) verb.now)) }
{
    if verb == "extract" {
        return Ok(extract_of(found));
    }
    if verb == "convert" {
        return Ok(convert_of(found));
    }
    if verb == "import" {
        return import_of(alloc, found);
    }
    if verb == "compare" {
        return Ok(compare_of(found));
    }
    if verb == "fault" {
        return Ok(Some(diagnosed_of(alloc, found)?));
    }
    if verb == "report" {
        return Ok(Some(reported_of(alloc, found)?));
    }
    if let Some(view) = view_of(verb) {
        return Ok(viewed_of(view, found));
    }
    if let Some(batch) = batch_of(verb) {
        return Ok(Some(batched_of(alloc, batch, found)?));
    }
    match survey_of(verb) {
        Some(survey) => Ok(Some(surveyed_of(alloc, survey, found)?)),
        None => Ok(None),
    }
}

/// What matches ask for; none where a pair isn't named by its words.
#[tactic(auto, using(crate::proofs::MetCommands::asks_met))]
fn asked_in<'a>(alloc: Global, matches: &ArgMatches<'a>) -> Result<Option<Asked<'a>>, AllocError>
    ensures { IfOk result (λ asked. MatchOption asked (FitsNothing (AsksAs (subcommand_rows_of matches.now))) (AsksAs (subcommand_rows_of matches.now))) }
{
    match matches.subcommand() {
        Some((verb, found)) => asked_of(alloc, verb, found),
        None => Ok(None),
    }
}

/// What is to be done with matches: all that the parse lets through are asked for, but for a pair whose words don't name it.
fn answer_to<'a>(alloc: Global, matches: &ArgMatches<'a>) -> Result<Answer<'a>, AllocError>
    ensures { IfOk result (Does (subcommand_rows_of matches.now)) }
{
    match asked_in(alloc, matches)? {
        Some(asked) => Ok(Answer::Do(asked)),
        None => Ok(Answer::Refuse(String::from_str(
            alloc,
            "error: FILE and DAT cannot both be - (standard input)\n",
        )?)),
    }
}

/// Help and the version are texts that words ask for.
fn is_text(kind: ErrorKind) -> bool
    ensures { result ≡ Spec.is_text kind }
{
    matches!(kind, ErrorKind::DisplayHelp | ErrorKind::DisplayVersion)
}

/// The text of a parse that found nothing to do: help or the version, else why. A parse that ran out of memory has none.
fn told<'a>(alloc: Global, error: &Error) -> Result<Answer<'a>, AllocError>
    ensures { IfOk result (Tells (kind_of error.now)) }
{
    let kind = error.kind();
    if let ErrorKind::OutOfMemory = kind {
        return Err(AllocError);
    }
    let text = format!(in alloc; "{error}")?;
    if is_text(kind) {
        Ok(Answer::Print(text))
    } else {
        Ok(Answer::Refuse(text))
    }
}

/// What is to be done with the words after the program's name: what they ask for, if they ask for anything.
pub fn answer_of<'a>(alloc: Global, words: &'a [&'a str]) -> Result<Answer<'a>, AllocError>
    ensures { IfOk result (AnswersTo (map (λ s. s.now) words.entry.now)) }
{
    match comtrade(alloc)?.try_get_matches_from(words) {
        Ok(matches) => answer_to(alloc, &matches),
        Err(error) => told(alloc, &error),
    }
}
