//! What the words of the program can ask for.

ghost use Rattle.std.specs.Prelude.{◌≡◌, MatchOption, option_map};
ghost use Rattle.comtrade_io.specs.Verbs as verbs;
ghost use Rattle.comtrade_io.specs.Verbs.{data_name, pair_name};

use comtrade_format::Kind;

/// The names of a record's files. Without a name for the data file, the program looks for it. One of
/// both may be `-` (standard input); alone, `-` is a single file.
#[derive(Clone, Copy, Debug)]
pub struct Names<'a> {
    pub file: &'a str,
    pub dat: Option<&'a str>,
}

/// Which part of a record is meant, on which side of the transformers, and how its files are read, as texts that are not parsed yet.
#[derive(Clone, Copy, Debug)]
pub struct Part<'a> {
    /// The first moment: milliseconds since the trigger, an instant, or `row N`.
    pub from: Option<&'a str>,
    /// The last moment.
    pub to: Option<&'a str>,
    /// Names and numbers of channels, separated by commas.
    pub channels: Option<&'a str>,
    /// Only contacts that change.
    pub changed: bool,
    /// Values of the primary side.
    pub primary: bool,
    /// Values of the secondary side.
    pub secondary: bool,
    /// Only files of 1999, as the standard spells them.
    pub strict: bool,
    /// How names are spelled that aren't ASCII.
    pub encoding: Option<&'a str>,
}

/// How a table of values is written, as texts that are not parsed yet.
#[derive(Clone, Copy, Debug)]
pub struct Form<'a> {
    /// What separates the cells of a table.
    pub separator: Option<&'a str>,
    /// What stands before the places of a number.
    pub decimal: Option<&'a str>,
}

/// A moment of a record, and how it is measured there, as texts that are not parsed yet.
#[derive(Clone, Copy, Debug)]
pub struct Cursor<'a> {
    pub at: Option<&'a str>,
    /// The channel from which angles are counted.
    pub reference: Option<&'a str>,
    /// The line frequency, in place of the file's.
    pub frequency: Option<&'a str>,
    /// The channels of the phases A, B and C.
    pub phases: Option<&'a str>,
}

/// The commands over one pair of files that print what is in it.
#[derive(Clone, Copy, Debug, PartialEq, Eq)]
pub enum View {
    /// What is in it.
    Show,
    /// Its rows as comma-separated values.
    Csv,
    /// When detectors fire on it.
    Detect,
}

/// The commands that do the same to each of many records.
#[derive(Clone, Copy, Debug, PartialEq, Eq)]
pub enum Batch {
    /// Its first fault.
    Check,
    /// A picture of it.
    Plot,
    /// A page that shows it in a browser.
    Page,
    /// What is measured in it.
    Measure,
}

/// How a picture is drawn, its sizes as texts that are not parsed yet.
#[derive(Clone, Copy, Debug)]
pub struct Picture<'a> {
    /// All of a long record.
    pub whole: bool,
    /// A bar for each contact.
    pub all: bool,
    /// How wide it is shown, in pixels.
    pub width: Option<&'a str>,
    /// How high it is shown.
    pub height: Option<&'a str>,
    /// Black lines of different dashes on white.
    pub print: bool,
}

/// A pair of files, and what is printed of it. An option that a command doesn't have is none.
#[derive(Clone, Copy, Debug)]
pub struct Viewed<'a> {
    pub names: Names<'a>,
    pub part: Part<'a>,
    pub form: Form<'a>,
    /// The file of detectors.
    pub lines: Option<&'a str>,
    /// As JSON.
    pub json: bool,
    /// The file that is written in place of standard output.
    pub output: Option<&'a str>,
}

/// A pair of files, and the pair that is written in its place.
#[derive(Clone, Copy, Debug)]
pub struct Converted<'a> {
    pub names: Names<'a>,
    pub kind: Kind,
    pub part: Part<'a>,
    /// What both new files are called, without `.cfg` and `.dat`.
    pub name: &'a str,
}

/// Files as relays write them, and the pair of 1999 that is written, with choices that are not parsed yet.
#[derive(Debug, Drop)]
pub struct Importing<'a> {
    pub names: Names<'a>,
    /// Which of month and day comes first in dates.
    pub dates: Option<&'a str>,
    /// The keys of the repairs with which nothing is written, in the order in which they were given.
    pub refused: Vec<&'a str>,
    /// How names are spelled that aren't ASCII.
    pub encoding: Option<&'a str>,
    /// The name of the new pair, without `.cfg` and `.dat`.
    pub name: &'a str,
}

/// Two records, and how they are laid beside each other, as texts that aren't parsed yet: by the instants of their rows, by their triggers or
/// by their faults. The part is the first one's; the side of the transformers and how files are read are those of both.
#[derive(Clone, Copy, Debug)]
pub struct Compared<'a> {
    pub one: &'a str,
    pub other: &'a str,
    pub by: Option<&'a str>,
    /// How far the second record is moved, in milliseconds.
    pub shift: Option<&'a str>,
    /// Channels of the first one, and those of the second that they are compared with.
    pub pairs: Option<&'a str>,
    pub part: Part<'a>,
    pub picture: Picture<'a>,
    /// The file that is written in place of standard output.
    pub output: Option<&'a str>,
}

/// Records whose faults are told: those of these names, and those in folders of these names.
#[derive(Debug, Drop)]
pub struct Diagnosed<'a> {
    pub names: Vec<&'a str>,
    /// Also the records of folders within folders.
    pub recursive: bool,
    /// A block for each fault, in place of a line.
    pub long: bool,
    /// The file of the line on which the faults are.
    pub line: Option<&'a str>,
    /// As JSON.
    pub json: bool,
    /// How names are spelled that aren't ASCII.
    pub encoding: Option<&'a str>,
    /// The file that is written in place of standard output.
    pub output: Option<&'a str>,
}

/// Records of which a report is made: those of these names, and those in folders of these names.
#[derive(Debug, Drop)]
pub struct Reported<'a> {
    pub names: Vec<&'a str>,
    /// Also the records of folders within folders.
    pub recursive: bool,
    /// How names are spelled that aren't ASCII.
    pub encoding: Option<&'a str>,
    /// The file that is written in place of standard output.
    pub output: Option<&'a str>,
}

/// Records: those of these names, and those in folders of these names, or the two files of one; and what is printed of each. An option
/// that a command doesn't have is none.
#[derive(Debug, Drop)]
pub struct Batched<'a> {
    pub names: Vec<&'a str>,
    /// Also the records of folders within folders.
    pub recursive: bool,
    pub part: Part<'a>,
    pub picture: Picture<'a>,
    pub cursor: Cursor<'a>,
    /// As JSON.
    pub json: bool,
    /// The file that is written in place of standard output, or the folder of the files.
    pub output: Option<&'a str>,
}

/// Records of which a list is made: those of these names, and those in folders of these names; which of them are meant, and how the
/// list is written, as texts that are not parsed yet. An option that a command doesn't have is none.
#[derive(Debug, Drop)]
pub struct Surveyed<'a> {
    pub names: Vec<&'a str>,
    /// Also the records of folders within folders.
    pub recursive: bool,
    /// The first instant, and the last one.
    pub from: Option<&'a str>,
    pub to: Option<&'a str>,
    /// The name of the station.
    pub station: Option<&'a str>,
    /// The least size of the greatest current, in A.
    pub least_current: Option<&'a str>,
    /// Kinds of events.
    pub kinds: Option<&'a str>,
    /// As JSON, or as comma-separated values.
    pub json: bool,
    pub csv: bool,
    /// How names are spelled that aren't ASCII.
    pub encoding: Option<&'a str>,
    /// The file that is written in place of standard output.
    pub output: Option<&'a str>,
}

/// The commands over many pairs.
#[derive(Clone, Copy, Debug, PartialEq, Eq)]
pub enum Survey {
    /// A line for each record of folders.
    List,
    /// What happened, in one list.
    Events,
}

/// What the words ask for.
#[derive(Debug, Drop)]
pub enum Asked<'a> {
    /// What is in a pair.
    View(View, Viewed<'a>),
    /// What is printed of each of many records.
    Batch(Batch, Batched<'a>),
    /// A pair as a pair of another kind, with this name.
    Convert(Converted<'a>),
    /// Files of other makers and years as a pair of 1999.
    Import(Importing<'a>),
    /// Two records in one picture.
    Compare(Compared<'a>),
    /// The faults of many records.
    Fault(Diagnosed<'a>),
    /// A report on many records.
    Report(Reported<'a>),
    /// The pairs that a replay printed, into a folder.
    Extract(&'a str),
    /// What is in many pairs.
    Survey(Survey, Surveyed<'a>),
}

/// The command over one pair that is called so.
pub fn view_of(verb: &str) -> Option<View>
    ensures { MatchOption result ((view : View) → verbs.view_name view ≡ verb.now → ⊥) (λ view. verbs.view_name view ≡ verb.now) }
{
    match verb {
        "show" => Some(View::Show),
        "csv" => Some(View::Csv),
        "detect" => Some(View::Detect),
        _ => None,
    }
}

/// The command over each of many records that is called so.
pub fn batch_of(verb: &str) -> Option<Batch>
    ensures { MatchOption result ((batch : Batch) → verbs.batch_name batch ≡ verb.now → ⊥)
        (λ batch. verbs.batch_name batch ≡ verb.now) }
{
    match verb {
        "check" => Some(Batch::Check),
        "plot" => Some(Batch::Plot),
        "page" => Some(Batch::Page),
        "measure" => Some(Batch::Measure),
        _ => None,
    }
}

/// The command over many pairs that is called so.
pub fn survey_of(verb: &str) -> Option<Survey>
    ensures { MatchOption result ((survey : Survey) → verbs.survey_name survey ≡ verb.now → ⊥)
        (λ survey. verbs.survey_name survey ≡ verb.now) }
{
    match verb {
        "list" => Some(Survey::List),
        "events" => Some(Survey::Events),
        _ => None,
    }
}

/// What the names after a pair's first one mean: one is the new pair's; of two the second is, and the first is the data file's.
pub fn new_names<'a>(second: &'a str, third: Option<&'a str>) -> (Option<&'a str>, &'a str)
    ensures dat { option_map (λ s. s.now) result.0 ≡ data_name second.now (option_map (λ s. s.now) third.entry) }
    ensures name { result.1.now ≡ pair_name second.now (option_map (λ s. s.now) third.entry) }
{
    match third {
        Some(name) => (Some(second), name),
        None => (None, second),
    }
}
