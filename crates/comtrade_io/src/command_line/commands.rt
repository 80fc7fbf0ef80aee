//! The commands of the program, with their arguments and help texts. A command is one function
//! here, a definition of the same name in `specs/Commands.antt`, and a line in the function of its
//! group.

ghost use Rattle.std.specs.Prelude.{IfOk};
ghost use Rattle.clap.specs.Words.{App, new_app};
ghost use Rattle.comtrade_io.specs.Commands.{IsCommand, IsKinded};
ghost use Rattle.comtrade_io.specs.Commands as Spec;

use crate::VERSION;
use crate::command_line::options::{
    flag, free_word, option, recursive, repeated, with, with_encoding, with_filter, with_json,
    with_output, with_part, with_picture, word, words,
};
use clap::Command;
use std::alloc::{AllocError, Global};

const ABOUT: &str =
    "Looks at COMTRADE records (IEEE Std C37.111): lists, shows, checks, measures, draws, converts, imports";

/// What FILE and DAT name, and the exit status.
const STATUS: &str = "\
FILE is a configuration file (.cfg), a data file (.dat), a single file (.cff), an archive with one
record (.zip, .cfz), or the name they share; .dat.gz and .cff.gz are read too. The other file of the
pair is found next to it, in upper or lower case. With DAT, FILE is the configuration file and DAT
the data file; one of the two may be -, for standard input. FILE alone may be - for a whole record.

Exit status: 0 success; 1 an error in the files, or a file that cannot be read or written; 2 usage error.";

/// What NAMES are, and the exit status.
const BATCH_STATUS: &str = "\
NAMES are records, and folders with records. A record is named by its configuration file (.cfg), its
data file (.dat), a single file (.cff), an archive with one record (.zip, .cfz), or the name they
share; .dat.gz and .cff.gz are read too. Two names are the two files of one record where one of them
is - (standard input), or where one alone ends in .dat or .dat.gz. - alone is a whole record.

Exit status: 0 success; 1 an error in the files, or a file that cannot be read or written; 2 usage error.";

const TOP_HELP: &str = "\
Many records, after a storm:
  comtrade list storm                    one line per record, with its greatest current
  comtrade list -r --min-current 2000 .  the large ones, of folders within folders too
  comtrade events storm/rec1 storm/rec2  what happened, in order of time
  comtrade fault storm                   each fault: type, inception, clearing, breaker
  comtrade report storm -o storm.html    all of that in one file, to send or to print
  comtrade page -r storm -o pages        a page for each record, in the folder pages

One record:
  comtrade show rec1                     names, rates, channels, extremes, gaps
  comtrade check rec1                    its first error, or that it has none
  comtrade measure --at 20 rec1          rms values, phasors and sequence components
  comtrade detect lines rec1             when detectors of dfrd would have fired
  comtrade plot rec1 -o rec1.svg         a picture; with --print for paper
  comtrade page rec1 -o rec1.html        a page for a browser
  comtrade csv --separator ';' --decimal ',' rec1 > rec1.csv

Two records:
  comtrade compare near far -o both.svg  two ends of a line, aligned by time
  comtrade compare --by trigger old new > both.svg

Other files:
  comtrade import OLD.CFG new            a valid pair of 1999 from what relays write
  comtrade convert --kind binary --from -20 --to 100 rec1 report
  dfr replay < script | comtrade extract records

FILE is a configuration file (.cfg), a data file (.dat), a single file (.cff), an archive with one
record (.zip, .cfz), or the name they share; .dat.gz and .cff.gz are read too. The other file of the
pair is found next to it, in upper or lower case. With DAT, FILE is the configuration file and DAT
the data file; one of the two may be -, for standard input. FILE alone may be - for a whole record.

Exit status: 0 success; 1 an error in the files, or a file that cannot be read or written; 2 usage error.";

const SURVEY_STATUS: &str = "\
Exit status: 0 success; 1 an error in the files, or a file that cannot be read or written; 2 usage error.";

const COMPARE_STATUS: &str = "\
A and B are the names of two pairs, or one file of each. Options that choose rows and channels apply
to A. Channels are compared where unit and side are the same, and the name; of voltages and currents
without a namesake those of the same phase, or those that --map names.

Exit status: 0 success; 1 an error in the files, or a file that cannot be read or written; 2 usage error.";

const IMPORT_STATUS: &str = "\
FILE is a configuration file (.cfg), a single file (.cff), an archive with one record (.zip, .cfz) or
the name that a pair shares. With three names the second one is the data file. Each repair is printed as a line: its key, what it means and
where. The manual lists the keys.

Exit status: 0 the pair was written, also with repairs; 1 the files cannot be imported, read or
written; 2 usage error.";

const FILE: &str = "A file of the record, or the name its files share";

const NEW_PAIR: &str =
    "The name of the new pair, without .cfg and .dat; existing files are never overwritten";

static KINDS: [&str; 2] = ["ascii", "binary"];

/// A command without arguments: its name, what it does, and what its help ends with.
fn command<'a>(alloc: Global, name: &'a str, about: &'a str, end: &'a str) -> Command<'a>
    ensures { IsCommand (new_app name.entry.now) result }
{
    Command::new(alloc, name).about(about).after_help(end)
}

/// A command over a pair of files.
fn over_pair<'a>(alloc: Global, name: &'a str, about: &'a str) -> Result<Command<'a>, AllocError>
    ensures { IfOk result (IsCommand (Spec.over_pair name.entry.now)) }
{
    let bare = command(alloc, name, about, STATUS);
    let file = word(alloc, "FILE", FILE);
    let dat = "The data file, if FILE is the configuration file";
    let one = with(bare, file)?;
    with(one, free_word(alloc, "DAT", dat))
}

/// A command over a part of a pair.
fn over_part<'a>(alloc: Global, name: &'a str, about: &'a str) -> Result<Command<'a>, AllocError>
    ensures { IfOk result (IsCommand (Spec.over_part name.entry.now)) }
{
    let pair = over_pair(alloc, name, about)?;
    with_part(alloc, pair)
}

fn show<'a>(alloc: Global) -> Result<Command<'a>, AllocError>
    ensures { IfOk result (IsCommand Spec.show) }
{
    let about = "Print what a record holds: names, times, channels, extremes, changes, gaps";
    let json = with_json(alloc, over_part(alloc, "show", about)?)?;
    with_output(alloc, json)
}

fn csv<'a>(alloc: Global) -> Result<Command<'a>, AllocError>
    ensures { IfOk result (IsCommand Spec.csv) }
{
    let about = "Print the rows as CSV: times, values a*x + b, status channels";
    let part = over_part(alloc, "csv", about)?;
    let separator = "Cell separator, such as ';' or tab";
    let decimal = "Decimal separator: . or ,";
    let one = with(part, option(alloc, "separator", "TEXT", separator))?;
    let two = with(one, option(alloc, "decimal", "TEXT", decimal))?;
    with_output(alloc, two)
}

/// With the options of a measurement.
fn with_cursor(alloc: Global, command: Command<'_>) -> Result<Command<'_>, AllocError>
    ensures { (a : App) → IsCommand a command.entry → IfOk result (IsCommand (Spec.with_cursor a)) }
{
    let at = "Measure the last whole cycle ending at MOMENT (same forms as --from)";
    let reference = "The channel that angles refer to, by id or number";
    let frequency = "The line frequency in Hz, or measured: that of the signal there";
    let phases = "The channels of the phases A, B and C, joined by commas: ids or numbers";
    let one = with(command, option(alloc, "at", "MOMENT", at))?;
    let two = with(one, option(alloc, "reference", "CHANNEL", reference))?;
    let three = with(two, option(alloc, "frequency", "HZ", frequency))?;
    with(three, option(alloc, "phases", "NAMES", phases))
}

/// The file of detectors.
fn detect_lines<'a>(alloc: Global) -> Result<Command<'a>, AllocError>
    ensures { IfOk result (IsCommand Spec.detect_lines) }
{
    let about = "Run the detectors of LINES over a record, and print when each fires";
    let lines = "A file with lines `detect`, such as a set-up of dfrd; other lines are skipped";
    let bare = command(alloc, "detect", about, STATUS);
    with(bare, word(alloc, "LINES", lines))
}

fn detect<'a>(alloc: Global) -> Result<Command<'a>, AllocError>
    ensures { IfOk result (IsCommand Spec.detect) }
{
    let dat = "The data file, if FILE is the configuration file";
    let one = with(detect_lines(alloc)?, word(alloc, "FILE", FILE))?;
    let two = with(one, free_word(alloc, "DAT", dat))?;
    let json = with_json(alloc, two)?;
    with_output(alloc, json)
}

/// A command that writes a pair. With three names the second is the data file.
fn over_new<'a>(alloc: Global, bare: Command<'a>, usage: &'a str) -> Result<Command<'a>, AllocError>
    ensures { (a : App) → IsCommand a bare.entry → IfOk result (IsCommand (Spec.over_new a)) }
{
    let file = word(alloc, "FILE", FILE);
    let last = "The name of the new pair, if NAME is the data file";
    let used = bare.override_usage(usage);
    let one = with(used, file)?;
    let two = with(one, word(alloc, "NAME", NEW_PAIR))?;
    with(two, free_word(alloc, "LAST", last))
}

/// The names of `convert`.
fn convert_names<'a>(alloc: Global) -> Result<Command<'a>, AllocError>
    ensures { IfOk result (IsCommand Spec.convert_names) }
{
    let about = "Write the same record, or a part of it, as a pair with this data format";
    let usage = "comtrade convert --kind <KIND> [OPTIONS] <FILE> [DAT] <NAME>";
    let bare = command(alloc, "convert", about, STATUS);
    over_new(alloc, bare, usage)
}

/// The same, with the data format.
fn convert_kind<'a>(alloc: Global) -> Result<Command<'a>, AllocError>
    ensures { IfOk result (IsKinded Spec.convert_kind) }
{
    let kind = word(alloc, "KIND", "The data format to write")
        .long("kind")
        .value_parser(KINDS.as_slice());
    convert_names(alloc)?.arg(kind)
}

fn convert<'a>(alloc: Global) -> Result<Command<'a>, AllocError>
    ensures { IfOk result (IsKinded Spec.convert) }
{
    let kinded = convert_kind(alloc)?;
    with_part(alloc, kinded)
}

/// The names of `import`.
fn import_names<'a>(alloc: Global) -> Result<Command<'a>, AllocError>
    ensures { IfOk result (IsCommand Spec.import_names) }
{
    let about =
        "Read files of 1991, 1999 or 2013 as relays write them, and write a valid pair of 1999";
    let usage = "comtrade import [OPTIONS] <FILE> [DAT] <NAME>";
    let bare = command(alloc, "import", about, IMPORT_STATUS);
    over_new(alloc, bare, usage)
}

fn importing<'a>(alloc: Global) -> Result<Command<'a>, AllocError>
    ensures { IfOk result (IsCommand Spec.importing) }
{
    let dates = "Order of month and day in the dates [possible values: mdy, dmy]";
    let refuse = "Write nothing if this repair is needed; may be given several times";
    let named = import_names(alloc)?;
    let dated = with(named, option(alloc, "dates", "ORDER", dates))?;
    let refusing = with(dated, repeated(alloc, "refuse", "KEY", refuse))?;
    with_encoding(alloc, refusing)
}

fn extract<'a>(alloc: Global) -> Result<Command<'a>, AllocError>
    ensures { IfOk result (IsCommand Spec.extract) }
{
    let about = "Cut what `dfr replay` printed (standard input) into DIR/recN.cfg and DIR/recN.dat";
    let bare = Command::new(alloc, "extract").about(about);
    let folder = "The folder; it is made if it does not exist";
    with(bare, word(alloc, "DIR", folder))
}

/// A command over folders and files, with the end of its help.
fn named<'a>(
    alloc: Global,
    name: &'a str,
    about: &'a str,
    end: &'a str,
) -> Result<Command<'a>, AllocError>
    ensures { IfOk result (IsCommand (Spec.named name.entry.now)) }
{
    let bare = command(alloc, name, about, end);
    let names = "Folders with records, and records";
    let one = with(bare, words(alloc, "NAMES", names))?;
    with(one, recursive(alloc))
}

/// The same over a part of each record.
fn over_parts<'a>(alloc: Global, name: &'a str, about: &'a str) -> Result<Command<'a>, AllocError>
    ensures { IfOk result (IsCommand (Spec.over_parts name.entry.now)) }
{
    let names = named(alloc, name, about, BATCH_STATUS)?;
    with_part(alloc, names)
}

fn check<'a>(alloc: Global) -> Result<Command<'a>, AllocError>
    ensures { IfOk result (IsCommand Spec.check) }
{
    let about = "Print the first error of each pair of 1999, or that it has none";
    let json = with_json(alloc, named(alloc, "check", about, BATCH_STATUS)?)?;
    with_output(alloc, json)
}

fn plot<'a>(alloc: Global) -> Result<Command<'a>, AllocError>
    ensures { IfOk result (IsCommand Spec.plot) }
{
    let about = "Draw a record as an SVG picture; \
        of several, write a picture of each into the folder of -o";
    let part = over_parts(alloc, "plot", about)?;
    let picture = with_picture(alloc, part)?;
    with_output(alloc, picture)
}

fn page<'a>(alloc: Global) -> Result<Command<'a>, AllocError>
    ensures { IfOk result (IsCommand Spec.page) }
{
    let about = "Print an HTML page that shows a record in a browser; \
        of several, write a page of each into the folder of -o";
    let part = over_parts(alloc, "page", about)?;
    with_output(alloc, part)
}

fn measure<'a>(alloc: Global) -> Result<Command<'a>, AllocError>
    ensures { IfOk result (IsCommand Spec.measure) }
{
    let about =
        "Print fault inceptions; at a moment or in a window rms, phasors, harmonics, sequences";
    let part = over_parts(alloc, "measure", about)?;
    let cursor = with_cursor(alloc, part)?;
    let json = with_json(alloc, cursor)?;
    with_output(alloc, json)
}

/// A command that lists what is in many records.
fn over_names<'a>(alloc: Global, name: &'a str, about: &'a str) -> Result<Command<'a>, AllocError>
    ensures { IfOk result (IsCommand (Spec.over_names name.entry.now)) }
{
    let filter = with_filter(alloc, named(alloc, name, about, SURVEY_STATUS)?)?;
    let json = with_json(alloc, filter)?;
    let encoding = with_encoding(alloc, json)?;
    with_output(alloc, encoding)
}

fn list<'a>(alloc: Global) -> Result<Command<'a>, AllocError>
    ensures { IfOk result (IsCommand Spec.list) }
{
    let about = "Print one line per record, sorted by trigger time";
    let current = "Only records whose greatest current has at least this size, in A";
    let over = over_names(alloc, "list", about)?;
    with(over, option(alloc, "min-current", "AMPERES", current))
}

fn events<'a>(alloc: Global) -> Result<Command<'a>, AllocError>
    ensures { IfOk result (IsCommand Spec.events) }
{
    let about = "Print triggers, gaps and changes of status channels, in order of time";
    let kinds = "Only these, joined by commas [possible values: trigger, change, gap]";
    let over = over_names(alloc, "events", about)?;
    let one = with(over, option(alloc, "type", "KINDS", kinds))?;
    with(one, flag(alloc, "csv", "Print comma-separated values"))
}

/// The names of `fault`, its longer form, and the line on which the faults are.
fn fault_names<'a>(alloc: Global) -> Result<Command<'a>, AllocError>
    ensures { IfOk result (IsCommand Spec.fault_names) }
{
    let about =
        "Print each fault: type, inception, clearing, breaker time, and how certain that is";
    let long = "Print a block for each fault: phasors, contacts, and what each conclusion rests on";
    let line = "Locate the faults on the line of FILE (TOML: length, r1, x1, r0, x0)";
    let names = named(alloc, "fault", about, SURVEY_STATUS)?;
    let one = with(names, flag(alloc, "long", long))?;
    with(one, option(alloc, "line", "FILE", line))
}

fn fault<'a>(alloc: Global) -> Result<Command<'a>, AllocError>
    ensures { IfOk result (IsCommand Spec.fault) }
{
    let json = with_json(alloc, fault_names(alloc)?)?;
    let encoding = with_encoding(alloc, json)?;
    with_output(alloc, encoding)
}

fn report<'a>(alloc: Global) -> Result<Command<'a>, AllocError>
    ensures { IfOk result (IsCommand Spec.report) }
{
    let about = "Print one HTML file on all records: list, events, faults, pictures, pages, doubts";
    let encoding = with_encoding(alloc, named(alloc, "report", about, SURVEY_STATUS)?)?;
    with_output(alloc, encoding)
}

/// The names of `compare`, and how the records and their channels are laid beside each other.
fn compare_names<'a>(alloc: Global) -> Result<Command<'a>, AllocError>
    ensures { IfOk result (IsCommand Spec.compare_names) }
{
    let about = "Overlay two records in one SVG picture, and print how far their channels differ";
    let bare = command(alloc, "compare", about, COMPARE_STATUS);
    let by =
        "Align by instant (default), trigger or fault [possible values: instant, trigger, fault]";
    let shift = "Move B by so many milliseconds";
    let map = "Channels of A and the channels of B that belong to them, as UA=VA,IA=IL1";
    let one = with(bare, word(alloc, "A", "The first record"))?;
    let two = with(one, word(alloc, "B", "The record to overlay"))?;
    let three = with(two, option(alloc, "by", "WHAT", by))?;
    let four = with(three, option(alloc, "shift", "MS", shift))?;
    with(four, option(alloc, "map", "PAIRS", map))
}

fn compare<'a>(alloc: Global) -> Result<Command<'a>, AllocError>
    ensures { IfOk result (IsCommand Spec.compare) }
{
    let part = with_part(alloc, compare_names(alloc)?)?;
    let picture = with_picture(alloc, part)?;
    with_output(alloc, picture)
}

/// The commands that print what a record holds.
fn views<'a>(alloc: Global, program: Command<'a>) -> Result<Command<'a>, AllocError>
    ensures { IsCommand Spec.top program.entry → IfOk result (IsCommand (Spec.views Spec.top)) }
{
    program
        .subcommand(show(alloc)?)?
        .subcommand(check(alloc)?)?
        .subcommand(csv(alloc)?)?
        .subcommand(plot(alloc)?)?
        .subcommand(page(alloc)?)
}

/// The commands over many records.
fn surveys<'a>(alloc: Global, program: Command<'a>) -> Result<Command<'a>, AllocError>
    ensures { (a : App) → IsCommand a program.entry → IfOk result (IsCommand (Spec.surveys a)) }
{
    program
        .subcommand(list(alloc)?)?
        .subcommand(events(alloc)?)?
        .subcommand(fault(alloc)?)?
        .subcommand(report(alloc)?)?
        .subcommand(compare(alloc)?)
}

/// The program's name, version and help.
fn named_top<'a>(alloc: Global) -> Result<Command<'a>, AllocError>
    ensures { IfOk result (IsCommand Spec.named_top) }
{
    let bare = command(alloc, "comtrade", ABOUT, TOP_HELP);
    bare.version(VERSION).bin_name("comtrade")
}

/// A command that requires one of its subcommands.
fn with_choice<'a>(command: Command<'a>) -> Command<'a>
    ensures { (a : App) → IsCommand a command.entry → IsCommand (Spec.with_choice a) result }
{
    command
        .no_binary_name(true)
        .arg_required_else_help(true)
        .subcommand_required(true)
}

/// The program's command line.
pub(crate) fn comtrade<'a>(alloc: Global) -> Result<Command<'a>, AllocError>
    ensures { IfOk result (IsKinded Spec.program) }
{
    let named = named_top(alloc)?;
    let top = with_choice(named);
    let viewing = views(alloc, top)?;
    let surveying = surveys(alloc, viewing)?;
    surveying
        .subcommand(measure(alloc)?)?
        .subcommand(detect(alloc)?)?
        .subcommand(convert(alloc)?)?
        .subcommand(importing(alloc)?)?
        .subcommand(extract(alloc)?)
}
