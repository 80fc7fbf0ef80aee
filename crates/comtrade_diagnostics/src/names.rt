//! The name of each line and field of both files, and what is valid there (C37.111-1999, clauses 5
//! and 6).

ghost use Rattle.comtrade_diagnostics.specs.declared.names.Place.TheVariants.{RateCount, DataType};
ghost use Rattle.comtrade_diagnostics.specs.Places.{AreFew, IsPlace};

use crate::counts::Counts;

/// The role of a line of a configuration file. Channels and rates are counted from 1 in their kind.
#[derive(Clone, Copy)]
pub(crate) enum Place {
    Station,
    Channels,
    Analog(u64),
    Status(u64),
    Frequency,
    RateCount,
    Rate(u64),
    First,
    Trigger,
    DataType,
    TimeMultiplier,
    After,
}

/// The role of the line with this number, counted from 1.
pub(crate) fn place_at(counts: Counts, line: u64) -> Place
    ensures { IsPlace counts line result }
{
    let channel = match line {
        0 | 1 => return Place::Station,
        2 => return Place::Channels,
        _ => line - 2,
    };
    if channel <= counts.analog {
        return Place::Analog(channel);
    }
    let status = channel - counts.analog;
    if status <= counts.status {
        return Place::Status(status);
    }
    let after = status - counts.status;
    let rate = match after {
        1 => return Place::Frequency,
        2 => return Place::RateCount,
        _ => after - 2,
    };
    if rate <= counts.rates {
        return Place::Rate(rate);
    }
    match rate - counts.rates {
        1 => Place::First,
        2 => Place::Trigger,
        3 => Place::DataType,
        4 => Place::TimeMultiplier,
        _ => Place::After,
    }
}

/// The number of the line with the number of rates.
pub(crate) fn rate_count_line(counts: Counts) -> u64
    requires { AreFew counts }
    ensures { IsPlace counts result RateCount }
{
    counts.analog + counts.status + 4
}

/// The number of the line with the data file type.
pub(crate) fn type_line(counts: Counts) -> u64
    requires { AreFew counts }
    ensures { IsPlace counts result DataType }
{
    counts.analog + counts.status + counts.rates + 7
}

/// The name of a line, and the number that follows the name, if any.
pub(crate) fn place_name(place: Place) -> (&'static str, Option<u64>) {
    match place {
        Place::Station => ("station and device", None),
        Place::Channels => ("channel counts", None),
        Place::Analog(n) => ("analogue channel ", Some(n)),
        Place::Status(n) => ("status channel ", Some(n)),
        Place::Frequency => ("line frequency", None),
        Place::RateCount => ("number of rates", None),
        Place::Rate(n) => ("rate ", Some(n)),
        Place::First => ("time of the first row", None),
        Place::Trigger => ("trigger time", None),
        Place::DataType => ("data file type", None),
        Place::TimeMultiplier => ("time multiplier", None),
        Place::After => ("after the last line", None),
    }
}

/// The number of fields in a line, and their names.
pub(crate) fn fields_wanted(place: Place) -> (u64, &'static str) {
    match place {
        Place::Station => (3, "station, device, 1999"),
        Place::Channels => (
            3,
            "total, analogue channels (such as 8A), status channels (such as 4D)",
        ),
        Place::Analog(_) => (
            13,
            "n, id, phase, component, unit, a, b, skew, min, max, primary, secondary, P or S",
        ),
        Place::Status(_) => (5, "n, id, phase, component, normal state"),
        Place::Frequency => (1, "the frequency in Hz"),
        Place::RateCount => (1, "the number of rates"),
        Place::Rate(_) => (2, "scans per second, last row at this rate"),
        Place::First => (2, "dd/mm/yyyy, hh:mm:ss.ssssss"),
        Place::Trigger => (2, "dd/mm/yyyy, hh:mm:ss.ssssss"),
        Place::DataType => (1, "ASCII or BINARY"),
        Place::TimeMultiplier => (1, "the time multiplier"),
        Place::After => (0, "nothing"),
    }
}

/// The name of a field, and what is expected there.
type Named = (&'static str, &'static str);

const DECIMAL: &str =
    "a decimal number such as 0.01 or 1.5E-3 (at most 36 digits and 80 decimal places)";

const DECIMAL_OR_NONE: &str =
    "a decimal number such as 0.01 or 1.5E-3 (at most 36 digits and 80 decimal places), or an empty field";

const SAMPLE: &str = "a whole number from -99999 to 99999";

fn analog_field(field: u32) -> Named {
    match field {
        1 => ("channel number", "a whole number"),
        6 => ("a, the multiplier", DECIMAL),
        7 => ("b, the offset", DECIMAL_OR_NONE),
        8 => ("skew", DECIMAL_OR_NONE),
        9 => ("min", SAMPLE),
        10 => ("max", SAMPLE),
        11 => ("primary", DECIMAL_OR_NONE),
        12 => ("secondary", DECIMAL_OR_NONE),
        13 => ("side", "P or S"),
        _ => ("text", "text"),
    }
}

fn count_field(field: u32) -> Named {
    match field {
        1 => ("total of channels", "a whole number from 1 to 999999"),
        2 => (
            "analogue channels",
            "a whole number up to 999999 followed by A, such as 8A",
        ),
        _ => (
            "status channels",
            "a whole number up to 999999 followed by D, such as 4D",
        ),
    }
}

/// The name of a field (counted from 1) of a configuration file, and what is expected there.
pub(crate) fn field_at(place: Place, field: u32) -> Named {
    match place {
        Place::Channels => count_field(field),
        Place::Analog(_) => analog_field(field),
        Place::Status(_) if field == 1 => ("channel number", "a whole number"),
        Place::Status(_) => ("normal state", "0, 1 or an empty field"),
        Place::Frequency => (
            "line frequency",
            "a decimal number such as 50, or an empty field",
        ),
        Place::RateCount => ("number of rates", "a whole number from 0 to 999"),
        Place::Rate(_) if field == 1 => ("scans per second", DECIMAL),
        Place::Rate(_) => (
            "last row at this rate",
            "a whole number from 0 to 9999999999",
        ),
        Place::TimeMultiplier => ("time multiplier", DECIMAL),
        _ => ("text", "text"),
    }
}

/// The name of a field of a row, what is expected there, and the channel that it belongs to.
pub(crate) fn row_field(counts: Counts, field: u32) -> (Named, Place) {
    let field = field as u64;
    if field <= 1 {
        return (
            ("row number", "a whole number from 0 to 9999999999"),
            Place::After,
        );
    }
    if field == 2 {
        return (
            (
                "time stamp",
                "a whole number from 0 to 9999999999, or an empty field",
            ),
            Place::After,
        );
    }
    let channel = field.saturating_sub(2);
    if channel <= counts.analog {
        return (
            (
                "sample",
                "a whole number from -99999 to 99999, or an empty field",
            ),
            Place::Analog(channel),
        );
    }
    (
        ("bit", "0 or 1"),
        Place::Status(channel.saturating_sub(counts.analog)),
    )
}
