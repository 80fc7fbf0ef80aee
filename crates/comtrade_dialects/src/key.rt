//! The kinds of repairs. Their keys are stable.

/// A kind of repair, or an oddity that is kept or ignored.
#[derive(Clone, Copy, Debug, PartialEq, Eq)]
pub enum Key {
    /// Read as revision 1991.
    Revision1991,
    /// Read as revision 2013.
    Revision2013,
    /// No year in line 1, but the lines have the 1999 form; read as revision 1999.
    RevisionAbsent,
    /// Another year; read as revision 1999.
    RevisionOther,
    /// 1991 has no ratio and no side; P and 1:1 are used.
    SidesAbsent,
    /// The side is missing; P is used.
    SideEmpty,
    /// Dates have the month first.
    DatesMdy,
    /// Dates of a 1991 file have the day first.
    DatesDmy,
    /// Dates are valid in both orders; which order is used.
    DatesAmbiguous,
    /// Dates with other separators or another order than dd/mm/yyyy.
    DateForm,
    /// Two-digit years; which year is used.
    Years2Digits,
    /// 24:00:00 was changed to 00:00:00 of the next day.
    Time24,
    /// Second 60 was changed to second 0 of the next minute.
    LeapSecond,
    /// Seconds with more than six decimal places were rounded.
    FractionLong,
    /// A decimal point without digits after the seconds.
    FractionForm,
    /// A colon instead of a decimal point before the fraction of a second.
    FractionColon,
    /// An empty or zero date was changed to 01/01/1970.
    InstantUnset,
    /// No trigger time; the time of the first row is used.
    TriggerUnset,
    /// The trigger is before the first row (kept).
    TriggerBeforeFirst,
    /// No timemult; 1 is used.
    NoTimemult,
    /// Time codes and time quality were left out.
    Lines2013Dropped,
    /// Status lines without phase and component.
    Status3Fields,
    /// Status lines without component; the last field is the normal state.
    Status4Fields,
    /// An empty number; which value is used.
    NumberEmpty,
    /// Channel counts in another order or with spaces.
    CountsForm,
    /// The total is not the sum of both counts; the sum is used.
    CountsTotal,
    /// The number of rates or a last row is not written as a whole number.
    RatesForm,
    /// Channels were renumbered in the order of their lines.
    IndexOrder,
    /// Min and max were swapped.
    RangeSwapped,
    /// Min and max that 1999 cannot hold were replaced.
    RangeForm,
    /// A channel's multiplier is 0 (kept).
    AZero,
    /// Fortran exponents (1.5D-3).
    ExponentD,
    /// Decimal commas.
    DecimalComma,
    /// Semicolons between fields.
    SeparatorSemicolon,
    /// Empty fields at the ends of lines were left out.
    TrailingCommas,
    /// Blank lines were left out.
    BlankLines,
    /// Lines end in CR only.
    LineEndsCr,
    /// Lines end in CR CR LF.
    LineEndsCrcr,
    /// The UTF-8 byte order mark was left out.
    Bom,
    /// The file is UTF-16.
    Utf16,
    /// The byte 1A in the cfg and everything after it were left out.
    Cfg1a,
    /// Non-ASCII characters were spelled in ASCII.
    TextsNotAscii,
    /// Texts were shortened.
    TextLong,
    /// A phase of more than two characters was left out.
    PhaseLong,
    /// A channel has no unit; NONE is used.
    UnitEmpty,
    /// A comma within a text; a written pair has a semicolon.
    TextComma,
    /// NUL bytes at the ends of texts were left out.
    TextNul,
    /// Different ids would become equal; a number was appended.
    IdsAlike,
    /// No rate line after nrates 0.
    RateLineAbsent,
    /// A rate of 0; nrates becomes 0, and times come from the time stamps.
    RateZero,
    /// Fewer rows than endsamp; endsamp was lowered.
    RowsFewer,
    /// More rows than endsamp; endsamp was raised.
    RowsMore,
    /// Row numbers and time stamps jump: rows are missing; how many, where, and what was done.
    RowsLost,
    /// An incomplete last row was left out.
    RowCut,
    /// Rows were renumbered.
    SampleNumbers,
    /// Time stamps restart; times come from the rate.
    StampsRestart,
    /// Time stamps contradict the rate; which is used.
    StampsAgainstRate,
    /// Time stamps with decimals were rounded.
    StampsDecimal,
    /// Time stamps were shifted so that the first is 0.
    StampsShifted,
    /// Time stamps overflowed at 2^32; the later ones were raised.
    StampsWrapped,
    /// Time stamps are in nanoseconds.
    StampsNs,
    /// Time stamps are greater than 1999 allows; written ones count a longer unit.
    StampsLong,
    /// No time stamps; times come from the rate.
    StampsAbsent,
    /// Neither time stamps nor a rate: the rows have no times.
    TimesUnknown,
    /// Samples with decimals became whole numbers; a was adjusted.
    ValuesDecimal,
    /// Samples have over 16 bits (BINARY) or five digits (ASCII); a written pair has them scaled.
    ValuesWide,
    /// Samples are unsigned; b was adjusted.
    ValuesUnsigned,
    /// Values are not held exactly; the greatest error of each channel.
    ValuesRounded,
    /// Missing values had a mark other than that of the standard.
    MissingMarks,
    /// BINARY32 data.
    KindBinary32,
    /// FLOAT32 data.
    KindFloat32,
    /// The data are not of the type given in the cfg.
    KindOther,
    /// The cfg does not give the data type.
    KindAbsent,
    /// A byte 1A after BINARY data was left out.
    Dat1a,
    /// Everything after the byte 1A of ASCII data was left out.
    DatAfterEnd,
    /// Binary rows are two bytes longer than the channel counts give.
    RowSize,
    /// Unused bits are set in status words (ignored).
    StatusSpareBits,
    /// The binary data have the most significant byte first.
    BigEndian,
    /// A single file was split into its sections.
    Cff,
    /// Section separators are not spelled as in 2013.
    CffForm,
    /// The byte count of the DAT section is wrong.
    CffCount,
    /// The heading of the DAT section names another type than its data have.
    CffKind,
    /// The INF section was left out.
    InfDropped,
    /// The HDR section was left out.
    HdrDropped,
}

impl Key {
    /// The key of this name.
    pub fn named(name: &str) -> Option<Key> {
        for key in ALL.iter() {
            if key.name() == name {
                return Some(*key);
            }
        }
        None
    }
}

/// All keys.
static ALL: [Key; 84] = [
    Key::Revision1991,
    Key::Revision2013,
    Key::RevisionAbsent,
    Key::RevisionOther,
    Key::SidesAbsent,
    Key::SideEmpty,
    Key::DatesMdy,
    Key::DatesDmy,
    Key::DatesAmbiguous,
    Key::DateForm,
    Key::Years2Digits,
    Key::Time24,
    Key::LeapSecond,
    Key::FractionLong,
    Key::FractionForm,
    Key::FractionColon,
    Key::InstantUnset,
    Key::TriggerUnset,
    Key::TriggerBeforeFirst,
    Key::NoTimemult,
    Key::Lines2013Dropped,
    Key::Status3Fields,
    Key::Status4Fields,
    Key::NumberEmpty,
    Key::CountsForm,
    Key::CountsTotal,
    Key::RatesForm,
    Key::IndexOrder,
    Key::RangeSwapped,
    Key::RangeForm,
    Key::AZero,
    Key::ExponentD,
    Key::DecimalComma,
    Key::SeparatorSemicolon,
    Key::TrailingCommas,
    Key::BlankLines,
    Key::LineEndsCr,
    Key::LineEndsCrcr,
    Key::Bom,
    Key::Utf16,
    Key::Cfg1a,
    Key::TextsNotAscii,
    Key::TextLong,
    Key::PhaseLong,
    Key::UnitEmpty,
    Key::TextComma,
    Key::TextNul,
    Key::IdsAlike,
    Key::RateLineAbsent,
    Key::RateZero,
    Key::RowsFewer,
    Key::RowsMore,
    Key::RowsLost,
    Key::RowCut,
    Key::SampleNumbers,
    Key::StampsRestart,
    Key::StampsAgainstRate,
    Key::StampsDecimal,
    Key::StampsShifted,
    Key::StampsWrapped,
    Key::StampsNs,
    Key::StampsLong,
    Key::StampsAbsent,
    Key::TimesUnknown,
    Key::ValuesDecimal,
    Key::ValuesWide,
    Key::ValuesUnsigned,
    Key::ValuesRounded,
    Key::MissingMarks,
    Key::KindBinary32,
    Key::KindFloat32,
    Key::KindOther,
    Key::KindAbsent,
    Key::Dat1a,
    Key::DatAfterEnd,
    Key::RowSize,
    Key::StatusSpareBits,
    Key::BigEndian,
    Key::Cff,
    Key::CffForm,
    Key::CffCount,
    Key::CffKind,
    Key::InfDropped,
    Key::HdrDropped,
];
