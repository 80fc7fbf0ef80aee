//! The encodings, by their names.

/// The encoding of texts.
#[derive(Clone, Copy, Debug, PartialEq, Eq)]
pub enum Encoding {
    Utf8,
    Latin1,
    Windows1251,
    Windows1252,
    Cp437,
    Cp850,
    Cp866,
    Gbk,
    ShiftJis,
}

/// The names of the encodings.
const NAMES: [(&str, Encoding); 21] = [
    ("utf-8", Encoding::Utf8),
    ("utf8", Encoding::Utf8),
    ("latin1", Encoding::Latin1),
    ("latin-1", Encoding::Latin1),
    ("iso-8859-1", Encoding::Latin1),
    ("windows-1251", Encoding::Windows1251),
    ("cp1251", Encoding::Windows1251),
    ("windows-1252", Encoding::Windows1252),
    ("cp1252", Encoding::Windows1252),
    ("cp437", Encoding::Cp437),
    ("cp850", Encoding::Cp850),
    ("cp866", Encoding::Cp866),
    ("ibm866", Encoding::Cp866),
    ("gbk", Encoding::Gbk),
    ("cp936", Encoding::Gbk),
    ("gb2312", Encoding::Gbk),
    ("shift_jis", Encoding::ShiftJis),
    ("shift-jis", Encoding::ShiftJis),
    ("sjis", Encoding::ShiftJis),
    ("cp932", Encoding::ShiftJis),
    ("windows-31j", Encoding::ShiftJis),
];

impl Encoding {
    /// The encoding with this name, in upper or lower case; None for an unknown one.
    pub fn named(name: &str) -> Option<Encoding> {
        for (known, encoding) in NAMES {
            if name.eq_ignore_ascii_case(known) {
                return Some(encoding);
            }
        }
        None
    }
}
