//! The names of the files of a folder.

/// What the names of a pair begin with.
#[derive(Clone, Copy, Debug, PartialEq, Eq, PartialOrd, Ord)]
pub struct Key {
    /// Year, month and day as eight digits.
    pub date: u32,
    /// Hour, minute and second as six digits.
    pub time: u32,
    /// Microseconds of the second.
    pub micros: u32,
    /// The record's number.
    pub number: u64,
    /// The number at the end; 1 if there is none.
    pub copy: u64,
}

/// What the name of a file ends in.
#[derive(Clone, Copy, Debug, PartialEq, Eq)]
pub enum Ending {
    /// `.cfg`: the configuration file.
    Config,
    /// `.dat`: the data file.
    Data,
    /// `.cfg.part`: a configuration file that is being written.
    ConfigPart,
    /// `.dat.part`: a data file that is being written.
    DataPart,
    /// `.cfg.gone`: the configuration file of a pair that is being removed.
    Gone,
}

/// The name of a file.
#[derive(Clone, Copy, Debug, PartialEq, Eq)]
pub struct Name {
    pub key: Key,
    pub ending: Ending,
}

/// Which files of a key there are.
#[derive(Clone, Copy, Debug, PartialEq, Eq)]
pub struct Names {
    pub cfg: bool,
    pub dat: bool,
    pub cfg_part: bool,
    pub dat_part: bool,
    pub gone: bool,
}

/// A file that is there.
#[derive(Clone, Copy, Debug, PartialEq, Eq)]
pub struct Seen {
    pub name: Name,
    /// Whether its bytes are on the disk.
    pub synced: bool,
}
