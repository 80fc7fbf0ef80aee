//! The kinds of files, by the endings of their names.

/// The kind of a file, by its ending.
#[derive(Clone, Copy, PartialEq, Eq)]
pub(crate) enum Ending {
    Cfg,
    Dat,
    /// Both in a single file.
    Cff,
    /// A description of a pair.
    Hdr,
    /// Further information on a pair.
    Inf,
    /// A configuration file compressed by gzip.
    CfgGz,
    /// Data compressed by gzip.
    DatGz,
    /// A compressed single file.
    CffGz,
    /// An archive with the files of a record.
    Zip,
    Cfz,
}

/// All kinds of files.
const ENDINGS: [Ending; 10] = [
    Ending::Cfg,
    Ending::Cff,
    Ending::Dat,
    Ending::Hdr,
    Ending::Inf,
    Ending::CfgGz,
    Ending::DatGz,
    Ending::CffGz,
    Ending::Zip,
    Ending::Cfz,
];

impl Ending {
    pub(crate) fn text(self) -> &'static str {
        match self {
            Ending::Cfg => ".cfg",
            Ending::Dat => ".dat",
            Ending::Cff => ".cff",
            Ending::Hdr => ".hdr",
            Ending::Inf => ".inf",
            Ending::CfgGz => ".cfg.gz",
            Ending::DatGz => ".dat.gz",
            Ending::CffGz => ".cff.gz",
            Ending::Zip => ".zip",
            Ending::Cfz => ".cfz",
        }
    }

    /// Whether a file of this kind is a whole record.
    pub(crate) fn is_whole(self) -> bool {
        matches!(
            self,
            Ending::Cff | Ending::CffGz | Ending::Zip | Ending::Cfz
        )
    }

    /// Whether a file of this kind is an archive.
    pub(crate) fn is_archive(self) -> bool {
        matches!(self, Ending::Zip | Ending::Cfz)
    }
}

/// Whether a name has this ending, in upper or lower case, and something before it.
pub(crate) fn has_ending(name: &[u8], ending: &[u8]) -> bool {
    match name.len().checked_sub(ending.len()) {
        Some(at) if at > 0 => match name.get(at..) {
            Some(back) => back.eq_ignore_ascii_case(ending),
            None => false,
        },
        _ => false,
    }
}

/// The name without its ending, if it has this one in upper or lower case.
pub(crate) fn without_ending(name: &str, ending: Ending) -> Option<&str> {
    let at = name.len().checked_sub(ending.text().len())?;
    let front = name.get(..at)?;
    let back = name.get(at..)?;
    if !front.is_empty() && !front.ends_with('/') && back.eq_ignore_ascii_case(ending.text()) {
        Some(front)
    } else {
        None
    }
}

/// The kind of a file and the name that the files of its record share. A name without an ending is
/// that shared name.
pub(crate) fn stem_of(name: &str) -> (Option<Ending>, &str) {
    for ending in ENDINGS {
        if let Some(stem) = without_ending(name, ending) {
            return (Some(ending), stem);
        }
    }
    (None, name)
}

/// The folder of a name, with its slash, and the rest.
pub(crate) fn folder_of(name: &str) -> (&str, &str) {
    match name.rsplit_once('/') {
        Some((folder, file)) => match name.get(..folder.len() + 1) {
            Some(front) => (front, file),
            None => ("", name),
        },
        None => ("", name),
    }
}

/// The endings of files that are a whole record, in the order in which they are looked for.
pub(crate) const WHOLE: [Ending; 4] = [Ending::Cff, Ending::CffGz, Ending::Zip, Ending::Cfz];
