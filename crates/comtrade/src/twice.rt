//! Names that are the two files of one pair.

use crate::ending::{Ending, stem_of, without_ending};
use crate::find::either_for;
use std::alloc::AllocError;
use std::rt::Files;

/// Whether a name is that of a data file.
pub(crate) fn is_data(name: &str) -> bool {
    matches!(stem_of(name).0, Some(Ending::Dat | Ending::DatGz))
}

/// Whether a name is that of a configuration file.
pub(crate) fn is_head(name: &str) -> bool {
    matches!(stem_of(name).0, Some(Ending::Cfg | Ending::CfgGz))
}

/// Whether a name has one of two endings, with this stem before it, in upper or lower case.
fn has_stem(name: &str, stem: &str, plain: Ending, packed: Ending) -> bool {
    for ending in [plain, packed] {
        if let Some(front) = without_ending(name, ending) {
            if front.eq_ignore_ascii_case(stem) {
                return true;
            }
        }
    }
    false
}

/// Whether a file has this name.
fn is_named(file: Option<String>, name: &str) -> bool {
    match file {
        Some(file) => file.as_str() == name,
        None => false,
    }
}

/// Whether a configuration file and a data file are each read with the other.
fn are_pair<R: Files + AllocGlobal + Clone + Drop>(
    rt: &R,
    head: &str,
    data_file: &str,
) -> Result<bool, AllocError> {
    let (_, stem) = stem_of(head);
    if !has_stem(data_file, stem, Ending::Dat, Ending::DatGz) {
        return Ok(false);
    }
    let beside = either_for(rt, head, Ending::Dat, Ending::DatGz)?;
    if !is_named(beside, data_file) {
        return Ok(false);
    }
    let beside = either_for(rt, data_file, Ending::Cfg, Ending::CfgGz)?;
    Ok(is_named(beside, head))
}

/// Whether one of these names, of which the last ones are most likely, is the data file that is read
/// with this configuration file.
pub(crate) fn has_data<R: Files + AllocGlobal + Clone + Drop>(
    rt: &R,
    names: &[String],
    head: &str,
) -> Result<bool, AllocError> {
    for name in names.iter().rev() {
        if are_pair(rt, head, name.as_str())? {
            return Ok(true);
        }
    }
    Ok(false)
}

/// Whether one of these names, of which the last ones are most likely, is the configuration file that
/// is read with this data file.
pub(crate) fn has_head<R: Files + AllocGlobal + Clone + Drop>(
    rt: &R,
    names: &[String],
    data_file: &str,
) -> Result<bool, AllocError> {
    for name in names.iter().rev() {
        if is_head(name.as_str()) && are_pair(rt, name.as_str(), data_file)? {
            return Ok(true);
        }
    }
    Ok(false)
}
