//! What writers answer at their borders and where the output fails, and the File of a recorder's own record.

mod borders;
pub mod changes;
mod outputs;
mod records;
