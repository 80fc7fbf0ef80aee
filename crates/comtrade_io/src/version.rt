//! The version of everything in this repository.

/// The version, and the logic that checks the proofs, which several releases of the toolchain
/// share. The file `VERSION` at the top has the number alone; a test compares both, and the versions
/// of the C header and the packages.
pub const VERSION: &str = "1.2.0 (Rattle logic dac8208d650f15bf)";
