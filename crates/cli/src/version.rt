//! The version that the program prints.

/// The version. `tools/release` writes the version and the commit of a release here, before the gate proves it.
pub const VERSION: &str = "0.1.0-unreleased";
