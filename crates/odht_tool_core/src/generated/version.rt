//! The version. Generated from packaging/VERSION by make generate.

/// The version of the program, which is that of the library.
pub(crate) const VERSION: &str = "0.4.0";
