//! What is generated: commands and their help, the ready shapes, the version.

pub(crate) mod help;
pub(crate) mod shapes;
pub(crate) mod topics;
pub(crate) mod version;
