//! What is generated: the way from a shape to its configuration.

pub mod shapes;
