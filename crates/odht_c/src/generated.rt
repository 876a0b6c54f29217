//! The exports of each shape of table. Generated from lists/shapes.txt by make generate.

pub(crate) mod b16;
pub(crate) mod b16_b16;
pub(crate) mod b16_u32;
pub(crate) mod b16_u64;
pub(crate) mod b20;
pub(crate) mod b20_u64;
pub(crate) mod b32;
pub(crate) mod b32_b32;
pub(crate) mod b32_u64;
pub(crate) mod b8;
pub(crate) mod b8_u32;
pub(crate) mod b8_u64;
pub(crate) mod u32_u32;
pub(crate) mod u64;
pub(crate) mod u64_u32;
pub(crate) mod u64_u64;
