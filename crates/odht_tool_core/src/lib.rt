//! `odht_tool_core`: what the program for table files, `odht_tool`, is made of that needs no table
//! of `odht`: words, lines, keys and values as text, files, and the numbers of a table of any
//! sizes.
#![tactic(auto)]

pub mod advice;
pub mod answers;
pub mod any;
pub mod arguments;
mod digits;
pub mod dynamic_bytes;
pub mod dynamic_slots;
pub mod evidence;
pub mod failure;
pub mod files;
pub mod find;
pub mod forms;
pub mod found;
pub mod front;
mod generated;
mod groups;
pub mod help;
pub mod hexadecimal;
mod histogram;
pub mod info;
pub mod inside;
pub mod job;
pub mod json;
pub mod key_lists;
pub mod keys;
pub mod line_messages;
pub mod lines;
pub mod misread;
mod near;
pub mod new_file;
mod numbers;
mod obstacles;
pub mod pairs;
pub mod percents;
pub mod places;
mod plain;
pub mod progress;
pub mod refusal;
pub mod report;
pub mod shapes;
mod shown;
mod signed;
pub mod slots;
pub mod status;
pub mod stored;
mod stretches;
pub mod tags;
pub mod targets;
pub mod text;
pub mod typed;
pub mod written;
