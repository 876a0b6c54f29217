//! `odht build` and `odht put`: tables from the lines of standard input.
ghost use Rattle.std.specs.Prelude.{◌≡◌};
ghost use Rattle.odht_tool_core.specs.DynTexts.{dynamic_forms};

use crate::inserts::lines::{Place, check_lines, insert_lines, left, makes_no_table, place_of};
use crate::inserts::{Inserts, LineJob};
use odht::dynamic::DynTableOwned;
use odht::{FxHashFn, HashTableOwned, UnHashFn, Xxh64HashFn};
use odht_tool_core::any::{AnyShape, OtherShape, read_any};
use odht_tool_core::arguments::{BuildOptions, PutOptions};
use odht_tool_core::evidence::ask_kinds;
use odht_tool_core::failure::Failure;
use odht_tool_core::files::read_file;
use odht_tool_core::forms::{Forms, GivenForms, LineForms, OwnForms};
use odht_tool_core::job::Streams;
use odht_tool_core::new_file::make_new;
use odht_tool_core::shapes::{Hash, Shape};
use odht_tool_core::status::Status;
use odht_tool_core::targets::Target;
use odht_tool_tables::dynamic::lengths_of;
use odht_tool_tables::for_shape;
use std::io::{BufRead, Write};
use std::os::fd::AsFd;
use std::rt::{Clock, Files};

// Calls a function for the lines of a table of a shape: its first two type parameters are the kind
// of the table and that of the forms, and its first argument is the job of the lines.
macro_rules! for_lines {
    (
        $rt:expr, $options:expr, $shape:expr, $forms:expr,
        $function:ident[$($more:ty),*]($($argument:expr),*)
    ) => {{
        let (given, delimiter): (GivenForms, u8) = ($forms, $options.delimiter);
        let (rt, duplicates, watch) = ($rt, $options.duplicates, $options.watch);
        let layout = lengths_of($shape.key(), $shape.value());
        match $shape {
            AnyShape::Ready(shape) if given.are_own() && delimiter == b'\t' => {
                let job = LineJob { rt, layout, forms: OwnForms, duplicates, watch };
                for_shape!(
                    shape, HashTableOwned, $function[OwnForms, $($more),*](&job, $($argument),*)
                )
            }
            AnyShape::Ready(shape) => {
                let forms = LineForms { forms: given, delimiter };
                let job = LineJob { rt, layout, forms, duplicates, watch };
                for_shape!(
                    shape, HashTableOwned, $function[LineForms, $($more),*](&job, $($argument),*)
                )
            }
            AnyShape::Other(shape) => {
                let forms = line_forms(shape, given, delimiter);
                let job = LineJob { rt, layout, forms, duplicates, watch };
                match shape.hash {
                    Hash::Fx => {
                        $function::<DynTableOwned<FxHashFn>, LineForms, $($more),*>(
                            &job, $($argument),*
                        )
                    }
                    Hash::Unhash => {
                        $function::<DynTableOwned<UnHashFn>, LineForms, $($more),*>(
                            &job, $($argument),*
                        )
                    }
                    Hash::Xxh64 => {
                        $function::<DynTableOwned<Xxh64HashFn>, LineForms, $($more),*>(
                            &job, $($argument),*
                        )
                    }
                }
            }
        }
    }};
}

/// Makes a table from the lines, and stores it as the file; or writes it to `output`, where the
/// name stands for that.
pub fn build<R: Files + AllocGlobal + Clock, I: BufRead, O: Write, E: Write>(
    rt: &R,
    file: &str,
    options: BuildOptions,
    streams: &mut Streams<'_, '_, '_, I, O, E>,
) -> Result<Status, Failure>
where
    R::File: AsFd,
{
    let mut place = place_of(rt, file, options.is_check, options.allowed)?;
    let done = build_at(rt, &mut place, options, streams);
    left(rt, place, done)
}

// The same where the place of the table is known.
fn build_at<R: Files + AllocGlobal + Clock, I: BufRead, O: Write, E: Write>(
    rt: &R,
    place: &mut Place<R::File>,
    options: BuildOptions,
    streams: &mut Streams<'_, '_, '_, I, O, E>,
) -> Result<Status, Failure>
where
    R::File: AsFd,
{
    for_lines!(
        rt,
        options,
        options.shape,
        options.forms,
        build_table[R, I, O, E](place, options, streams)
    )
}

// The same where the kind of the table and the forms are known.
fn build_table<
    T: Inserts,
    F: Forms,
    R: Files + AllocGlobal + Clock,
    I: BufRead,
    O: Write,
    E: Write,
>(
    job: &LineJob<'_, R, F>,
    place: &mut Place<R::File>,
    options: BuildOptions,
    streams: &mut Streams<'_, '_, '_, I, O, E>,
) -> Result<Status, Failure>
where
    R::File: AsFd,
{
    if makes_no_table(job.duplicates, options.is_check) {
        return check_lines::<T::Pairs, F, R, I, E>(job, streams.input, streams.errors);
    }
    let table = T::empty(
        job.rt.alloc(),
        job.layout,
        options.capacity,
        options.percent,
    )?;
    insert_lines(job, place, table, streams)
}

/// Adds the lines to the table in the file, and stores the new one in its place. The older one is
/// checked whole before, with the bound of searches where there is one, and stays where something
/// fails.
pub fn put<R: Files + AllocGlobal + Clock, I: BufRead, O: Write, E: Write>(
    rt: &R,
    file: &str,
    options: PutOptions,
    streams: &mut Streams<'_, '_, '_, I, O, E>,
) -> Result<Status, Failure>
where
    R::File: AsFd,
{
    let target = Target::find_table(rt, file, options.breaks_links)?;
    let new = make_new(rt, target)?;
    let bytes = read_file(rt, new.path());
    let mut place = Place::File(new);
    let done = put_at(rt, &mut place, bytes, options, streams);
    left(rt, place, done)
}

// The same where the bytes of the file are read.
fn put_at<R: Files + AllocGlobal + Clock, I: BufRead, O: Write, E: Write>(
    rt: &R,
    place: &mut Place<R::File>,
    bytes: Result<Vec<u8>, Failure>,
    options: PutOptions,
    streams: &mut Streams<'_, '_, '_, I, O, E>,
) -> Result<Status, Failure>
where
    R::File: AsFd,
{
    let bytes = bytes?;
    let (shape, forms) = read_any(bytes.as_slice(), options.hash, options.kinds)?;
    ask_kinds(bytes.as_slice(), shape, options.kinds)?;
    for_lines!(
        rt,
        options,
        shape,
        forms,
        put_table[R, I, O, E](place, bytes, options.bound, streams)
    )
}

// The same where the kind of the table and the forms are known.
fn put_table<T: Inserts, F: Forms, R: Files + AllocGlobal + Clock, I: BufRead, O: Write, E: Write>(
    job: &LineJob<'_, R, F>,
    place: &mut Place<R::File>,
    bytes: Vec<u8>,
    bound: Option<usize>,
    streams: &mut Streams<'_, '_, '_, I, O, E>,
) -> Result<Status, Failure>
where
    R::File: AsFd,
    requires { T.is_long_enough job.now.layout.key_len }
{
    let table = T::copy(job.rt.alloc(), job.layout, bytes, bound)?;
    insert_lines(job, place, table, streams)
}

// The forms of the lines of a table of this shape, with this byte between key and value.
fn line_forms(shape: OtherShape, forms: GivenForms, delimiter: u8) -> LineForms
    ensures forms { result.forms ≡ dynamic_forms shape forms }
    ensures delimiter { result.delimiter ≡ delimiter }
{
    LineForms {
        forms: forms.of(shape),
        delimiter,
    }
}
