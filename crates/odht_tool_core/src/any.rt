//! The shape of a table of any sizes: a ready one, or the types of keys and values and the hash
//! function.
ghost use Rattle.std.specs.Prelude.{◌≡◌, ◌≤◌, IfOk, IfSome, IsFalse, is_some, length};
ghost use Rattle.odht_tool_core.specs.AnyShapes.{HasLongKeys, any_of_kinds, any_of_sizes, other_of};
ghost use Rattle.odht_tool_core.specs.AnyShapes.{any_hash, any_key, any_value, kind_of_size};
ghost use Rattle.odht_tool_core.specs.AnyShapes.{types_of, with_own_types};
ghost use Rattle.odht_tool_core.specs.AnyShapes.{named_any, read_any, with_kinds, with_ready_forms};
ghost use Rattle.odht_tool_core.specs.InfoNumbers.{least_key_len};
ghost use Rattle.odht_tool_core.specs.ReadAs.{form_for};
ghost use Rattle.odht_tool_core.specs.ReadyShapes.{early_refusal, typed_len};
ghost use Rattle.odht_tool_core.specs.generated.ShapeList.{key_part, value_part};

use crate::failure::Failure;
use crate::forms::{Form, GivenForms, Kind, Kinds, form_for};
use crate::found::{found_any, said_hash};
use crate::shapes::{Hash, Part, Shape};
use crate::stored::least_key_size;
use odht_header::header::{HEADER_SIZE, Header};

/// The types of keys and values, and the hash function: those of a table of any shape, or a shape
/// that is no ready one.
#[derive(Clone, Copy)]
pub struct OtherShape {
    /// The type of keys: bytes, where nothing else is said.
    pub key: Part,
    /// That of values.
    pub value: Part,
    /// The hash function.
    pub hash: Hash,
}

impl OtherShape {
    /// The same with the types that keys and values of its lengths have by themselves.
    fn with_own_types(self) -> OtherShape
        ensures types { result ≡ with_own_types self }
        ensures key { typed_len result.key ≡ typed_len self.key }
        ensures hash { result.hash ≡ self.hash }
    {
        OtherShape {
            key: Part::own_key(self.key.size(), self.hash),
            value: Part::own_value(self.value.size()),
            hash: self.hash,
        }
    }
}

/// The shape of a table: a ready one, or another.
#[derive(Clone, Copy)]
pub enum AnyShape {
    /// A ready shape.
    Ready(Shape),
    /// Another one.
    Other(OtherShape),
}

impl AnyShape {
    /// The type of its keys.
    pub fn key(self) -> Part
        ensures { result ≡ any_key self }
    {
        match self {
            AnyShape::Ready(shape) => shape.key(),
            AnyShape::Other(other) => other.key,
        }
    }

    /// Its hash function.
    pub fn hash(self) -> Hash
        ensures { result ≡ any_hash self }
    {
        match self {
            AnyShape::Ready(shape) => shape.hash(),
            AnyShape::Other(other) => other.hash,
        }
    }

    /// The type of its values.
    pub fn value(self) -> Part
        ensures { result ≡ any_value self }
    {
        match self {
            AnyShape::Ready(shape) => shape.value(),
            AnyShape::Other(other) => other.value,
        }
    }

    /// Its types and its hash function.
    pub fn types(self) -> OtherShape
        ensures { result ≡ types_of self }
    {
        OtherShape {
            key: self.key(),
            value: self.value(),
            hash: self.hash(),
        }
    }

    /// The shape of keys and values that are said to be these, and of the hash function, where one
    /// is given: the first ready one of their types; else another one, of the default of these
    /// keys where none is given. None where the hash function needs longer keys.
    pub(crate) fn of_kinds(key: Kind, value: Kind, hash: Option<Hash>) -> Option<AnyShape>
        ensures shape { result ≡ any_of_kinds key value hash }
        ensures long { IfSome result HasLongKeys }
    {
        match Shape::of_parts(key.part, value.part, hash) {
            Some(shape) => Some(AnyShape::Ready(shape)),
            None => AnyShape::of_types(
                key.part,
                value.part,
                hash.unwrap_or(key.part.default_hash()),
            )
            .ok(),
        }
    }

    /// The first ready shape of the lengths of these types and of the hash function, where one is
    /// given; else another.
    pub(crate) fn of_sizes(key: Part, value: Part, hash: Option<Hash>) -> Result<AnyShape, Failure>
        ensures shape { result ≡ any_of_sizes key value hash }
        ensures long { IfOk result HasLongKeys }
    {
        match Shape::of_sizes(key.size(), value.size(), hash) {
            Some(shape) => Ok(AnyShape::Ready(shape)),
            None => AnyShape::of_types(key, value, hash.unwrap_or(key.default_hash())),
        }
    }

    // That of these types which is no ready one. `ShortKeys` where the hash function needs longer
    // keys.
    fn of_types(key: Part, value: Part, hash: Hash) -> Result<AnyShape, Failure>
        ensures shape { result ≡ other_of key value hash }
        ensures long { IfOk result HasLongKeys }
    {
        let key_size = key.size();
        if (key_size as usize) < least_key_size(hash) {
            return Err(Failure::ShortKeys { key_size });
        }
        Ok(AnyShape::Other(OtherShape { key, value, hash }))
    }
}

/// The shape of these bytes: the ready one of the key and value sizes in the header, and of the
/// hash function, where one is given; where there is none, another one, of the default of such
/// keys where none is given. Where the check fails before it comes to the sizes, some shape is returned: opening has
/// the same error for each. `ShortKeys` where the hash function needs longer keys.
pub fn named_any(bytes: &[u8], hash: Option<Hash>) -> Result<AnyShape, Failure>
    ensures shape { result ≡ named_any bytes.now hash }
    ensures long { IfOk result HasLongKeys }
{
    if has_early_refusal(bytes) {
        return Ok(AnyShape::Ready(Shape::U64ToU32));
    }
    let header = Header::of(bytes);
    let key = Part::Bytes(header.key_size());
    AnyShape::of_sizes(key, Part::Bytes(header.value_size()), hash)
}

// Whether the check fails before it comes to the sizes: for too few bytes, or the tag, the version
// or the size of a control byte.
fn has_early_refusal(bytes: &[u8]) -> bool
    ensures refused { result ≡ is_some (early_refusal bytes.now) }
    ensures long { IsFalse result → 32 ≤ length bytes.now }
{
    if bytes.len() < HEADER_SIZE {
        return true;
    }
    let header = Header::of(bytes);
    header.check_tag().is_err()
        || header.check_version().is_err()
        || header.check_metadata_size().is_err()
}

/// The shape that the bytes of a file are read as, as `found_any` finds it by the hash function of
/// `said_hash`, and the forms of its keys and values: those that are said, or its own. Keys and
/// values are of the types that are said, where these have their lengths; of what nothing is said
/// those that it has by itself. `OtherKey` or `OtherValue` where what is said is of another length.
pub fn read_any(
    bytes: &[u8],
    hash: Option<Hash>,
    kinds: Kinds,
) -> Result<(AnyShape, GivenForms), Failure>
    ensures forms { result ≡ read_any bytes.now hash kinds }
    ensures long { IfOk result (λ x. HasLongKeys x.0) }
{
    match found_any(bytes, said_hash(bytes, hash, kinds.hash))? {
        AnyShape::Ready(shape) => read_ready(shape, kinds),
        AnyShape::Other(shape) => read_other(shape.with_own_types(), kinds),
    }
}

// A ready shape and its forms, of which this is said; another shape of its lengths, where that is
// of other types.
fn read_ready(shape: Shape, kinds: Kinds) -> Result<(AnyShape, GivenForms), Failure>
    ensures forms { result ≡ with_ready_forms shape kinds
        (form_for kinds.key (key_part shape)) (form_for kinds.value (value_part shape)) }
    ensures long { IfOk result (λ x. HasLongKeys x.0) }
{
    let key = form_for(kinds.key, shape.key());
    let value = form_for(kinds.value, shape.value());
    match (key, value) {
        (Some(key), Some(value)) => Ok((AnyShape::Ready(shape), GivenForms { key, value })),
        _ => read_other(AnyShape::Ready(shape).types(), kinds),
    }
}

// Another shape, with the types that are said, and its forms.
fn read_other(shape: OtherShape, kinds: Kinds) -> Result<(AnyShape, GivenForms), Failure>
    requires { least_key_len shape.hash ≤ typed_len shape.key }
    ensures forms { result ≡ with_kinds shape
        (kind_of_size kinds.key shape.key) (kind_of_size kinds.value shape.value) }
    ensures long { IfOk result (λ x. HasLongKeys x.0) }
{
    let Some(key) = kind_of_size(kinds.key, shape.key) else {
        return Err(Failure::OtherKey(shape.key));
    };
    let Some(value) = kind_of_size(kinds.value, shape.value) else {
        return Err(Failure::OtherValue(shape.value));
    };
    let shape = AnyShape::Other(OtherShape {
        key: key.part,
        value: value.part,
        hash: shape.hash,
    });
    let forms = GivenForms {
        key: key.form,
        value: value.form,
    };
    Ok((shape, forms))
}

// What stored bytes of this type are read as, where `kind` is said of them, or nothing. None where
// that has another length.
fn kind_of_size(kind: Option<Kind>, part: Part) -> Option<Kind>
    ensures kind { result ≡ kind_of_size kind part }
    ensures len { IfSome result (λ k. typed_len k.part ≡ typed_len part) }
{
    match kind {
        None => Some(Kind {
            part,
            form: Form::Own,
        }),
        Some(kind) if kind.part.size() == part.size() => Some(kind),
        Some(_) => None,
    }
}
