//! The configuration of each shape. Generated from lists/shapes.txt by make generate.

/// A configuration as the kind of [`for_shape`](crate::for_shape).
pub type Itself<C> = C;

/// Calls a function for a shape. Its first type parameter is of a kind, such as `HashTableOwned` or
/// [`Itself`], and of the configuration of the shape:
/// `for_shape!(shape, Kind, function[more, parameters](arguments))`.
#[macro_export]
macro_rules! for_shape {
    ($shape:expr, $kind:ident, $function:ident[$($more:ty),*]($($argument:expr),*)) => {
        match $shape {
            Shape::U32ToU32 => {
                $function::<$kind<odht::configs::U32ToU32>, $($more),*>($($argument),*)
            }
            Shape::DirectU32ToU32 => {
                $function::<$kind<odht::configs::DirectU32ToU32>, $($more),*>($($argument),*)
            }
            Shape::U64ToU32 => {
                $function::<$kind<odht::configs::U64ToU32>, $($more),*>($($argument),*)
            }
            Shape::U64ToU64 => {
                $function::<$kind<odht::configs::U64ToU64>, $($more),*>($($argument),*)
            }
            Shape::U64Set => {
                $function::<$kind<odht::configs::U64Set>, $($more),*>($($argument),*)
            }
            Shape::Bytes8ToU32 => {
                $function::<$kind<odht::configs::Bytes8ToU32>, $($more),*>($($argument),*)
            }
            Shape::Bytes8ToU64 => {
                $function::<$kind<odht::configs::Bytes8ToU64>, $($more),*>($($argument),*)
            }
            Shape::Bytes16ToU32 => {
                $function::<$kind<odht::configs::Bytes16ToU32>, $($more),*>($($argument),*)
            }
            Shape::Bytes16ToU64 => {
                $function::<$kind<odht::configs::Bytes16ToU64>, $($more),*>($($argument),*)
            }
            Shape::Bytes20ToU64 => {
                $function::<$kind<odht::configs::Bytes20ToU64>, $($more),*>($($argument),*)
            }
            Shape::Bytes32ToU64 => {
                $function::<$kind<odht::configs::Bytes32ToU64>, $($more),*>($($argument),*)
            }
            Shape::Bytes16ToBytes16 => {
                $function::<$kind<odht::configs::Bytes16ToBytes16>, $($more),*>($($argument),*)
            }
            Shape::Bytes32ToBytes32 => {
                $function::<$kind<odht::configs::Bytes32ToBytes32>, $($more),*>($($argument),*)
            }
            Shape::Bytes8Set => {
                $function::<$kind<odht::configs::Bytes8Set>, $($more),*>($($argument),*)
            }
            Shape::Bytes16Set => {
                $function::<$kind<odht::configs::Bytes16Set>, $($more),*>($($argument),*)
            }
            Shape::Bytes20Set => {
                $function::<$kind<odht::configs::Bytes20Set>, $($more),*>($($argument),*)
            }
            Shape::Bytes32Set => {
                $function::<$kind<odht::configs::Bytes32Set>, $($more),*>($($argument),*)
            }
        }
    };
}
