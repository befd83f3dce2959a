//! How the fields of a line are taken, one after the other up to its end, and its instruction made.

/// The instruction, by the fields that were taken and those that come next, each with the call that takes it.
macro_rules! take_fields {
    ($n:ident, $cursor:expr, { $($taken:ident),* }, $($f:ident : $m:ident),*) => {{
        $(let $f = $cursor.$m()?;)*
        $cursor.end()?;
        Some(Inst::$n { $($taken,)* $($f),* })
    }};
}

/// The instruction on vector or float registers, by its fields, each with the call that takes it.
macro_rules! take_vector_fields {
    ($n:ident, $cursor:expr, $($f:ident : $m:ident),*) => {{
        $(let $f = $cursor.$m()?;)*
        $cursor.end()?;
        Some(Inst::Vector(VecInst::$n { $($f),* }))
    }};
}

/// The instruction of a name, where it is one of these.
macro_rules! take_rows {
    (($names:ident, $name:expr, $cursor:expr, $taken:tt) $($n:ident { $($f:ident : $m:ident),* })*) => {
        match $name {
            $($names::$n => take_fields!($n, $cursor, $taken, $($f: $m),*),)*
            _ => None,
        }
    };
}

pub(crate) use take_fields;
pub(crate) use take_rows;
pub(crate) use take_vector_fields;
