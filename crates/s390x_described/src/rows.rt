//! The walk over the fields of instructions, written from their tables.

/// The instruction with other registers, where it is of the group that is named first; else what is said instead.
macro_rules! again {
    ((operators, $($with:tt)*) operators { $($row:tt)* } $($rest:tt)*) => {
        again_rows! { ($($with)*) $($row)* }
    };
    ((moves, $($with:tt)*) operators $operators:tt moves { $($row:tt)* } $($rest:tt)*) => {
        again_rows! { ($($with)*) $($row)* }
    };
    ((memory, $($with:tt)*) operators $operators:tt moves $moves:tt loads $loads:tt stores $stores:tt memory { $($row:tt)* } $($rest:tt)*) => {
        again_rows! { ($($with)*) $($row)* }
    };
    (
        (addresses, $($with:tt)*)
        operators $operators:tt moves $moves:tt loads $loads:tt stores $stores:tt memory $memory:tt control $control:tt
        addresses { $($row:tt)* }
    ) => {
        again_rows! { ($($with)*) $($row)* }
    };
}

macro_rules! again_rows {
    (($inst:expr, $r:expr, $other:expr) $($n:ident { $($f:ident : $k:ident),* })*) => {
        match $inst {
            $(Inst::$n { $($f),* } => Some(with_roles!($r, Inst, $n, $($f: $k),*)),)*
            _ => $other,
        }
    };
}

/// An instruction on vector or float registers with others.
macro_rules! vector_again {
    (
        ($inst:expr, $r:expr)
        loads { $($l:ident $from:ident { $($a:ident : $i:ident),* })* }
        stores { $($s:ident $to:ident { $($b:ident : $j:ident),* })* }
        others { $($n:ident { $($f:ident : $k:ident),* })* }
    ) => {
        match $inst {
            $(VecInst::$l { $($a),* } => with_roles!($r, VecInst, $l, $($a: $i),*),)*
            $(VecInst::$s { $($b),* } => with_roles!($r, VecInst, $s, $($b: $j),*),)*
            $(VecInst::$n { $($f),* } => with_roles!($r, VecInst, $n, $($f: $k),*),)*
        }
    };
}

/// A variant by its fields, each with another register in its role, in the order of the report: that of the fields, but for a product or a division, whose
/// pair comes behind its other inputs, and the input that has to be of this pair behind it.
macro_rules! with_roles {
    ($r:expr, $t:ident, $n:ident, $d:ident : written_pair, $a:ident : reg) => {
        $t::$n { $a: $r.input(*$a), $d: $r.output_pair(*$d) }
    };
    ($r:expr, $t:ident, $n:ident, $d:ident : written_pair, $a:ident : reg, $b:ident : reg) => {
        $t::$n { $a: $r.input(*$a), $b: $r.input(*$b), $d: $r.output_pair(*$d) }
    };
    ($r:expr, $t:ident, $n:ident, $d:ident : written_pair, $i:ident : $k:ident, $a:ident : reg) => {
        $t::$n { $a: $r.input(*$a), $d: $r.output_pair(*$d), $i: in_role!($r, $i, $k) }
    };
    ($r:expr, $t:ident, $n:ident, $($f:ident : $k:ident),*) => {
        $t::$n { $($f: in_role!($r, $f, $k)),* }
    };
}

/// A field with another register in its role.
macro_rules! in_role {
    ($r:expr, $f:ident, written_reg) => { $r.output(*$f) };
    ($r:expr, $f:ident, tied_reg) => { $r.tied_output(*$f) };
    ($r:expr, $f:ident, reg) => { $r.input(*$f) };
    ($r:expr, $f:ident, low_reg) => { $r.low_input(*$f) };
    ($r:expr, $f:ident, pair) => { $r.input_pair(*$f) };
    ($r:expr, $f:ident, memory) => { $r.memory(*$f) };
    ($r:expr, $f:ident, $k:ident) => { *$f };
}

pub(crate) use again;
pub(crate) use again_rows;
pub(crate) use in_role;
pub(crate) use vector_again;
pub(crate) use with_roles;
