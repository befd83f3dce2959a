//! What is written of lines from the tables of instructions: their names' texts, their printers and their readers. Each kind of field but some of registers
//! is the call of the cursor that reads it. The names of a group are declared in the order of their table.

/// Each name of a group with its text.
macro_rules! named {
    ((IntegerName) operators { $($a:ident $x:tt)* } moves { $($b:ident $y:tt)* } $($rest:tt)*) => {
        &[$((IntegerName::$a, stringify!($a)),)* $((IntegerName::$b, stringify!($b)),)*]
    };
    ((MemoryName) operators $operators:tt moves $moves:tt loads $loads:tt stores $stores:tt memory { $($n:ident $x:tt)* } $($rest:tt)*) => {
        &[$((MemoryName::$n, stringify!($n))),*]
    };
    (
        (ControlName, $($other:ident)*)
        operators $operators:tt moves $moves:tt loads $loads:tt stores $stores:tt memory $memory:tt
        control { $($a:ident $x:tt)* } addresses { $($b:ident $y:tt)* }
    ) => {
        &[
            $((ControlName::$a, stringify!($a)),)*
            $((ControlName::$b, stringify!($b)),)*
            $((ControlName::$other, stringify!($other)),)*
        ]
    };
    ((VectorName) loads $loads:tt stores $stores:tt others { $($n:ident $x:tt)* }) => {
        &[$((VectorName::$n, stringify!($n))),*]
    };
}

/// The texts of loads' names, or of stores'.
macro_rules! texts {
    ((loads) operators $operators:tt moves $moves:tt loads { $($n:ident $x:tt)* } $($rest:tt)*) => {
        [$(stringify!($n)),*]
    };
    ((stores) operators $operators:tt moves $moves:tt loads $loads:tt stores { $($n:ident $x:tt)* } $($rest:tt)*) => {
        [$(stringify!($n)),*]
    };
    ((whole_loads) loads { $($n:ident $layout:ident $x:tt)* } $($rest:tt)*) => {
        [$(stringify!($n)),*]
    };
    ((whole_stores) loads $loads:tt stores { $($n:ident $layout:ident $x:tt)* } $($rest:tt)*) => {
        [$(stringify!($n)),*]
    };
}

/// The instruction of a name, of which each field is read.
macro_rules! read_rows {
    ((IntegerName, $name:expr, $c:expr) operators { $($a:tt)* } moves { $($b:tt)* } $($rest:tt)*) => {
        read_group! { (IntegerName, Inst, $name, $c) $($a)* $($b)* }
    };
    (
        (MemoryName, $name:expr, $c:expr)
        operators $operators:tt moves $moves:tt loads $loads:tt stores $stores:tt memory { $($a:tt)* } $($rest:tt)*
    ) => {
        read_group! { (MemoryName, Inst, $name, $c) $($a)* }
    };
    ((VectorName, $name:expr, $c:expr) loads $loads:tt stores $stores:tt others { $($a:tt)* }) => {
        read_group! { (VectorName, VecInst, $name, $c) $($a)* }
    };
}

macro_rules! read_group {
    (($names:ident, $t:ident, $name:expr, $c:expr) $($n:ident { $($f:ident : $k:ident),* })*) => {
        match $name {
            $($names::$n => $t::$n { $($f: read_field!($c, $k)),* },)*
        }
    };
}

/// The control instruction of a name, of which each field is read; those that are in no table have arms of their own.
macro_rules! read_control_rows {
    (
        ($name:expr, $c:expr, { $($other:tt)* })
        operators $operators:tt moves $moves:tt loads $loads:tt stores $stores:tt memory $memory:tt
        control { $($a:ident { $($f:ident : $k:ident),* })* }
        addresses { $($b:ident { $($g:ident : $l:ident),* })* }
    ) => {
        match $name {
            $(ControlName::$a => Ok(Inst::$a { $($f: read_field!($c, $k)),* }),)*
            $(ControlName::$b => Ok(Inst::$b { $($g: read_field!($c, $l)),* }),)*
            $($other)*
        }
    };
}

/// A field, by its kind.
macro_rules! read_field {
    ($c:expr, tied_reg) => { $c.written_reg() };
    ($c:expr, range_written) => { $c.written_reg() };
    ($c:expr, range_reg) => { $c.reg() };
    ($c:expr, low_reg) => { $c.reg() };
    ($c:expr, $k:ident) => { $c.$k() };
}

/// The line of an instruction is appended; loads and stores of one register have one way, and those that are in no table have arms of their own.
macro_rules! put_rows {
    (
        ($alloc:expr, $out:expr, $inst:expr, $transfer:expr, { $($other:tt)* })
        operators { $($a:ident { $($p:ident : $i:ident),* })* }
        moves { $($b:ident { $($q:ident : $j:ident),* })* }
        loads { $($load:ident $read:tt)* }
        stores { $($store:ident $written:tt)* }
        memory { $($m:ident { $($r:ident : $k:ident),* })* }
        control { $($d:ident { $($s:ident : $l:ident),* })* }
        addresses { $($e:ident { $($t:ident : $o:ident),* })* }
    ) => {
        match $inst {
            $(Inst::$a { $($p),* } => put_fields!($alloc, $out, Integer(IntegerName::$a), $($p),*),)*
            $(Inst::$b { $($q),* } => put_fields!($alloc, $out, Integer(IntegerName::$b), $($q),*),)*
            $(Inst::$m { $($r),* } => put_fields!($alloc, $out, Memory(MemoryName::$m), $($r),*),)*
            $(Inst::$d { $($s),* } => put_fields!($alloc, $out, Control(ControlName::$d), $($s),*),)*
            $(Inst::$e { $($t),* } => put_fields!($alloc, $out, Control(ControlName::$e), $($t),*),)*
            $($other)*
            $(Inst::$load { .. })|* | $(Inst::$store { .. })|* => $transfer,
        }
    };
}

/// The line of an instruction on vector or float registers; loads and stores of a whole one have one way.
macro_rules! put_vector_rows {
    (
        ($alloc:expr, $out:expr, $inst:expr, $whole:expr)
        loads { $($load:ident $from:ident $read:tt)* }
        stores { $($store:ident $to:ident $written:tt)* }
        others { $($n:ident { $($f:ident : $k:ident),* })* }
    ) => {
        match $inst {
            $(VecInst::$n { $($f),* } => put_fields!($alloc, $out, Vector(VectorName::$n), $($f),*),)*
            $(VecInst::$load { .. })|* | $(VecInst::$store { .. })|* => $whole,
        }
    };
}

/// A line of a name and these fields.
macro_rules! put_fields {
    ($alloc:expr, $out:expr, $name:expr, $a:ident) => { line1($alloc, $out, $name, $a) };
    ($alloc:expr, $out:expr, $name:expr, $a:ident, $b:ident) => { line2($alloc, $out, $name, $a, $b) };
    ($alloc:expr, $out:expr, $name:expr, $a:ident, $b:ident, $c:ident) => { line3($alloc, $out, $name, $a, $b, $c) };
    ($alloc:expr, $out:expr, $name:expr, $a:ident, $b:ident, $c:ident, $d:ident) => { line4($alloc, $out, $name, ($a, $b, $c, $d)) };
    ($alloc:expr, $out:expr, $name:expr, $a:ident, $b:ident, $c:ident, $d:ident, $e:ident) => { line5($alloc, $out, $name, ($a, $b, $c, $d, $e)) };
    ($alloc:expr, $out:expr, $name:expr, $a:ident, $b:ident, $c:ident, $d:ident, $e:ident, $f:ident) => { line6($alloc, $out, $name, ($a, $b, $c, $d, $e, $f)) };
    ($alloc:expr, $out:expr, $name:expr, $a:ident, $b:ident, $c:ident, $d:ident, $e:ident, $f:ident, $g:ident) => { line7($alloc, $out, $name, ($a, $b, $c, $d, $e, $f, $g)) };
}

pub(crate) use named;
pub(crate) use put_fields;
pub(crate) use put_rows;
pub(crate) use put_vector_rows;
pub(crate) use read_control_rows;
pub(crate) use read_field;
pub(crate) use read_group;
pub(crate) use read_rows;
pub(crate) use texts;
