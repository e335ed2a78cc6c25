//! Short forms of the entries of tables, written as the standard writes them.

/// A status: `M` is mandatory, `C` is conditional.
#[macro_export]
macro_rules! must {
    (M) => {
        true
    };
    (C) => {
        false
    };
}

/// A representation: its class, and its length (exact, or after `..` the greatest one).
#[macro_export]
macro_rules! repr {
    ($class:ident .. $max:literal) => {
        edi_tables::Repr {
            class: edi_tables::Class::$class,
            exact: false,
            max: $max,
        }
    };
    ($class:ident $max:literal) => {
        edi_tables::Repr {
            class: edi_tables::Class::$class,
            exact: true,
            max: $max,
        }
    };
}

/// A data element where it is used: its code, its representation and its status.
#[macro_export]
macro_rules! part {
    ($code:literal $class:ident .. $max:literal $status:ident) => {
        edi_tables::PartDef {
            code: edi_tables::Code { octets: *$code },
            must: $crate::must!($status),
            repr: $crate::repr!($class .. $max),
        }
    };
    ($code:literal $class:ident $max:literal $status:ident) => {
        edi_tables::PartDef {
            code: edi_tables::Code { octets: *$code },
            must: $crate::must!($status),
            repr: $crate::repr!($class $max),
        }
    };
}

/// A stand-alone data element of a segment, without repetitions.
#[macro_export]
macro_rules! alone {
    ($($word:tt)+) => { edi_tables::ItemDef::Alone { part: $crate::part!($($word)+), reps: 1 } };
}

/// A composite in a segment, without repetitions: its code and its status.
#[macro_export]
macro_rules! composite {
    ($code:literal $status:ident) => {
        edi_tables::ItemDef::Composite {
            code: edi_tables::Code { octets: *$code },
            must: $crate::must!($status),
            reps: 1,
        }
    };
}

/// A row of a segment table: the segment's tag or `group`, its status, its greatest count and the number of groups
/// round it.
#[macro_export]
macro_rules! row {
    (group $status:ident $max:literal depth $depth:literal) => {
        edi_tables::TableRow {
            tag: None,
            must: $crate::must!($status),
            max: $max,
            depth: $depth,
        }
    };
    ($tag:literal $status:ident $max:literal depth $depth:literal) => {
        edi_tables::TableRow {
            tag: Some(edi_tables::Tag { octets: *$tag }),
            must: $crate::must!($status),
            max: $max,
            depth: $depth,
        }
    };
}
