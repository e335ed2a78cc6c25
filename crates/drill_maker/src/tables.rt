//! The tables of the reduced directory.
use edi_tables::{Code, ElementDef, ItemDef, PartDef, TableRow, Tag};
use service_tables::{alone, composite, part, repr, row};

/// A code list: the element, and its values.
#[derive(Clone, Copy)]
pub struct ListRow {
    pub element: Code,
    pub values: &'static [&'static [u8]],
}

/// A composite and its parts.
#[derive(Clone, Copy)]
pub struct CompositeRow {
    pub code: Code,
    pub parts: &'static [PartDef],
}

/// A segment and its items.
#[derive(Clone, Copy)]
pub struct SegmentRow {
    pub tag: Tag,
    pub items: &'static [ItemDef],
}

/// A data element: its code and its representation.
macro_rules! element {
    ($code:literal $class:ident .. $max:literal) => {
        ElementDef {
            code: Code { octets: *$code },
            repr: repr!($class .. $max),
        }
    };
}

pub const ELEMENTS: &[ElementDef] = &[
    element!(b"1000" An..35),
    element!(b"1001" An..3),
    element!(b"1004" An..35),
    element!(b"1082" N..6),
    element!(b"1131" An..3),
    element!(b"1153" An..3),
    element!(b"1154" An..35),
    element!(b"1225" An..3),
    element!(b"1229" An..3),
    element!(b"2005" An..3),
    element!(b"2379" An..3),
    element!(b"2380" An..35),
    element!(b"3035" An..3),
    element!(b"3039" An..17),
    element!(b"3055" An..3),
    element!(b"3139" An..3),
    element!(b"3412" An..35),
    element!(b"3413" An..17),
    element!(b"5004" N..18),
    element!(b"5025" An..3),
    element!(b"5118" N..15),
    element!(b"5125" An..3),
    element!(b"6060" N..15),
    element!(b"6063" An..3),
    element!(b"6411" An..3),
    element!(b"7140" An..35),
    element!(b"7143" An..3),
];

pub const LISTS: &[ListRow] = &[
    ListRow {
        element: Code { octets: *b"1001" },
        values: &[b"220", b"231"],
    },
    ListRow {
        element: Code { octets: *b"2005" },
        values: &[b"2", b"137"],
    },
];

pub const COMPOSITES: &[CompositeRow] = &[
    CompositeRow {
        code: Code { octets: *b"C002" },
        parts: &[
            part!(b"1001" An..3 C),
            part!(b"1131" An..3 C),
            part!(b"1000" An..35 C),
        ],
    },
    CompositeRow {
        code: Code { octets: *b"C056" },
        parts: &[part!(b"3413" An..17 C), part!(b"3412" An..35 C)],
    },
    CompositeRow {
        code: Code { octets: *b"C082" },
        parts: &[
            part!(b"3039" An..17 M),
            part!(b"1131" An..3 C),
            part!(b"3055" An..3 C),
        ],
    },
    CompositeRow {
        code: Code { octets: *b"C186" },
        parts: &[
            part!(b"6063" An..3 M),
            part!(b"6060" N..15 M),
            part!(b"6411" An..3 C),
        ],
    },
    CompositeRow {
        code: Code { octets: *b"C212" },
        parts: &[part!(b"7140" An..35 C), part!(b"7143" An..3 C)],
    },
    CompositeRow {
        code: Code { octets: *b"C506" },
        parts: &[part!(b"1153" An..3 M), part!(b"1154" An..35 C)],
    },
    CompositeRow {
        code: Code { octets: *b"C507" },
        parts: &[
            part!(b"2005" An..3 M),
            part!(b"2380" An..35 C),
            part!(b"2379" An..3 C),
        ],
    },
    CompositeRow {
        code: Code { octets: *b"C509" },
        parts: &[part!(b"5125" An..3 M), part!(b"5118" N..15 C)],
    },
    CompositeRow {
        code: Code { octets: *b"C516" },
        parts: &[part!(b"5025" An..3 M), part!(b"5004" N..18 C)],
    },
];

pub const SEGMENTS: &[SegmentRow] = &[
    SegmentRow {
        tag: Tag { octets: *b"BGM" },
        items: &[
            composite!(b"C002" C),
            alone!(b"1004" An..35 C),
            alone!(b"1225" An..3 C),
        ],
    },
    SegmentRow {
        tag: Tag { octets: *b"CTA" },
        items: &[alone!(b"3139" An..3 C), composite!(b"C056" C)],
    },
    SegmentRow {
        tag: Tag { octets: *b"DTM" },
        items: &[composite!(b"C507" M)],
    },
    SegmentRow {
        tag: Tag { octets: *b"LIN" },
        items: &[
            alone!(b"1082" N..6 C),
            alone!(b"1229" An..3 C),
            composite!(b"C212" C),
        ],
    },
    SegmentRow {
        tag: Tag { octets: *b"MOA" },
        items: &[composite!(b"C516" M)],
    },
    SegmentRow {
        tag: Tag { octets: *b"NAD" },
        items: &[alone!(b"3035" An..3 M), composite!(b"C082" C)],
    },
    SegmentRow {
        tag: Tag { octets: *b"PRI" },
        items: &[composite!(b"C509" C)],
    },
    SegmentRow {
        tag: Tag { octets: *b"QTY" },
        items: &[composite!(b"C186" M)],
    },
    SegmentRow {
        tag: Tag { octets: *b"RFF" },
        items: &[composite!(b"C506" M)],
    },
];

pub const ORDER_ROWS: &[TableRow] = &[
    row!(b"UNH" M 1 depth 0),
    row!(b"BGM" M 1 depth 0),
    row!(b"DTM" M 2 depth 0),
    row!(group C 2 depth 0),
    row!(b"NAD" M 1 depth 1),
    row!(b"CTA" C 1 depth 1),
    row!(group C 3 depth 0),
    row!(b"LIN" M 1 depth 1),
    row!(b"QTY" C 1 depth 1),
    row!(group C 2 depth 1),
    row!(b"PRI" M 1 depth 2),
    row!(b"DTM" C 1 depth 2),
    row!(b"UNS" M 1 depth 0),
    row!(b"MOA" C 1 depth 0),
    row!(b"UNT" M 1 depth 0),
];
