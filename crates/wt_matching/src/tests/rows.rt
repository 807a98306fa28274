//! The rows of import checks: what is expected, what is given, and the text of the first check that fails, with no text
//! where it fits. The checks are those of WebAssembly 3.0 ("Matching", "External Types"), the texts and their order those of
//! wasmtime. Each check is passed at its edge and failed, and where two can fail together the earlier one is told.

use super::{LOWER, OTHER, UPPER};
use crate::definition::{EntityKind, SizedKind};
use crate::unfit::Unfit;
use wt_env::types::{WasmHeapType, WasmRefType, WasmValType};
use wt_extern::entity::{EntityType, Global, IndexType, Limits, Memory, Table, Tag};

// ---- functions and tags

const UPPER_FUNCTION: EntityType = EntityType::Function(UPPER);

const LOWER_FUNCTION: EntityType = EntityType::Function(LOWER);

const OTHER_FUNCTION: EntityType = EntityType::Function(OTHER);

const UPPER_TAG: EntityType = EntityType::Tag(Tag { signature: UPPER });

const LOWER_TAG: EntityType = EntityType::Tag(Tag { signature: LOWER });

pub(super) const FUNCTIONS_AND_TAGS: [(EntityType, EntityType, &str); 8] = [
    (UPPER_FUNCTION, UPPER_FUNCTION, ""),
    (UPPER_FUNCTION, LOWER_FUNCTION, ""),
    (
        LOWER_FUNCTION,
        UPPER_FUNCTION,
        "types incompatible: expected type `(type (func))`, found type `(type (func))`",
    ),
    (
        UPPER_FUNCTION,
        OTHER_FUNCTION,
        "types incompatible: expected type `(type (func))`, found type `(type (func (param i32 i64)))`",
    ),
    (
        OTHER_FUNCTION,
        LOWER_FUNCTION,
        "types incompatible: expected type `(type (func (param i32 i64)))`, found type `(type (func))`",
    ),
    (UPPER_TAG, UPPER_TAG, ""),
    (UPPER_TAG, LOWER_TAG, "incompatible tag types"),
    (LOWER_TAG, UPPER_TAG, "incompatible tag types"),
];

// ---- globals

const I32: WasmValType = WasmValType::I32;

const I64: WasmValType = WasmValType::I64;

const NULL_ANY: WasmValType = WasmValType::Ref(WasmRefType {
    nullable: true,
    heap_type: WasmHeapType::Any,
});

const NULL_EQ: WasmValType = WasmValType::Ref(WasmRefType {
    nullable: true,
    heap_type: WasmHeapType::Eq,
});

const EQ: WasmValType = WasmValType::Ref(WasmRefType {
    nullable: false,
    heap_type: WasmHeapType::Eq,
});

const NULL_FUNC: WasmValType = WasmValType::Ref(WasmRefType {
    nullable: true,
    heap_type: WasmHeapType::Func,
});

const FUNC: WasmValType = WasmValType::Ref(WasmRefType {
    nullable: false,
    heap_type: WasmHeapType::Func,
});

const NULL_UPPER: WasmValType = WasmValType::Ref(WasmRefType {
    nullable: true,
    heap_type: WasmHeapType::ConcreteFunc(UPPER),
});

const NULL_LOWER: WasmValType = WasmValType::Ref(WasmRefType {
    nullable: true,
    heap_type: WasmHeapType::ConcreteFunc(LOWER),
});

const LOWER_REF: WasmValType = WasmValType::Ref(WasmRefType {
    nullable: false,
    heap_type: WasmHeapType::ConcreteFunc(LOWER),
});

const VAR: bool = true;

const CONST: bool = false;

/// The value type of a global, and whether it can change.
pub(super) type GlobalRow = (WasmValType, bool);

pub(super) const GLOBALS: [(GlobalRow, GlobalRow, &str); 22] = [
    ((I32, CONST), (I32, CONST), ""),
    ((I32, VAR), (I32, VAR), ""),
    // whether they can change
    (
        (I32, VAR),
        (I32, CONST),
        "global types incompatible: expected mutable global, found immutable global",
    ),
    (
        (I32, CONST),
        (I32, VAR),
        "global types incompatible: expected immutable global, found mutable global",
    ),
    // the value types of constant ones
    (
        (I32, CONST),
        (I64, CONST),
        "global types incompatible: expected global of type `i32`, found global of type `i64`",
    ),
    (
        (EQ, CONST),
        (I32, CONST),
        "global types incompatible: expected global of type `(ref eq)`, found global of type `i32`",
    ),
    ((NULL_ANY, CONST), (EQ, CONST), ""),
    (
        (EQ, CONST),
        (NULL_EQ, CONST),
        "global types incompatible: expected global of type `(ref eq)`, found global of type `(ref null eq)`",
    ),
    (
        (EQ, CONST),
        (NULL_FUNC, CONST),
        "global types incompatible: expected global of type `(ref eq)`, found global of type `(ref null func)`",
    ),
    (
        (NULL_EQ, CONST),
        (NULL_ANY, CONST),
        "global types incompatible: expected global of type `eq`, found global of type `any`",
    ),
    (
        (NULL_EQ, CONST),
        (FUNC, CONST),
        "global types incompatible: expected global of type `eq`, found global of type `func`",
    ),
    ((NULL_UPPER, CONST), (LOWER_REF, CONST), ""),
    ((FUNC, CONST), (LOWER_REF, CONST), ""),
    (
        (NULL_LOWER, CONST),
        (NULL_UPPER, CONST),
        "global types incompatible: expected global of type `(concrete func VMSharedTypeIndex(1))`, found global of type `(concrete func VMSharedTypeIndex(0))`",
    ),
    // the value types of variable ones
    ((NULL_ANY, VAR), (NULL_ANY, VAR), ""),
    ((NULL_LOWER, VAR), (NULL_LOWER, VAR), ""),
    (
        (I32, VAR),
        (I64, VAR),
        "global types incompatible: expected global of type `i32`, found global of type `i64`",
    ),
    (
        (NULL_ANY, VAR),
        (NULL_EQ, VAR),
        "global types incompatible: expected global of type `(ref null any)`, found global of type `(ref null eq)`",
    ),
    (
        (EQ, VAR),
        (NULL_EQ, VAR),
        "global types incompatible: expected global of type `(ref eq)`, found global of type `(ref null eq)`",
    ),
    (
        (NULL_UPPER, VAR),
        (NULL_LOWER, VAR),
        "global types incompatible: expected global of type `(ref null (concrete func VMSharedTypeIndex(0)))`, found global of type `(ref null (concrete func VMSharedTypeIndex(1)))`",
    ),
    // the value types before whether they can change, and equal where one can
    (
        (I32, CONST),
        (I64, VAR),
        "global types incompatible: expected global of type `i32`, found global of type `i64`",
    ),
    (
        (NULL_ANY, VAR),
        (EQ, CONST),
        "global types incompatible: expected global of type `(ref null any)`, found global of type `(ref eq)`",
    ),
];

// ---- tables

const FUNCREF: WasmRefType = WasmRefType {
    nullable: true,
    heap_type: WasmHeapType::Func,
};

const NOFUNCREF: WasmRefType = WasmRefType {
    nullable: true,
    heap_type: WasmHeapType::NoFunc,
};

const NULL_UPPER_REF: WasmRefType = WasmRefType {
    nullable: true,
    heap_type: WasmHeapType::ConcreteFunc(UPPER),
};

const NULL_LOWER_REF: WasmRefType = WasmRefType {
    nullable: true,
    heap_type: WasmHeapType::ConcreteFunc(LOWER),
};

const TABLE: Table = Table {
    ref_type: FUNCREF,
    idx_type: IndexType::I32,
    limits: Limits {
        min: 2,
        max: Some(3),
    },
};

const WIDE_TABLE: Table = Table {
    idx_type: IndexType::I64,
    ..TABLE
};

const OPEN_TABLE: Table = Table {
    limits: Limits { min: 2, max: None },
    ..TABLE
};

const LOW_TABLE: Table = Table {
    limits: Limits {
        min: 1,
        max: Some(3),
    },
    ..TABLE
};

const HIGH_TABLE: Table = Table {
    limits: Limits {
        min: 3,
        max: Some(4),
    },
    ..TABLE
};

const NARROW_TABLE: Table = Table {
    limits: Limits {
        min: 3,
        max: Some(3),
    },
    ..TABLE
};

const BOTTOM_TABLE: Table = Table {
    ref_type: NOFUNCREF,
    ..TABLE
};

/// The size of what is given is its minimum.
pub(super) const TABLES: [(Table, Table, &str); 21] = [
    (TABLE, TABLE, ""),
    // what the elements are
    (
        TABLE,
        BOTTOM_TABLE,
        "table types incompatible: expected table of type `(ref null func)`, found table of type `(ref null nofunc)`",
    ),
    (
        BOTTOM_TABLE,
        TABLE,
        "table types incompatible: expected table of type `(ref null nofunc)`, found table of type `(ref null func)`",
    ),
    (
        TABLE,
        Table {
            ref_type: WasmRefType {
                nullable: false,
                ..FUNCREF
            },
            ..TABLE
        },
        "table types incompatible: expected table of type `(ref null func)`, found table of type `(ref func)`",
    ),
    (
        Table {
            ref_type: NULL_LOWER_REF,
            ..TABLE
        },
        Table {
            ref_type: NULL_LOWER_REF,
            ..TABLE
        },
        "",
    ),
    (
        Table {
            ref_type: NULL_UPPER_REF,
            ..TABLE
        },
        Table {
            ref_type: NULL_LOWER_REF,
            ..TABLE
        },
        "table types incompatible: expected table of type `(ref null (concrete func VMSharedTypeIndex(0)))`, found table of type `(ref null (concrete func VMSharedTypeIndex(1)))`",
    ),
    // how they are addressed
    (WIDE_TABLE, WIDE_TABLE, ""),
    (
        WIDE_TABLE,
        TABLE,
        "table types incompatible: expected 64-bit table, found 32-bit table",
    ),
    (
        TABLE,
        WIDE_TABLE,
        "table types incompatible: expected 32-bit table, found 64-bit table",
    ),
    // minimum
    (TABLE, NARROW_TABLE, ""),
    (
        TABLE,
        LOW_TABLE,
        "table types incompatible: expected table limits (min: 2, max: 3) doesn't match provided table limits (min: 1, max: 3)",
    ),
    // maximum
    (OPEN_TABLE, OPEN_TABLE, ""),
    (OPEN_TABLE, TABLE, ""),
    (HIGH_TABLE, NARROW_TABLE, ""),
    (
        TABLE,
        OPEN_TABLE,
        "table types incompatible: expected table limits (min: 2, max: 3) doesn't match provided table limits (min: 2, max: none)",
    ),
    (
        TABLE,
        HIGH_TABLE,
        "table types incompatible: expected table limits (min: 2, max: 3) doesn't match provided table limits (min: 3, max: 4)",
    ),
    (
        OPEN_TABLE,
        LOW_TABLE,
        "table types incompatible: expected table limits (min: 2, max: none) doesn't match provided table limits (min: 1, max: 3)",
    ),
    // the elements before the addresses and the limits, the addresses before the limits
    (
        TABLE,
        Table {
            idx_type: IndexType::I64,
            ..BOTTOM_TABLE
        },
        "table types incompatible: expected table of type `(ref null func)`, found table of type `(ref null nofunc)`",
    ),
    (
        TABLE,
        Table {
            ref_type: NOFUNCREF,
            ..LOW_TABLE
        },
        "table types incompatible: expected table of type `(ref null func)`, found table of type `(ref null nofunc)`",
    ),
    (
        TABLE,
        Table {
            idx_type: IndexType::I64,
            ..LOW_TABLE
        },
        "table types incompatible: expected 32-bit table, found 64-bit table",
    ),
    (
        TABLE,
        Table {
            idx_type: IndexType::I64,
            ..HIGH_TABLE
        },
        "table types incompatible: expected 32-bit table, found 64-bit table",
    ),
];

/// With the size of what is given.
pub(super) const SIZED_TABLES: [(Table, Table, u64, &str); 6] = [
    (TABLE, LOW_TABLE, 2, ""),
    (OPEN_TABLE, TABLE, 3, ""),
    (
        TABLE,
        TABLE,
        1,
        "table types incompatible: expected table limits (min: 2, max: 3) doesn't match provided table limits (min: 1, max: 3)",
    ),
    (
        TABLE,
        OPEN_TABLE,
        5,
        "table types incompatible: expected table limits (min: 2, max: 3) doesn't match provided table limits (min: 5, max: none)",
    ),
    (
        WIDE_TABLE,
        TABLE,
        1,
        "table types incompatible: expected 64-bit table, found 32-bit table",
    ),
    (
        BOTTOM_TABLE,
        TABLE,
        1,
        "table types incompatible: expected table of type `(ref null nofunc)`, found table of type `(ref null func)`",
    ),
];

// ---- memories

const MEMORY: Memory = Memory {
    idx_type: IndexType::I32,
    limits: Limits { min: 0, max: None },
    shared: false,
    page_size_log2: 16,
};

const WIDE_MEMORY: Memory = Memory {
    idx_type: IndexType::I64,
    ..MEMORY
};

const SHARED_MEMORY: Memory = Memory {
    shared: true,
    ..MEMORY
};

const BYTE_MEMORY: Memory = Memory {
    page_size_log2: 0,
    ..MEMORY
};

const BOUNDED_MEMORY: Memory = Memory {
    limits: Limits {
        min: 0,
        max: Some(3),
    },
    ..MEMORY
};

const FULL_MEMORY: Memory = Memory {
    limits: Limits {
        min: 3,
        max: Some(3),
    },
    ..MEMORY
};

const HIGH_MEMORY: Memory = Memory {
    limits: Limits {
        min: 0,
        max: Some(4),
    },
    ..MEMORY
};

/// The size of what is given is its minimum.
pub(super) const MEMORIES: [(Memory, Memory, &str); 24] = [
    (MEMORY, MEMORY, ""),
    // whether threads share them
    (SHARED_MEMORY, SHARED_MEMORY, ""),
    (
        SHARED_MEMORY,
        MEMORY,
        "memory types incompatible: expected shared memory, found non-shared memory",
    ),
    (
        MEMORY,
        SHARED_MEMORY,
        "memory types incompatible: expected non-shared memory, found shared memory",
    ),
    // how they are addressed
    (WIDE_MEMORY, WIDE_MEMORY, ""),
    (
        WIDE_MEMORY,
        MEMORY,
        "memory types incompatible: expected 64-bit memory, found 32-bit memory",
    ),
    (
        MEMORY,
        WIDE_MEMORY,
        "memory types incompatible: expected 32-bit memory, found 64-bit memory",
    ),
    // minimum
    (FULL_MEMORY, FULL_MEMORY, ""),
    (
        FULL_MEMORY,
        BOUNDED_MEMORY,
        "memory types incompatible: expected memory limits (min: 3, max: 3) doesn't match provided memory limits (min: 0, max: 3)",
    ),
    // maximum
    (MEMORY, BOUNDED_MEMORY, ""),
    (BOUNDED_MEMORY, FULL_MEMORY, ""),
    (HIGH_MEMORY, BOUNDED_MEMORY, ""),
    (
        BOUNDED_MEMORY,
        MEMORY,
        "memory types incompatible: expected memory limits (min: 0, max: 3) doesn't match provided memory limits (min: 0, max: none)",
    ),
    (
        BOUNDED_MEMORY,
        HIGH_MEMORY,
        "memory types incompatible: expected memory limits (min: 0, max: 3) doesn't match provided memory limits (min: 0, max: 4)",
    ),
    // the size of a page
    (BYTE_MEMORY, BYTE_MEMORY, ""),
    (
        MEMORY,
        BYTE_MEMORY,
        "memory types incompatible: expected a memory with a page size of 65536, but received a memory with a page size of 1",
    ),
    (
        BYTE_MEMORY,
        MEMORY,
        "memory types incompatible: expected a memory with a page size of 1, but received a memory with a page size of 65536",
    ),
    (
        Memory {
            page_size_log2: 63,
            ..MEMORY
        },
        Memory {
            page_size_log2: 64,
            ..MEMORY
        },
        "memory types incompatible: expected a memory with a page size of 9223372036854775808, but received a memory with a page size of 2**64",
    ),
    // the sharing before all else, the addresses before limits and pages, the limits before pages
    (
        MEMORY,
        Memory {
            idx_type: IndexType::I64,
            ..SHARED_MEMORY
        },
        "memory types incompatible: expected non-shared memory, found shared memory",
    ),
    (
        BOUNDED_MEMORY,
        SHARED_MEMORY,
        "memory types incompatible: expected non-shared memory, found shared memory",
    ),
    (
        MEMORY,
        Memory {
            page_size_log2: 0,
            ..SHARED_MEMORY
        },
        "memory types incompatible: expected non-shared memory, found shared memory",
    ),
    (
        BOUNDED_MEMORY,
        WIDE_MEMORY,
        "memory types incompatible: expected 32-bit memory, found 64-bit memory",
    ),
    (
        MEMORY,
        Memory {
            page_size_log2: 0,
            ..WIDE_MEMORY
        },
        "memory types incompatible: expected 32-bit memory, found 64-bit memory",
    ),
    (
        BOUNDED_MEMORY,
        BYTE_MEMORY,
        "memory types incompatible: expected memory limits (min: 0, max: 3) doesn't match provided memory limits (min: 0, max: none)",
    ),
];

/// With the size of what is given.
pub(super) const SIZED_MEMORIES: [(Memory, Memory, u64, &str); 6] = [
    (FULL_MEMORY, BOUNDED_MEMORY, 3, ""),
    (MEMORY, MEMORY, 18446744073709551615, ""),
    (
        FULL_MEMORY,
        BOUNDED_MEMORY,
        2,
        "memory types incompatible: expected memory limits (min: 3, max: 3) doesn't match provided memory limits (min: 2, max: 3)",
    ),
    (
        FULL_MEMORY,
        FULL_MEMORY,
        2,
        "memory types incompatible: expected memory limits (min: 3, max: 3) doesn't match provided memory limits (min: 2, max: 3)",
    ),
    (
        BOUNDED_MEMORY,
        MEMORY,
        7,
        "memory types incompatible: expected memory limits (min: 0, max: 3) doesn't match provided memory limits (min: 7, max: none)",
    ),
    (
        FULL_MEMORY,
        BYTE_MEMORY,
        1,
        "memory types incompatible: expected memory limits (min: 3, max: 3) doesn't match provided memory limits (min: 1, max: none)",
    ),
];

// ---- kinds

pub(super) struct KindRow {
    pub(super) entity: EntityType,
    /// The word for what is expected, and for what is declared.
    pub(super) word: &'static str,
    /// The word for what is defined.
    pub(super) found: &'static str,
}

pub(super) const KINDS: [KindRow; 5] = [
    KindRow {
        entity: UPPER_FUNCTION,
        word: "func",
        found: "function",
    },
    KindRow {
        entity: EntityType::Global(Global {
            wasm_ty: I32,
            mutability: CONST,
        }),
        word: "global",
        found: "global",
    },
    KindRow {
        entity: EntityType::Table(TABLE),
        word: "table",
        found: "table",
    },
    KindRow {
        entity: EntityType::Memory(MEMORY),
        word: "memory",
        found: "memory",
    },
    KindRow {
        entity: UPPER_TAG,
        word: "tag",
        found: "tag",
    },
];

// ---- causes

/// Each cause, with function types by their indices.
pub(super) const CAUSES: [(Unfit, &str); 16] = [
    (
        Unfit::DefinitionKind {
            expected: EntityKind::Func,
            actual: EntityKind::Global,
        },
        "expected func, but found global",
    ),
    (
        Unfit::DefinitionKind {
            expected: EntityKind::Tag,
            actual: EntityKind::Func,
        },
        "expected tag, but found function",
    ),
    (
        Unfit::EntityKind {
            expected: EntityKind::Table,
            actual: EntityKind::Func,
        },
        "expected table found func",
    ),
    (
        Unfit::Function {
            expected: UPPER,
            actual: LOWER,
        },
        "types incompatible: expected type `VMSharedTypeIndex(0)`, found type `VMSharedTypeIndex(1)`",
    ),
    (
        Unfit::VariableContent {
            expected: NULL_ANY,
            actual: NULL_EQ,
        },
        "global types incompatible: expected global of type `(ref null any)`, found global of type `(ref null eq)`",
    ),
    (
        Unfit::ConstantContent {
            expected: NULL_EQ,
            actual: NULL_ANY,
        },
        "global types incompatible: expected global of type `eq`, found global of type `any`",
    ),
    (
        Unfit::ConstantContent {
            expected: I32,
            actual: I64,
        },
        "global types incompatible: expected global of type `i32`, found global of type `i64`",
    ),
    (
        Unfit::Mutability {
            expected: true,
            actual: false,
        },
        "global types incompatible: expected mutable global, found immutable global",
    ),
    (
        Unfit::Element {
            expected: FUNCREF,
            actual: NOFUNCREF,
        },
        "table types incompatible: expected table of type `(ref null func)`, found table of type `(ref null nofunc)`",
    ),
    (
        Unfit::IndexType {
            kind: SizedKind::Table,
            expected: IndexType::I64,
            actual: IndexType::I32,
        },
        "table types incompatible: expected 64-bit table, found 32-bit table",
    ),
    (
        Unfit::IndexType {
            kind: SizedKind::Memory,
            expected: IndexType::I32,
            actual: IndexType::I64,
        },
        "memory types incompatible: expected 32-bit memory, found 64-bit memory",
    ),
    (
        Unfit::Limits {
            kind: SizedKind::Table,
            expected: Limits {
                min: 2,
                max: Some(3),
            },
            actual: Limits {
                min: 1,
                max: Some(3),
            },
        },
        "table types incompatible: expected table limits (min: 2, max: 3) doesn't match provided table limits (min: 1, max: 3)",
    ),
    (
        Unfit::Limits {
            kind: SizedKind::Memory,
            expected: Limits {
                min: 0,
                max: Some(3),
            },
            actual: Limits { min: 0, max: None },
        },
        "memory types incompatible: expected memory limits (min: 0, max: 3) doesn't match provided memory limits (min: 0, max: none)",
    ),
    (
        Unfit::Sharing {
            expected: true,
            actual: false,
        },
        "memory types incompatible: expected shared memory, found non-shared memory",
    ),
    (
        Unfit::PageSize {
            expected: 16,
            actual: 0,
        },
        "memory types incompatible: expected a memory with a page size of 65536, but received a memory with a page size of 1",
    ),
    (
        Unfit::Tag {
            expected: UPPER,
            actual: LOWER,
        },
        "incompatible tag types",
    ),
];
