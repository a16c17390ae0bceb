// The tags of cells, by document 01's names, in a sheet and in the working form of plans alike. The definitions have them in crate sheet (Tags.antt).
#![tactic(auto)]

// ---- expressions: constants, a column, operators of two operands and of one
pub const NULL: u32 = 1;

pub const BOOLEAN: u32 = 2;

pub const INTEGER: u32 = 3;

pub const FLOAT: u32 = 4;

pub const STRING: u32 = 5;

pub const COLUMN: u32 = 6;

// The operators of two operands have the tags from here up to BINARY_END. Those from EXPONENTIATE on are known and not carried over.
pub const BINARY: u32 = 10;

pub const AND: u32 = 10;

pub const OR: u32 = 11;

pub const EQUAL: u32 = 12;

pub const GREATER_THAN: u32 = 13;

pub const LESS_THAN: u32 = 14;

pub const ADD: u32 = 15;

pub const DIVIDE: u32 = 16;

pub const SUBTRACT: u32 = 17;

pub const MULTIPLY: u32 = 18;

pub const EXPONENTIATE: u32 = 19;

pub const BINARY_END: u32 = 22;

// The operators of one operand have the tags from here up to UNARY_END. FACTORIAL is known and not carried over.
pub const UNARY: u32 = 30;

pub const NOT: u32 = 30;

pub const IS_NULL: u32 = 31;

pub const IS_NAN: u32 = 32;

pub const IDENTITY: u32 = 33;

pub const NEGATE: u32 = 34;

pub const FACTORIAL: u32 = 35;

pub const SQUARE_ROOT: u32 = 36;

pub const UNARY_END: u32 = 37;

// ---- parts of nodes: the tags from here up to PARTS_END
pub const PARTS: u32 = 40;

pub const LABEL: u32 = 40;

pub const ITEM: u32 = 41;

pub const KEY: u32 = 42;

pub const TARGET: u32 = 43;

pub const AGG: u32 = 44;

pub const ROW: u32 = 45;

pub const PARTS_END: u32 = 46;

// ---- nodes: the tags from here up to NODES_END
pub const NODES: u32 = 50;

pub const AGGREGATE: u32 = 50;

pub const FILTER: u32 = 51;

pub const HASH_JOIN: u32 = 52;

pub const INDEX_LOOKUP: u32 = 53;

pub const KEY_LOOKUP: u32 = 54;

pub const LIMIT: u32 = 55;

pub const NESTED_LOOP_JOIN: u32 = 56;

pub const NOTHING: u32 = 57;

pub const OFFSET: u32 = 58;

pub const ORDER: u32 = 59;

pub const PROJECTION: u32 = 60;

pub const REMAP: u32 = 61;

pub const SCAN: u32 = 62;

pub const VALUES: u32 = 63;

pub const NODES_END: u32 = 64;
