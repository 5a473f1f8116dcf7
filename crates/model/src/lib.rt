// The types that the code shares with its contracts. What document 01 says of them is in specs/.
#![tactic(auto)]

// Document 01's limits; the limit itself is legal. The bytes of a text.
pub const TEXT_MOST: usize = 65536;

// The bytes of a content, of a parameter and of a built line.
pub const LINE_MOST: usize = 200;

// The macros of a text.
pub const MACROS_MOST: usize = 128;

// The code lines of a text, layouts included.
pub const CODE_LINES_MOST: usize = 1024;

// The nodes of a text's tree, and the least length of a lent row of nodes.
pub const NODES_MOST: usize = 2048;

// The placeholders of a template.
pub const PLACEHOLDERS_MOST: usize = 9;

// The iterations in one another.
pub const NESTING_MOST: usize = 4;

// The open calls.
pub const CALLS_MOST: usize = 12;

// The stored names.
pub const NAMES_MOST: usize = 256;

// The bytes of stored names and texts together.
pub const MEMORY_MOST: usize = 8192;

// The events of a run.
pub const FUEL_MOST: u64 = 1000000;

// The least length of a lent store: every listing fits.
pub const STORE_LEAST: usize = 8704;

// The least length of a lent report: every report fits.
pub const REPORT_LEAST: usize = 2048;

// The least length of a lent row of dead places: a bit for each node at each position of a line.
pub const DEAD_LEAST: usize = 51456;

// The keys of a template's elements, by which a node's children stand in order: a literal's is its byte, then come the end's and
// the placeholder's.
pub const END_KEY: u16 = 256;

pub const PLACEHOLDER_KEY: u16 = 257;

// A value of an expression, and the largest one; the least is one further below 0.
pub type Integer = i64;

pub const LARGEST: Integer = 9223372036854775807;

// The digits of a stored number.
pub const DIGITS_MOST: usize = 19;

// The marks of a flag line. Mark 5 is always the byte `0` and is left out.
#[derive(Clone, Copy)]
pub struct Marks {
    // mark 1 ends templates and input lines
    pub source: u8,
    pub placeholder: u8,
    // mark 3 ends code lines
    pub code: u8,
    pub escape: u8,
    pub blank: u8,
    pub left: u8,
    pub plus: u8,
    pub minus: u8,
    pub times: u8,
    pub divide: u8,
    pub right: u8,
}

// What a code line does to the iterations around the lines after it: it is malformed, leaves them as they are, opens or
// closes one, or owns the next line as its layout.
#[derive(Clone, Copy)]
pub enum Effect {
    Malformed,
    Plain,
    Opens,
    Closes,
    Owns,
}

// Where a line is written: channel 0 drops it, 3 is the first output, 4 the second.
#[derive(Clone, Copy)]
pub enum Channel {
    Nowhere,
    First,
    Second,
}

// The comparisons of function 6.
#[derive(Clone, Copy)]
pub enum Comparison {
    Equal,
    Unequal,
    Less,
    Greater,
}

// The conversions that put bytes into a built line, by what each brings in of its parameter.
#[derive(Clone, Copy)]
pub enum Conversion {
    // ed0, the parameter
    Itself,
    // ed1, the text stored under it, or nothing
    StoredText,
    // ed2, as ed1, but a name that isn't stored is first stored with the run's next number
    Symbol,
    // ed3, the delimiter that ended its piece in its latest pass, or nothing
    LatestDelimiter,
    // ed4, its value as an expression
    ExpressionValue,
    // ed5, the number of its characters
    Length,
    // ed8, the code point of its only character
    CodePoint,
}

// What checking a text answers.
#[repr(C)]
#[derive(Clone, Copy)]
pub struct Checked {
    pub number: u64,
    pub line: u64,
}

// What fitting a line answers: the template's line, where each parameter's piece starts and how long it is, how many places were
// taken up, and how many bytes were read where the next atom was looked for.
#[repr(C)]
#[derive(Clone, Copy)]
pub struct Fitted {
    pub number: u64,
    pub line: u64,
    pub start: [u64; 9],
    pub length: [u64; 9],
    pub places: u64,
    pub bytes: u64,
}

// What a run answers: the lengths are of what was written to the output, the second output, the store and the report.
#[repr(C)]
#[derive(Clone, Copy)]
pub struct Ran {
    pub number: u64,
    pub line: u64,
    pub events: u64,
    pub output: u64,
    pub second: u64,
    pub store: u64,
    pub report: u64,
}
