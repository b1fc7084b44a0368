// Sizes, and how much there may be of each thing.

// The bytes of an answer area: six words, then MOST_NAMES names of two bytes.
pub const AREA: usize = 152;
// The bytes of the lent bit reader's area: three words.
pub const BITS_AREA: usize = 12;
// The bytes of an event: four words.
pub const EVENT: usize = 16;
// The most events of a reading or a list: what is lent for events and notes on the stack has room for so many.
pub const MOST_EVENTS: usize = 2048;
// Their words.
pub const MOST_EVENT_WORDS: usize = 4 * MOST_EVENTS;
// The most bytes of a payload: its bits are counted in a word, 8 times over.
pub const MOST_PAYLOAD: usize = 8192;
// The bytes of the largest table that is right: form 2, with the most rows, derived entries and substitutes.
pub const MOST_TABLE: usize = 58392;
// Its words: what is lent for a table on the stack has room for so many.
pub const MOST_TABLE_WORDS: usize = MOST_TABLE / 4;
// The most elements and particle rows that are open at once: reader and writer call themselves once for each, so the stack depends on it.
pub const MOST_OPEN: u32 = 64;
// The most names of a path: of the rows that are open each may be an element.
pub const MOST_NAMES: usize = 64;
// The most types, attribute rows and particle rows of a table.
pub const MOST_TYPES: u32 = 256;

pub const MOST_ATTRIBUTES: u32 = 1024;

pub const MOST_PARTICLES: u32 = 1024;
// The most derived entries and substitutes of a table of form 2.
pub const MOST_DERIVATIONS: u32 = 1024;

pub const MOST_SUBSTITUTES: u32 = 1024;
// The parties that share a table: each has a mark of its own in a type's held word.
pub const PARTIES: u32 = 8;
// The greatest held word: every party's mark is set.
pub const MOST_HELD: u32 = (1 << PARTIES) - 1;
// The most child rows of a sequence or a choice.
pub const MOST_CHILDREN: u32 = 64;
// The most values of an enumeration.
pub const MOST_VALUES: u32 = 65536;
// The greatest name of an element or an attribute: the path holds it in two bytes.
pub const MOST_NAME: u32 = 65535;
// The greatest count of an occurs row; where its most is UNBOUNDED too.
pub const MOST_TIMES: u32 = 65535;
// The most of an occurs row that has no end.
pub const UNBOUNDED: u32 = 65536;
// A range whose ends lie at most so far apart has a fixed width, any other a vluimsbf5.
pub const MOST_FIXED: u32 = 65535;
// The most bytes of a text.
pub const MOST_TEXT: u32 = 4095;
// The greatest word: an unsigned value, a length and a place go up to it.
pub const MOST_WORD: u32 = 4294967295;
// The milliseconds of a day.
pub const DAY_MILLISECONDS: u32 = 24 * 60 * 60 * 1000;
// The bytes of a shelf call's area: the place, then five numbers of 8 bytes.
pub const SHELF_AREA: usize = 44;
// The bytes of a record's head: length, root name, root type.
pub const RECORD_HEAD: usize = 6;
// The bytes of a block of a shelf file; of its head; of what its sum is over; and the most that it has of the stream.
pub const BLOCK_BYTES: usize = 512;

pub const BLOCK_HEAD: usize = 8;

pub const BLOCK_BODY: usize = 508;

pub const BLOCK_DATA: usize = 498;
// The words that a block's sum is over.
pub const BLOCK_WORDS: usize = BLOCK_BODY / 4;
// What stands for the first record of a block in which none begins.
pub const NO_START: u32 = 65535;
// The most blocks of a file: a block's number is a word.
pub const MOST_BLOCKS: usize = 4294967296;
// The bytes of an entry of the list of what a salvage dropped: block, reason, bytes.
pub const DROPPED: usize = 12;
// The bytes of a report, numbers of 8 bytes; and its lines, of four of them each.
pub const REPORT: usize = 33344;

pub const REPORT_LINES: usize = 1024;
// The bytes of what a start-up message says, and its words.
pub const INIT: usize = 128;

pub const INIT_WORDS: usize = INIT / 4;
// The bytes of the area of the call that writes a start-up message: two words.
pub const INIT_AREA: usize = 8;
// The greatest number that a vluimsbf8 of two bytes holds.
pub const MOST_VLU8: u32 = 16383;
// The most reference formats of a start-up message: their count is a byte.
pub const MOST_FORMATS: u32 = 255;
// The most schemas of a start-up message: init has words for so many.
pub const MOST_SCHEMAS: u32 = 4;
// The greatest unit size code that is not reserved.
pub const MOST_UNIT: u32 = 6;
// The bytes that are read of a start-up message: the places of their bits fit a word.
pub const MOST_MESSAGE: usize = 536870911;
