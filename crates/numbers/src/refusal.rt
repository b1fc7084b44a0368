// What a call answers. "Item" is the bits of one event in the reader, the event's index in the writer: where the refusal is.
ghost use Rattle.std.specs.Prelude.{◌≡◌};
ghost use Rattle.numbers.specs.Refused.{number_of};

// Nothing is refused.
pub const ACCEPTED: u32 = 0;

// Why a call refuses.
#[derive(Clone, Copy, Debug, PartialEq, Eq)]
pub enum Refusal {
    // The table is malformed.
    Table = 1,
    // The root type is not in the table, or the root name is over MOST_NAME.
    Root = 2,
    // The payload is empty or over MOST_PAYLOAD bytes.
    PayloadSize = 3,
    // The mode byte is none of 0F, 4F, 8F.
    ModeByte = 4,
    // An item passes the innermost declared end, or the payload's.
    PastEnd = 5,
    // More than MOST_OPEN elements and particle rows are open.
    Depth = 6,
    // There is no room for the event.
    EventRoom = 7,
    // There is no room for the text.
    TextRoom = 8,
    // A type is not held and no length is coded; in the writer, any Start of a type not held.
    NotHeld = 9,
    // TheLength passes the enclosing end.
    Length = 10,
    // Content ends before its declared end.
    ContentShort = 11,
    // A number is not in shortest form; a TheLength may be padded.
    NotShortest = 12,
    // A number is too large.
    TooLarge = 13,
    // A code names nothing.
    NoSuchCode = 14,
    // A signed number is minus zero.
    MinusZero = 15,
    // A text is not UTF-8.
    NotUtf8 = 16,
    // 8 or more bits are left after the root, or a 1 among them.
    LeftOver = 17,
    // The list is no reading of the content model, or no whole list of at most MOST_EVENTS events.
    NoReading = 18,
    // A Blank stands in a list to be written.
    Blank = 19,
    // A value, branch or count lies outside its row.
    OutsideRow = 20,
    // The payload is over MOST_PAYLOAD bytes or the lent room.
    PayloadRoom = 21,
    // The write mode is over 2.
    WriteMode = 22,
    // Text bytes are short, or left over.
    TextBytes = 23,
    // The area has not the bytes it must have.
    AreaSize = 24,
    // A text has a control character: a byte below 32 that is none of tab, line feed and carriage return.
    Control = 25,
    // The party is none of PARTIES.
    Party = 26,
    // Reserved bits of a start-up message are not ones.
    ReservedBits = 28,
    // A start-up message has no schemas.
    NoSchemas = 29,
    // A start-up message has over MOST_SCHEMAS schemas.
    ManySchemas = 30,
    // The check of a block of a shelf file is wrong.
    BlockCheck = 31,
    // A block's number is out of turn.
    BlockTurn = 32,
    // A shelf file or a stream of records is not laid out as it must be.
    BlockLayout = 33,
    // A start-up message's flag for advanced decoders or additional schemas is set.
    AdvancedFlag = 34,
}

// What is refused at a place: bits of a payload, an event of a list, a word of a table, a byte or a block.
#[derive(Clone, Copy)]
pub struct Fault<P> {
    pub why: Refusal,
    pub at: P,
}

impl Refusal {
    // The number of the interface.
    pub fn number(self) -> u32
        ensures { result ≡ number_of self }
    {
        self as u32
    }
}

// Who takes any number for a refusal, as the words of an area and a report's counts do.
impl From<Refusal> for u32 {
    ghost from_gives = { λ why n. n ≡ number_of why };

    fn from(why: Refusal) -> u32 {
        why.number()
    }
}
