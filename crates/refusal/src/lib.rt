// The table of refusals: one enum for every number that a call gives back instead of an answer.
#![tactic(auto)]

ghost use Rattle.std.specs.Prelude.{◌≡◌};
ghost use Rattle.refusal.specs.Says.{number_of};

// Why a call is refused, in the order of the numbers: 0 to 17, 20 to 25, 29.
#[derive(Clone, Copy, PartialEq, Eq)]
pub enum Refusal {
    // The index or the routing table handed in breaks its rules.
    BadState,
    // The message has no bytes.
    EmptyMessage,
    // The message has more than 1,280 bytes.
    LongMessage,
    // The message's type is not 1 to 9.
    MessageType,
    // A container's length or an offset is wrong; or a record to write is not within the bytes lent.
    Layout,
    // More than 256 distances or 32 records.
    TooManyItems,
    // Another rule on a message's items is broken; or the record of a sighting has not 1 to 300 bytes.
    ItemRule,
    // The key does not have nine bytes.
    KeyLength,
    // The key's selector is neither 0 nor 1.
    KeySelector,
    // The content is empty, or neither an RLP list that fills its bytes nor the beginning of one.
    Content,
    // The key's distance is over the announced radius.
    BeyondRadius,
    // The key is held already.
    AlreadyHeld,
    // The key to remove is not held.
    NotHeld,
    // The output buffer is too short.
    ShortBuffer,
    // The snapshot is bad, first at this line, counted from 1.
    BadSnapshot { line: usize },
    // An odd number of digits, or a character that is no lower-case hexadecimal digit.
    NotHex,
    // The content is the beginning of an RLP list and ends before the list does.
    ContentEndsEarly,
    // The key's block number is over the newest known one.
    BeyondNewest,
    // The id is the routing table's own.
    OwnId,
    // A newcomer whose log distance has room, but all entries are used.
    TableFull,
    // A newcomer to a full log distance, but all replacements are of other log distances.
    ReplacementsFull,
    // Our own record or the connection id is needed for a reply and is not usable.
    Unusable,
    // An input of a call on pre-merge headers has a wrong length.
    InputLength,
    // There is no such epoch, or no record at this position.
    NoSuchPlace,
    // The id that failed has no entry.
    NoEntry,
}

// The refusal's number in the table.
impl From<Refusal> for u8 {
    ghost from_gives = { λ why n. n ≡ number_of why };

    fn from(why: Refusal) -> u8 {
        match why {
            Refusal::BadState => 0,
            Refusal::EmptyMessage => 1,
            Refusal::LongMessage => 2,
            Refusal::MessageType => 3,
            Refusal::Layout => 4,
            Refusal::TooManyItems => 5,
            Refusal::ItemRule => 6,
            Refusal::KeyLength => 7,
            Refusal::KeySelector => 8,
            Refusal::Content => 9,
            Refusal::BeyondRadius => 10,
            Refusal::AlreadyHeld => 11,
            Refusal::NotHeld => 12,
            Refusal::ShortBuffer => 13,
            Refusal::BadSnapshot { line: _ } => 14,
            Refusal::NotHex => 15,
            Refusal::ContentEndsEarly => 16,
            Refusal::BeyondNewest => 17,
            Refusal::OwnId => 20,
            Refusal::TableFull => 21,
            Refusal::ReplacementsFull => 22,
            Refusal::Unusable => 23,
            Refusal::InputLength => 24,
            Refusal::NoSuchPlace => 25,
            Refusal::NoEntry => 29,
        }
    }
}
