// Why a call is refused: `Result<(), Refusal>`, or a Result whose value is what was asked for.
ghost use Rattle.std.specs.Prelude.{◌≡◌};
ghost use Rattle.wire.specs.Verdicts.{row_number};

// The rows of document 01's table of refusals, each under its number.
#[derive(Clone, Copy, Debug, PartialEq, Eq)]
pub enum Refusal {
    // A list: its length is not a multiple of 10, or over 200 bytes.
    NotWholeOrders = 1,
    ListTooLong = 2,
    // An order: number 0, a type that is not 1 to 9, a spare byte that is not zero, a second word that the type does not allow (of a slot
    // too), a number that is already in this list, a live order with another type.
    OrderZero = 3,
    UnknownType = 4,
    SpareByte = 5,
    SecondWord = 6,
    OrderTwice = 7,
    TypeChanged = 8,
    // Writing: a packet that is not 3 to 7; and a buffer or a telegram that has not 26 bytes.
    NoSuchPacket = 9,
    Length = 10,
    // A heard telegram: packet 0 to 2.
    NoTablePacket = 11,
    // A slot: number 0 with another byte not zero; number above 0 and a type that is not 1 to 9, or a number of an earlier slot.
    EmptySlotFilled = 12,
    UnknownSlotType = 13,
    NumberTwice = 14,
    // A set: a number twice in it.
    NumberClash = 15,
    // A train telegram: byte 0 is not 1, or a zero bit is set.
    FirstByte = 16,
    ZeroBit = 17,
}

impl From<Refusal> for u8 {
    ghost from_gives = { λ refusal number. number ≡ row_number refusal };

    fn from(refusal: Refusal) -> u8 {
        refusal as u8
    }
}
