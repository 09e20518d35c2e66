// Which telegrams from the train are refused: 10, 16, 17.
ghost use Rattle.std.specs.Prelude.{◌≡◌};
ghost use Rattle.train_codes.specs.Refusals.{rest_set, zero_bit_set, train_refusal};
ghost use Rattle.wire.specs.Verdicts.{refusal_number};

use wire::Refusal;

// How many bytes a telegram has; the first of them.
const LENGTH: usize = 26;

const FIRST_BYTE: u8 = 1;

// Byte 1 has two bits and byte 2 has three; the bytes from 11 on have none.
const CABS: u8 = 4;

const BRAKE_POSITIONS: u8 = 8;

const REST: usize = 11;

// Whether one of the bytes 11 to 25 is not zero.
fn rest_set(telegram: &[u8; LENGTH]) -> bool
    ensures { result ≡ rest_set telegram.now }
{
    telegram[REST..].iter().any(|byte| *byte != 0)
}

// Whether a bit is set that must be zero (row 17).
#[tactic(auto, unfolding(crate::specs::Refusals::zero_bit_set))]
fn zero_bit_set(telegram: &[u8; LENGTH]) -> bool
    ensures { result ≡ zero_bit_set telegram.now }
{
    telegram[1] >= CABS
        || telegram[2] >= BRAKE_POSITIONS
        || wire::long_at(telegram, 7) % 2 == 1
        || rest_set(telegram)
}

// Whether a telegram is refused, and why.
#[tactic(auto, unfolding(crate::specs::Refusals::train_rows, kit::specs::Ladder::ladder))]
pub fn refusal_of(telegram: &[u8]) -> Result<(), Refusal>
    ensures { refusal_number result ≡ train_refusal telegram.now }
{
    let Ok(telegram) = <&[u8; LENGTH]>::try_from(telegram) else {
        return Err(Refusal::Length);
    };
    if telegram[0] != FIRST_BYTE {
        return Err(Refusal::FirstByte);
    }
    if zero_bit_set(telegram) {
        return Err(Refusal::ZeroBit);
    }
    Ok(())
}
