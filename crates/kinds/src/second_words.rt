// The page of second words, which words each type allows, and the check that looks them up on it.
ghost use Rattle.std.specs.Prelude.{◌≡◌};
ghost use Rattle.kinds.specs.SecondWords.{has_word, on_page};

// A row: a type, the bits of its second word that must be zero, the bits that are looked at, and the lowest and the highest number that
// these may be.
#[derive(Clone, Copy)]
struct Row(u8, u16, u16, u16, u16);

const ROWS: usize = 10;

const PAGE: [Row; ROWS] = [
    Row(1, 0x0000, 0xFFFF, 0, 65535), // OBU_TR_PG_D_Exit, m, Table 5-24
    Row(2, 0x0000, 0xFFFF, 0, 65535), // OBU_TR_AT_D_Exit, m, Table 5-24
    Row(3, 0x0000, 0xFFFF, 0, 65535), // OBU_TR_MPS_D_Exit, m, Table 5-24
    Row(4, 0xC000, 0x000F, 0, 5), // OBU_TR_CTS_NewVoltage in bits 3..0 and any OBU_TR_CTS_NewId in bits 13..4, code M_VOLTAGE, Table 5-25
    Row(5, 0xFC00, 0xFFFF, 0, 1000), // OBU_TR_ACC_Limit, 10 A, Table 5-33
    Row(5, 0xFC00, 0xFFFF, 1023, 1023), // OBU_TR_ACC_Limit, no restriction, Table 5-33
    Row(6, 0x0000, 0xFFFF, 0, 65535), // OBU_TR_RBI_D_Exit, m, Table 5-24
    Row(7, 0x0000, 0xFFFF, 0, 65535), // OBU_TR_MGI_D_Exit, m, Table 5-24
    Row(8, 0x0000, 0xFFFF, 0, 65535), // OBU_TR_ECS_D_Exit, m, Table 5-24
    Row(9, 0x0000, 0xFFFF, 0, 65535), // OBU_TR_ECE_D_Exit, m, Table 5-24
];

// Whether a row is one of the type's and has the word.
#[tactic(auto, unfolding(crate::specs::SecondWords::fits))]
fn has_word(row: Row, kind: u8, word: u16) -> bool
    ensures { result ≡ has_word kind word row }
{
    let Row(of, zeros, looked, low, high) = row;
    of == kind && word & zeros == 0 && (low..=high).contains(&(word & looked))
}

// Whether the page allows a word for a type: one of the type's rows has it, or the type has no row. The page is copied once, before the
// loop: the compiler then sees through it, and what runs is a few comparisons.
pub fn on_page(kind: u8, word: u16) -> bool
    ensures { result ≡ on_page kind word }
{
    let page = PAGE;
    let mut known = false;
    for row in &page {
        if has_word(*row, kind, word) {
            return true;
        }
        known |= row.0 == kind;
    }
    !known
}
