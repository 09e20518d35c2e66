// Bytes, words and longer numbers, high byte first. Past the end of a slice every byte is 0, so that no function asks for a length.
ghost use Rattle.std.specs.Prelude.{◌≡◌, slice_index};
ghost use Rattle.kit.specs.Bytes.{word_of_two, word_at, long_at};

// A word of two bytes, high byte first.
pub fn word(high: u8, low: u8) -> u16
    ensures { result ≡ word_of_two high low }
{
    u16::from_be_bytes([high, low])
}

pub fn byte_at(list: &[u8], i: usize) -> u8
    ensures { result ≡ slice_index list.now i }
{
    list.get(i).copied().unwrap_or(0)
}

pub fn word_at(list: &[u8], i: usize) -> u16
    ensures { result ≡ word_at list.now i }
{
    if i < list.len() {
        return word(list[i], byte_at(list, i + 1));
    }
    0
}

// The number of the four bytes from index i on. One function for two bytes and four would have a length for a parameter, and no type of its
// answer.
pub fn long_at(list: &[u8], i: usize) -> u32
    ensures { result ≡ long_at list.now i }
{
    if i < list.len() {
        return u32::from_be_bytes([
            list[i],
            byte_at(list, i + 1),
            byte_at(list, i + 2),
            byte_at(list, i + 3),
        ]);
    }
    0
}
