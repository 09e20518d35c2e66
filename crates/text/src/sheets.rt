// A sheet: a lent buffer and the place in it where the next byte goes. What has no room before the buffer's end is dropped, so that no
// function asks anything of its caller. It is no `fmt::Write`: of what `write!` puts std says something only where it answers `Ok`, and no
// clause says that it does, so that the goal on the sheet after a `write!` stays open.
ghost use Rattle.std.specs.Prelude.{[], ◌∷◌, ◌≡◌, min, length};
ghost use Rattle.text.specs.Decimals.{decimal};
ghost use Rattle.text.specs.Putting.{put_on};

#[derive(Drop)]
pub struct Sheet<'a> {
    pub buffer: &'a mut [u8],
    pub at: usize,
}

impl<'a> Sheet<'a> {
    // A sheet whose next byte goes to a place in the buffer, or to its end, where the place lies past it.
    pub fn on(buffer: &'a mut [u8], at: usize) -> Self
        ensures { (result.buffer ≡ buffer.entry) × (result.at ≡ min at (length buffer.old)) }
    {
        let place = at.min(buffer.len());
        Sheet { buffer, at: place }
    }

    pub fn put_byte(&mut self, byte: u8)
        ensures { self.new ≡ put_on (byte ∷ []) self.old }
    {
        if self.at < self.buffer.len() {
            self.buffer[self.at] = byte;
            self.at += 1;
        }
    }

    // Words: one minimum says how many of their bytes have room.
    pub fn put_words(&mut self, words: &[u8])
        ensures { self.new ≡ put_on words.now self.old }
    {
        if self.at < self.buffer.len() {
            let end = self.at + words.len().min(self.buffer.len() - self.at);
            self.buffer[self.at..end].copy_from_slice(&words[..end - self.at]);
            self.at = end;
        }
    }

    // A number in decimal, without leading zeros.
    pub fn put_decimal(&mut self, number: u64)
        ensures { self.new ≡ put_on (decimal number) self.old }
    {
        if number < 10 {
            return self.put_byte(b'0' + number as u8);
        }
        self.put_decimal(number / 10);
        self.put_byte(b'0' + (number % 10) as u8);
    }
}
