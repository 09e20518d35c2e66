// A set of bytes, by a flag for each of them: which numbers of slots were seen.
ghost use Rattle.std.specs.Prelude.{◌≡◌, false, true, get_or, replicate, set};

#[derive(Drop)]
pub struct ByteSet {
    flags: [bool; 256],
}

impl ByteSet {
    pub fn empty() -> Self
        ensures { result.flags ≡ replicate 256 false }
    {
        ByteSet {
            flags: [false; 256],
        }
    }

    pub fn contains(&self, asked: u8) -> bool
        ensures { result ≡ get_or self.now.flags asked false }
    {
        self.flags[asked as usize]
    }

    pub fn insert(&mut self, byte: u8)
        ensures { self.new.flags ≡ set self.old.flags byte true }
    {
        self.flags[byte as usize] = true;
    }
}
