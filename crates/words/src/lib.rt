// Numbers of four bytes and of eight, the lowest byte first, read where they lie; and bytes put one after another.
#![tactic(auto)]

ghost use Rattle.std.specs.Prelude.{◌≡◌, ◌+◌, ◌≤◌, length};
ghost use Rattle.model.specs.TableFile.{four, eight, word_bytes, two_words, bytes_of};
ghost use Rattle.words.specs.Out.{Fits, Puts};

pub fn word_at(s: &[u8], at: usize) -> u32
    requires { at + 4 ≤ length s.now }
    ensures { result ≡ four s.now at }
{
    u32::from_le_bytes(*s[at..].first_chunk().unwrap())
}

pub fn long_at(s: &[u8], at: usize) -> u64
    requires { at + 8 ≤ length s.now }
    ensures { result ≡ eight s.now at }
{
    u64::from_le_bytes(*s[at..].first_chunk().unwrap())
}

// A lent buffer that is written from front to back: `at` is the next place.
#[derive(Drop)]
pub struct Out<'a> {
    buffer: &'a mut [u8],
    at: usize,
}

impl<'a> Out<'a> {
    #[inline(always)]
    pub fn new(buffer: &'a mut [u8]) -> Out<'a>
        ensures at { result.at ≡ 0 }
        ensures buffer { result.buffer.now ≡ buffer.old }
        ensures same_reference { result.buffer.ghost_name ≡ buffer.entry.ghost_name }
    {
        Out { buffer, at: 0 }
    }

    #[inline(always)]
    pub fn put(&mut self, bytes: &[u8])
        requires { Fits bytes.now self.old }
        ensures { Puts bytes.now self.old self.new }
    {
        let next = self.at + bytes.len();
        self.buffer[self.at..next].copy_from_slice(bytes);
        self.at = next;
    }

    #[inline(always)]
    pub fn put_word(&mut self, word: u32)
        requires { Fits (word_bytes word) self.old }
        ensures { Puts (word_bytes word) self.old self.new }
    {
        self.put(&word.to_le_bytes());
    }

    #[inline(always)]
    pub fn put_long(&mut self, number: u64)
        requires { Fits (bytes_of (two_words number)) self.old }
        ensures { Puts (bytes_of (two_words number)) self.old self.new }
    {
        self.put(&number.to_le_bytes());
    }

    #[inline(always)]
    pub fn at(&self) -> usize
        ensures { result ≡ self.now.at }
    {
        self.at
    }
}
