// Bytes and numbers, one after another, written into a lent byte buffer. Where a byte has no room, it and all that follow are left out.
#![tactic(auto)]

ghost use Rattle.std.specs.Prelude.{◌≡◌, [], ◌∷◌, ◌++◌};
ghost use Rattle.page.specs.Page.{page, first_pen, sheet, Puts};
ghost use Rattle.page.specs.Numbers.{number};

// A lent buffer with a pen over it, which is where the next byte goes: nowhere, once a byte had no room. A page may be begun at any byte.
#[derive(Drop)]
pub struct Page<'a> {
    pub out: &'a mut [u8],
    pub pen: Option<usize>,
}

impl<'a> Page<'a> {
    // A page that is written from the first byte of the buffer on.
    pub fn new(out: &'a mut [u8]) -> Page<'a>
        ensures blank { sheet result ≡ page first_pen out.old }
        ensures same_buffer { result.out.ghost_name ≡ out.entry.ghost_name }
    {
        Page { out, pen: Some(0) }
    }

    pub fn byte(&mut self, letter: u8)
        ensures { Puts (letter ∷ []) self.old self.new }
    {
        self.pen = match self.pen {
            Some(at) if at < self.out.len() => {
                self.out[at] = letter;
                Some(at + 1)
            }
            _ => None,
        };
    }

    pub fn bytes(&mut self, letters: &[u8])
        ensures { Puts letters.now self.old self.new }
    {
        for &letter in letters {
            self.byte(letter);
        }
    }

    // A name, and n in decimal.
    pub fn named(&mut self, name: &[u8], n: usize)
        ensures { Puts (name.now ++ number n) self.old self.new }
    {
        self.bytes(name);
        self.number(n);
    }

    // n in decimal.
    // Kept: std prints numbers too, but says what was written only where it answers Ok, and nothing says that it does.
    fn number(&mut self, n: usize)
        ensures { Puts (number n) self.old self.new }
    {
        if n >= 10 {
            self.number(n / 10);
        }
        self.byte(b'0' + (n % 10) as u8);
    }

    // How many bytes were written, where all had room.
    pub fn written(&self) -> Option<usize>
        ensures { result ≡ self.now.pen }
    {
        self.pen
    }
}
