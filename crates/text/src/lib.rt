// A text in a buffer that is lent, and what is pushed behind it: bytes, numbers in decimal, and the line of a refusal.
#![tactic(auto)]

ghost use Rattle.std.specs.Prelude.{◌≡◌, [], ◌∷◌, ◌+◌, ◌<◌, ◌≤◌, length};
ghost use Rattle.text.specs.Text.{decimal, space, refused_line, HasRoom, Pushed};

// The first bytes of a buffer, so many of them.
#[derive(Drop)]
pub struct Text<'a> {
    out: &'a mut [u8],
    len: usize,
}

impl<'a> Text<'a> {
    pub fn new(out: &'a mut [u8]) -> Text<'a>
        ensures same_buffer { result.out.ghost_name ≡ out.entry.ghost_name }
        ensures bytes { result.out.now ≡ out.old }
        ensures empty { result.len ≡ 0 }
    {
        Text { out, len: 0 }
    }

    // What stands in a buffer before a place, to push behind it.
    pub fn behind(out: &'a mut [u8], place: usize) -> Text<'a>
        requires { place ≤ length out.old }
        ensures same_buffer { result.out.ghost_name ≡ out.entry.ghost_name }
        ensures bytes { result.out.now ≡ out.old }
        ensures behind { result.len ≡ place }
    {
        Text { out, len: place }
    }

    pub fn len(&self) -> usize
        ensures { result ≡ self.now.len }
    {
        self.len
    }

    pub fn push(&mut self, byte: u8)
        requires { HasRoom 1 self.old }
        ensures { Pushed (byte ∷ []) self.old self.new }
    {
        self.out[self.len] = byte;
        self.len += 1;
    }

    pub fn push_text(&mut self, text: &[u8])
        requires { HasRoom (length text.now) self.old }
        ensures { Pushed text.now self.old self.new }
    {
        let end = self.len + text.len();
        self.out[self.len..end].copy_from_slice(text);
        self.len = end;
    }

    // Most numbers have at most three digits, and go a short way.
    #[tactic(auto, using(crate::proofs::Laws::one_long, crate::proofs::Laws::more_long))]
    pub fn push_decimal(&mut self, n: u64)
        requires { HasRoom (length (decimal n)) self.old }
        ensures { Pushed (decimal n) self.old self.new }
    {
        if n < 10 {
            return self.push(b'0' + n as u8);
        }
        if n < 100 {
            return self.push_two_digits(n);
        }
        if n < 1000 {
            self.push_two_digits(n / 10);
            return self.push(b'0' + (n % 10) as u8);
        }
        let mut digits = [0; 20];
        let count = io::decimal(n, &mut digits);
        self.push_text(&digits[..count]);
    }

    #[tactic(auto, using(crate::proofs::Laws::one_long, crate::proofs::Laws::more_long))]
    fn push_two_digits(&mut self, n: u64)
        requires { (10 ≤ n) × (n < 100) × HasRoom (length (decimal n)) self.old }
        ensures { Pushed (decimal n) self.old self.new }
    {
        self.push(b'0' + (n / 10) as u8);
        self.push(b'0' + (n % 10) as u8);
    }

    // A space, then the number.
    pub fn push_next(&mut self, n: u32)
        requires { HasRoom (1 + length (decimal n)) self.old }
        ensures { Pushed (space ∷ decimal n) self.old self.new }
    {
        self.push(b' ');
        self.push_decimal(n as u64);
    }

    #[tactic(auto, using(crate::proofs::Laws::refused_length))]
    pub fn push_refused(&mut self, number: u32)
        requires { HasRoom (length (refused_line number)) self.old }
        ensures { Pushed (refused_line number) self.old self.new }
    {
        self.push_text(b"refused ");
        self.push_decimal(number as u64);
        self.push(b'\n');
    }
}
