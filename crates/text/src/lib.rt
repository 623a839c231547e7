// Decimal numbers as text, and text written upward into a lent buffer.
#![tactic(auto)]

ghost use Rattle.std.specs.Prelude.{◌≡◌, [], ◌∷◌};
ghost use Rattle.text.specs.Decimals.{decimal, digits_in, value_of};
ghost use Rattle.text.specs.Decimals.{spaced as spaced_text};
ghost use Rattle.text.specs.Places.{appended};

// A lent buffer, and the place in it where the next text is to stand.
#[derive(Drop)]
pub struct Text<'a> {
    pub out: &'a mut [u8],
    pub at: usize,
}

impl Text<'_> {
    // One byte.
    pub fn byte(&mut self, b: u8)
        ensures { self.new ≡ appended self.old (b ∷ []) }
    {
        if self.at < self.out.len() {
            self.out[self.at] = b;
            self.at += 1;
        } else {
            self.at = self.out.len();
        }
    }

    // No text: a place past the buffer's end becomes its end.
    fn nothing(&mut self)
        ensures { self.new ≡ appended self.old [] }
    {
        self.at = self.at.min(self.out.len());
    }

    // The bytes of a text.
    pub fn piece(&mut self, text: &[u8])
        ensures { self.new ≡ appended self.old text.now }
    {
        self.nothing();
        for b in text {
            self.byte(*b);
        }
    }

    // A number's digits, at most `more` before the last. By hand, since `write!` promises a text only where it answers Ok.
    fn digits(&mut self, more: usize, n: usize)
        ensures { self.new ≡ appended self.old (digits_in more n) }
    {
        if 0 < more && 10 <= n {
            self.digits(more - 1, n / 10);
        }
        self.byte(b'0' + (n % 10) as u8);
    }

    // A number in decimal.
    pub fn number(&mut self, n: usize)
        ensures { self.new ≡ appended self.old (decimal n) }
    {
        self.digits(19, n);
    }

    // A space and a number in decimal.
    pub fn after_space(&mut self, n: usize)
        ensures { self.new ≡ appended self.old (spaced_text (n ∷ [])) }
    {
        self.byte(b' ');
        self.number(n);
    }

    // Words in decimal, one space before each.
    pub fn spaced(&mut self, words: &[u32])
        ensures { self.new ≡ appended self.old (spaced_text words.now) }
    {
        self.nothing();
        for word in words {
            self.after_space(*word as usize);
        }
    }
}

// The number that a text of one to ten digits stands for, where it is a 32-bit word. `parse` would take a sign, and more digits.
pub fn value(text: &[u8]) -> Option<u32>
    ensures { result ≡ value_of text.now }
{
    let 1..=10 = text.len() else {
        return None;
    };
    let mut n: u32 = 0;
    for &b in text {
        let b'0'..=b'9' = b else {
            return None;
        };
        n = n.checked_mul(10)?.checked_add(u32::from(b - b'0'))?;
    }
    Some(n)
}
