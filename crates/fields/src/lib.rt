// Fields: a decimal number in 8 bytes, read, and written into lent bytes, alone and on lines (rules 6.1 to 6.4). Reader, writer and program
// share them. Figures: a whole number in 10 bytes, for the report (rule 16.1). Digits of both come by the same eight weights. Whatever is
// written goes into a text: each function that puts something writes it where the text goes on, and the text goes on after it.
#![tactic(auto)]

ghost use Rattle.std.specs.Prelude.{◌≡◌, true, ◌&&◌, [], ◌∷◌, ◌+◌, ◌-◌, ◌*◌, ◌/◌, ◌%◌, ◌≤◌, ◌<◌, ltb, leb, pos, nat_abs, length};
ghost use Rattle.texts.specs.Fields.{weights, digit_at, written, digit_of, value_of, is_field, field_at, line};
ghost use Rattle.texts.specs.Reports.{figure};
ghost use Rattle.fields.specs.Scan.{stands, field_in};
ghost use Rattle.fields.specs.Texts.{Puts};
ghost use Rattle.fields.specs.Figures.{signed_at, signed_columns};

// What a digit counts for at each of a field's eight places (rule 6.3), which are the last eight of a figure's ten (rule 16.1).
pub const WEIGHTS: [u32; 8] = [10000000, 1000000, 100000, 10000, 1000, 100, 10, 1];

// Lent bytes that a text is written into, and the byte that it goes on at.
#[derive(Drop)]
pub struct Text<'a> {
    pub out: &'a mut [u8],
    pub at: usize,
}

// What a byte adds: its digit, and 0 for a byte that is none.
#[tactic(auto, unfolding(texts::specs::Fields::digit_of))]
pub fn digit(b: u8) -> u32
    ensures { (result ≡ digit_of b) × (result ≤ 9) }
{
    match b {
        b'0'..=b'9' => (b - b'0') as u32,
        _ => 0,
    }
}

// The byte is a digit from least on.
pub fn digit_from(least: u8, b: u8) -> bool
    ensures { result ≡ (leb least b && leb b 57) }
{
    least <= b && b <= b'9'
}

// The byte may stand at the weight after digits of the value: a digit once digits have begun and at the last place,
// before that a space or a digit from 1 on.
#[tactic(auto, unfolding(crate::specs::Scan::stands))]
fn stands(value: u32, weight: u32, b: u8) -> bool
    ensures { result ≡ stands value weight b }
{
    if 0 < value || weight == 1 {
        digit_from(b'0', b)
    } else {
        b == b' ' || digit_from(b'1', b)
    }
}

// The number in the field that starts at a byte, read in one pass; none where the field is not well formed.
fn read_field(bytes: &[u8], start: usize) -> Option<u32>
    requires { start + 8 ≤ length bytes.now }
    ensures { result ≡ field_in (field_at bytes.now start) }
{
    let mut value: u32 = 0;
    for i in 0..8 {
        let b = bytes[start + i];
        if !stands(value, WEIGHTS[i], b) {
            return None;
        }
        value += WEIGHTS[i] * digit(b);
    }
    Some(value)
}

// The field that starts at a byte is well formed.
pub fn field_ok(bytes: &[u8], start: usize) -> bool
    requires { start + 8 ≤ length bytes.now }
    ensures { result ≡ is_field (field_at bytes.now start) }
{
    read_field(bytes, start).is_some()
}

// The number in the well-formed field that starts at a byte.
pub fn number(bytes: &[u8], start: usize) -> u32
    requires { (start + 8 ≤ length bytes.now) × (is_field (field_at bytes.now start) ≡ true) }
    ensures { result ≡ value_of (field_at bytes.now start) }
{
    read_field(bytes, start).unwrap_or(0)
}

// The digit of a number at a weight, as its byte (48 is "0").
pub fn numeral(value: u32, weight: u32) -> u8
    requires { 1 ≤ weight }
    ensures { result ≡ 48 + value / weight % 10 }
{
    (48 + value / weight % 10) as u8
}

// The byte of a number at a weight: its digit there, and a space before its first digit.
#[tactic(auto, unfolding(texts::specs::Fields::digit_at))]
fn byte_at(value: u32, weight: u32) -> u8
    requires { 1 ≤ weight }
    ensures { result ≡ digit_at value weight }
{
    if weight <= value || weight == 1 {
        numeral(value, weight)
    } else {
        b' '
    }
}

// The eight bytes of a number; of one from 100,000,000 on only its last eight digits. Never inlined, so that no caller keeps them below the stack pointer.
#[inline(never)]
pub fn written(value: u32) -> [u8; 8]
    ensures { result ≡ written value }
{
    let mut field = [b' '; 8];
    for i in 0..8 {
        field[i] = byte_at(value, WEIGHTS[i]);
    }
    field
}

// The column at a weight has the minus: right before the first digit of a number below 0.
fn has_minus(below: bool, size: u32, weight: u32) -> bool
    requires { size < 100000000 }
    ensures { result ≡ (below && ltb size weight && leb weight (10 * size)) }
{
    below && size < weight && weight <= 10 * size
}

// The byte of a figure at a weight: a minus, or the byte of its size.
#[tactic(auto, unfolding(crate::specs::Figures::signed_at))]
fn figure_byte(below: bool, size: u32, weight: u32) -> u8
    requires { (1 ≤ weight) × (size < 100000000) }
    ensures { result ≡ signed_at below size weight }
{
    if has_minus(below, size, weight) {
        b'-'
    } else {
        byte_at(size, weight)
    }
}

impl Text<'_> {
    // One byte.
    pub fn put_byte(&mut self, byte: u8)
        requires { self.old.at < length self.old.out.now }
        ensures { Puts self.old self.new (byte ∷ []) }
    {
        let at = self.at;
        self.out[at] = byte;
        self.at = at + 1;
    }

    // Bytes, one after the other.
    pub fn put_bytes(&mut self, bytes: &[u8])
        requires { self.old.at + length bytes.now ≤ length self.old.out.now }
        ensures { Puts self.old self.new bytes.now }
    {
        // One by one: a copy of the whole calls memmove, which the C header does not say that the archive needs. By `out` and `at`, here and below,
        // and not by `put_byte`: for all that the compiler knows, each of its writes changes the text's own fields, which it then reads again.
        let at = self.at;
        let out = &mut *self.out;
        for (i, byte) in bytes.iter().enumerate() {
            out[at + i] = *byte;
        }
        self.at = at + bytes.len();
    }

    // A number as a field.
    pub fn put_field(&mut self, value: u32)
        requires { self.old.at + 8 ≤ length self.old.out.now }
        ensures { Puts self.old self.new (written value) }
    {
        let end = self.at + 8;
        self.out[self.at..end].copy_from_slice(&written(value));
        self.at = end;
    }

    // A line of fields.
    pub fn put_line<const N: usize>(&mut self, figures: [u32; N])
        requires { self.old.at + 8 * N < length self.old.out.now }
        ensures { Puts self.old self.new (line figures.entry) }
    {
        for figure in &figures {
            self.put_field(*figure);
        }
        self.put_byte(b'\n');
    }

    // The last eight bytes of a figure of at most eight digits, told whether it is below 0, and its size.
    fn put_columns(&mut self, below: bool, size: u32)
        requires { (size < 100000000) × (self.old.at + 8 ≤ length self.old.out.now) }
        ensures { Puts self.old self.new (signed_columns below size) }
    {
        let at = self.at;
        let out = &mut *self.out;
        for (i, weight) in WEIGHTS.iter().enumerate() {
            out[at + i] = figure_byte(below, size, *weight);
        }
        self.at = at + 8;
    }

    // A whole number of at most eight digits as a figure: a space, a space or the minus, and eight bytes by the weights.
    pub fn put_figure(&mut self, value: i32)
        requires { (nat_abs value < 100000000) × (self.old.at + 10 ≤ length self.old.out.now) }
        ensures { Puts self.old self.new (figure value) }
    {
        let below = value < 0;
        let size = value.unsigned_abs();
        self.put_byte(b' ');
        self.put_byte(figure_byte(below, size, 100000000));
        self.put_columns(below, size);
    }

    // A number that is not below 0 as a figure.
    pub fn put_count(&mut self, value: u32)
        requires { (value < 100000000) × (self.old.at + 10 ≤ length self.old.out.now) }
        ensures { Puts self.old self.new (figure (pos value)) }
    {
        self.put_figure(value as i32);
    }
}
