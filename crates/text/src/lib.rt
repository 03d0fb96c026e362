// The sets of bytes of a label's positions, and decimal fields.
#![tactic(auto)]

ghost use Rattle.std.specs.Prelude.{◌≡◌, ◌+◌, ◌≤◌, length};
ghost use Rattle.text.specs.Decimal.{digits, DigitsAt};
ghost use Rattle.text.specs.Buffer.{laid, laid_at};
ghost use Rattle.text.specs.Bytes.{digit, upper, lower, upper_digit, lower_digit, upper_lower_digit, first_character};
ghost use Rattle.text.specs.Laws.Decimal.{DigitsRead, within};

pub fn is_digit(b: u8) -> bool
    ensures { result ≡ digit b }
{
    b.is_ascii_digit()
}

pub fn is_upper(b: u8) -> bool
    ensures { result ≡ upper b }
{
    b.is_ascii_uppercase()
}

pub fn is_lower(b: u8) -> bool
    ensures { result ≡ lower b }
{
    b.is_ascii_lowercase()
}

pub fn is_upper_digit(b: u8) -> bool
    ensures { result ≡ upper_digit b }
{
    is_upper(b) | is_digit(b)
}

pub fn is_lower_digit(b: u8) -> bool
    ensures { result ≡ lower_digit b }
{
    is_lower(b) | is_digit(b)
}

pub fn is_upper_lower_digit(b: u8) -> bool
    ensures { result ≡ upper_lower_digit b }
{
    is_upper(b) | is_lower_digit(b)
}

// The same set as is_digit, told by bits.
pub fn is_digit_by_bits(b: u8) -> bool
    ensures { result ≡ digit b }
{
    (b ^ 48) < 10
}

// Whether a byte lies between two: in a range of letters or of digits.
pub fn is_between(low: u8, high: u8, b: u8) -> bool
    ensures { result ≡ within low high b }
{
    (low <= b) & (b <= high)
}

// The three ranges of a donation number's first character: no letter O, no digit 0.
pub fn is_first_character(b: u8) -> bool
    ensures { result ≡ first_character b }
{
    is_between(b'A', b'N', b) | (is_between(b'P', b'Z', b) | is_between(b'1', b'9', b))
}

// The number that so many digits from an index on stand for.
pub fn read_digits(c: &[u8], at: usize, count: usize) -> u64
    requires { DigitsAt c.now at count × (count ≤ 18) }
    ensures { DigitsRead c.now at count result }
{
    let mut value = 0;
    for digit in &c[at..at + count] {
        value = 10 * value + (*digit - b'0') as u64;
    }
    value
}

// Writes as many of a number's lowest digits as are asked for.
pub fn write_digits(buffer: &mut [u8], at: usize, count: usize, value: u64)
    requires { at + count ≤ length buffer.old }
    ensures { buffer.new ≡ laid_at at (digits count value) buffer.old }
{
    let mut rest = value;
    for left in (0..count).rev() {
        buffer[at + left] = b'0' + (rest % 10) as u8;
        rest /= 10;
    }
}

// Copies bytes to the part's front: by a loop, as copy_from_slice asks C for memmove, which no terminal owes us.
pub fn lay(part: &mut [u8], bytes: &[u8])
    requires { length bytes.now ≤ length part.old }
    ensures { part.new ≡ laid bytes.now part.old }
{
    for (i, b) in bytes.iter().enumerate() {
        part[i] = *b;
    }
}
