// Whether a content fits as a whole: all bytes in one straight line, before the walk finds where it does not.
ghost use Rattle.std.specs.Prelude.{◌≡◌, true, ◌<◌, length};
ghost use Rattle.structure.specs.Laws.Donation.{decimal};
ghost use Rattle.structure.specs.Laws.Kinds.{shape_positions};
ghost use Rattle.content_scan.specs.Laws.Passes.{Passes};
ghost use Rattle.content_scan.specs.Laws.Scan.{Whole};

use calendar::Time;
use structure::Shape;

// Whether bytes pass a test of one: with no branch between them, so that many are tested at once.
fn all_pass<F: Fn(u8) -> bool>(row: &[u8], test: F) -> bool
    requires may { F.IsAlwaysCallable test }
    ensures { Passes (λ b r. F.post test b r) row.now (length row.now) result }
{
    let mut all = true;
    for b in row {
        all &= test(*b);
    }
    all
}

// Whether n bytes past the first, which may be too few, are digits.
fn digits(c: &[u8], n: usize) -> bool
    ensures { result ≡ true → Whole (decimal n) c.now }
{
    (n < c.len()) && all_pass(&c[1..n + 1], text::is_digit)
}

// Fourteen digits as two rows of eight, which share two: each row is then tested at once, by another test, so that of a byte in both rows
// neither test is dropped.
fn fourteen(c: &[u8]) -> bool
    ensures { result ≡ true → Whole (decimal 14) c.now }
{
    (14 < c.len())
        && (all_pass(&c[1..9], text::is_digit) & all_pass(&c[7..15], text::is_digit_by_bits))
}

// Whether the flags behind a donation number are lawful; the number's check is worked out only for those that carry it.
fn flags(c: &[u8]) -> bool
    requires { Whole (decimal 14) c.now }
    ensures { result ≡ true → Whole (shape_positions Shape.Donation) c.now }
{
    if c[13] < b'6' {
        return true;
    }
    let own = check37::check_worth(&c[..13]);
    structure::tens_goes(own, c[13]) & structure::ones_goes(own, c[13], c[14])
}

// Fourteen digits with such flags.
fn donation(c: &[u8]) -> bool
    ensures { result ≡ true → Whole (shape_positions Shape.Donation) c.now }
{
    fourteen(c) && flags(c)
}

// Five digits that begin with a lawful count.
pub(crate) fn head(c: &[u8]) -> bool
    ensures { result ≡ true → Whole (shape_positions Shape.Head) c.now }
{
    if digits(c, 5) {
        let count = text::read_digits(c, 1, 2);
        (1 <= count) & (count <= 16)
    } else {
        false
    }
}

// Six digits that stand for a lawful date.
fn date(c: &[u8]) -> bool
    ensures { result ≡ true → Whole (shape_positions Shape.Date) c.now }
{
    digits(c, 6) && calendar::is_date(&c[1..])
}

// The same, and four that stand for a lawful time.
fn stamp(c: &[u8]) -> bool
    ensures { result ≡ true → Whole (shape_positions Shape.Stamp) c.now }
{
    digits(c, 10)
        && (calendar::is_date(&c[1..]) & calendar::is_lawful_time(Time::from_digits(&c[7..])))
}

// Whether sixteen digits, the second of them 0, stand for a lawful type, day and time.
fn moment(c: &[u8]) -> bool
    requires { Whole (decimal 16) c.now }
    ensures { result ≡ true → Whole (shape_positions Shape.Flexible) c.now }
{
    let front = flexible::is_lawful_flexible(flexible::type_of(&c[1..]));
    let day = months::is_lawful_day(flexible::day_of(&c[5..]));
    let time = calendar::is_lawful_time(Time::from_digits(&c[13..]));
    (c[2] == b'0') & front & day & time
}

// Sixteen digits with such values.
fn flexible(c: &[u8]) -> bool
    ensures { result ≡ true → Whole (shape_positions Shape.Flexible) c.now }
{
    digits(c, 16) && moment(c)
}

// Whether the check stands behind the eighteen digits of the antigen structure of 2001.
fn checked(c: &[u8]) -> bool
    requires { Whole (decimal 18) c.now }
    ensures { result ≡ true → Whole (shape_positions Shape.Antigens2001) c.now }
{
    if c.len() <= 19 {
        return false;
    }
    c[19] == check37::check_of(&c[1..19])
}

// Eighteen digits with their check.
fn antigens(c: &[u8]) -> bool
    ensures { result ≡ true → Whole (shape_positions Shape.Antigens2001) c.now }
{
    digits(c, 18) && checked(c)
}

// e may only be 0, which is the cheapest to ask and comes first.
fn groups(c: &[u8]) -> bool
    ensures { result ≡ true → Whole (shape_positions Shape.Groups) c.now }
{
    if c.len() <= 4 {
        return false;
    }
    (c[4] == b'0')
        && ((text::is_upper_lower_digit(c[1]) & text::is_upper_lower_digit(c[2]))
            && text::is_upper_lower_digit(c[3]))
}

fn product(c: &[u8]) -> bool
    ensures { result ≡ true → Whole (shape_positions Shape.Product) c.now }
{
    if c.len() <= 8 {
        return false;
    }
    let front = text::is_upper(c[1]) & text::is_upper_digit(c[2]) & text::is_upper_digit(c[3]);
    let code = front & text::is_upper_digit(c[4]) & text::is_upper_digit(c[5]);
    let division = structure::d_goes(c[1], c[7]) & text::is_upper_digit(c[7]);
    let subdivision = structure::s_goes(c[1], c[7], c[8]) & text::is_lower_digit(c[8]);
    code & text::is_upper_lower_digit(c[6]) & division & subdivision
}

fn testing(c: &[u8]) -> bool
    ensures { result ≡ true → Whole (shape_positions Shape.Testing) c.now }
{
    (5 < c.len()) && all_pass(&c[1..6], text::is_upper_digit)
}

fn lot(c: &[u8]) -> bool
    ensures { result ≡ true → Whole (shape_positions Shape.Lot) c.now }
{
    (10 < c.len()) && all_pass(&c[1..11], text::is_upper_lower_digit)
}

// Whether a content fits; false says nothing. The length is asked in each arm, not before the match, which the compiler can then follow.
pub(crate) fn fits(shape: Shape, body: &[u8]) -> bool
    ensures { result ≡ true → Whole (shape_positions shape) body.now }
{
    match shape {
        Shape::Donation => donation(body),
        Shape::Groups => groups(body),
        Shape::Product => product(body),
        Shape::Date => date(body),
        Shape::Stamp => stamp(body),
        Shape::Testing => testing(body),
        Shape::Antigens => digits(body, 18),
        Shape::Lot => lot(body),
        Shape::Flexible => flexible(body),
        Shape::Antigens2001 => antigens(body),
        Shape::Head => false,
    }
}
