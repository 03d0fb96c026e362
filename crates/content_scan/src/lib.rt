// Scanning the content of a structure, past its identifier: whether it is whole, ends too early, or which byte does not fit.
#![tactic(auto)]

ghost use Rattle.std.specs.Prelude.{◌≡◌, true, List, ℕ, ◌+◌, ◌≤◌, ◌<◌, length, get_or};
ghost use Rattle.demand.specs.Numbered.{judged};
ghost use Rattle.demand.specs.Laws.Content.{Position, Judges, verdict, nowhere};
ghost use Rattle.text.specs.Bytes.{digit};
ghost use Rattle.structure.specs.declared.Shape.{Shape};
ghost use Rattle.structure.specs.Laws.Checked.{antigen_positions};
ghost use Rattle.structure.specs.Laws.Kinds.{shape_positions, groups_positions, position_tells};
ghost use Rattle.structure.specs.Laws.Product.{product_positions};
ghost use Rattle.structure.specs.Laws.Head.{head_positions};
ghost use Rattle.content_scan.specs.Laws.Scan.{Scanned, Judging, JudgesBody};
ghost use Rattle.content_scan.specs.Laws.Judge.{head_goes, count_second, DonationGoes};

use demand::{Refusal, Stop};
use structure::Shape;

mod whole;

// How many bytes a content has.
pub fn size(shape: Shape) -> usize
    ensures { result ≡ length (shape_positions shape) }
{
    match shape {
        Shape::Donation => 14,
        Shape::Groups => 4,
        Shape::Product => 8,
        Shape::Date => 6,
        Shape::Stamp => 10,
        Shape::Testing => 5,
        Shape::Antigens => 18,
        Shape::Lot => 10,
        Shape::Flexible => 16,
        Shape::Antigens2001 => 19,
        Shape::Head => 5,
    }
}

// Whether a digit at i of a donation number and its flags goes on. The number's own check stands here once, so that its loop is compiled once.
fn donation_goes(body: &[u8], i: usize) -> bool
    requires { (i + 1 < length body.now) × (i < 14) }
    ensures { DonationGoes body.now i result }
{
    if i < 12 {
        return true;
    }
    let own = check37::check_worth(&body[..13]);
    if i == 12 {
        structure::tens_goes(own, body[13])
    } else {
        structure::ones_goes(own, body[13], body[14])
    }
}

// Whether the byte there fits. That it is a digit is asked first, so that no check is worked out where it is none.
fn judge_donation(body: &[u8], i: usize) -> Result<(), Refusal>
    requires { (i + 1 < length body.now) × (i < 14) }
    ensures { JudgesBody (shape_positions Shape.Donation) body.now i (judged result) }
{
    if text::is_digit(body[i + 1]) {
        demand::verdict(true, donation_goes(body, i), Refusal::Check)
    } else {
        Err(Refusal::Character)
    }
}

// Whether the byte at i of a product code fits after the bytes before it.
fn judge_product(c: &[u8], i: usize) -> Result<(), Refusal>
    requires { (i < length c.now) × (i < 8) }
    ensures { Judges product_positions c.now i (judged result) }
{
    let b = c[i];
    match i {
        0 => demand::verdict(text::is_upper(b), true, Refusal::Value),
        5 => demand::verdict(text::is_upper_lower_digit(b), true, Refusal::Value),
        6 => demand::verdict(
            text::is_upper_digit(b),
            structure::d_goes(c[0], b),
            Refusal::Value,
        ),
        7 => demand::verdict(
            text::is_lower_digit(b),
            structure::s_goes(c[0], c[6], b),
            Refusal::Value,
        ),
        _ => demand::verdict(text::is_upper_digit(b), true, Refusal::Value),
    }
}

// The same of a blood group label: e may only be 0.
fn judge_groups(i: usize, b: u8) -> Result<(), Refusal>
    requires { i < 4 }
    ensures { (p : List ℕ) → judged result ≡ verdict (get_or groups_positions i nowhere) p b }
{
    match i {
        3 => demand::verdict(text::is_upper_lower_digit(b), b == b'0', Refusal::Value),
        _ => demand::verdict(text::is_upper_lower_digit(b), true, Refusal::Value),
    }
}

// The same of the antigen structure of 2001: eighteen digits and their check.
fn judge_antigens(c: &[u8], i: usize) -> Result<(), Refusal>
    requires { (i < length c.now) × (i < 19) }
    ensures { Judges antigen_positions c.now i (judged result) }
{
    let b = c[i];
    match i {
        18 => demand::verdict(
            check37::is_check_character(b),
            b == check37::check_of(&c[..18]),
            Refusal::Check,
        ),
        _ => demand::verdict(text::is_digit(b), true, Refusal::Value),
    }
}

// Whether a digit may stand second in a count after a: after 0 from 1, after 1 to 6.
fn count_goes(a: u8, b: u8) -> bool
    requires { digit b ≡ true }
    ensures { result ≡ count_second a b }
{
    match a {
        b'0' => text::is_between(b'1', b'9', b),
        b'1' => text::is_between(b'0', b'6', b),
        _ => true,
    }
}

// Whether the digit b may stand at i of an 023 after the digits before it.
fn head_goes(c: &[u8], i: usize, b: u8) -> bool
    requires { (i ≤ length c.now) × (i < 5) × (digit b ≡ true) }
    ensures { result ≡ head_goes c.now i b }
{
    match i {
        0 => text::is_between(b'0', b'1', b),
        1 => count_goes(c[0], b),
        _ => true,
    }
}

// Whether the byte at i of an 023 fits after the bytes before it.
fn judge_head(c: &[u8], i: usize) -> Result<(), Refusal>
    requires { (i < length c.now) × (i < 5) }
    ensures { Judges head_positions c.now i (judged result) }
{
    let b = c[i];
    if text::is_digit(b) {
        demand::verdict(true, head_goes(c, i, b), Refusal::Value)
    } else {
        Err(Refusal::Character)
    }
}

// A content of fixed length, and how a byte of it is judged. Each has a loop of its own: one that asks the shape at each byte costs
// labelbench a tenth more instructions, and on damaged lines a sixth.
pub trait Content {
    ghost positions: { List Position };

    // How many bytes it has.
    fn size() -> usize
        ensures { result ≡ length positions };

    // Whether the byte at i fits after the bytes before it, which fit; body begins with the byte in front of the content.
    fn judge(body: &[u8], i: usize) -> Result<(), Refusal>
        requires { Judging positions body.now i }
        ensures { JudgesBody positions body.now i (judged result) };

    // Every unlawful byte is refused with a number but 0.
    ghost tells: { (i : ℕ) → i < length positions → (get_or positions i nowhere).refusal ≡ 0 → ⊥ };
}

// A donation number and its flags.
struct DonationNumber;

impl Content for DonationNumber {
    ghost positions = { shape_positions Shape.Donation };

    fn size() -> usize {
        size(Shape::Donation)
    }

    fn judge(body: &[u8], i: usize) -> Result<(), Refusal> {
        judge_donation(body, i)
    }

    ghost tells = { λ i l. position_tells Shape.Donation i };
}

// A blood group label.
struct BloodGroups;

impl Content for BloodGroups {
    ghost positions = { shape_positions Shape.Groups };

    fn size() -> usize {
        size(Shape::Groups)
    }

    fn judge(body: &[u8], i: usize) -> Result<(), Refusal> {
        judge_groups(i, body[i + 1])
    }

    ghost tells = { λ i l. position_tells Shape.Groups i };
}

// A product code.
struct ProductCode;

impl Content for ProductCode {
    ghost positions = { shape_positions Shape.Product };

    fn size() -> usize {
        size(Shape::Product)
    }

    fn judge(body: &[u8], i: usize) -> Result<(), Refusal> {
        judge_product(&body[1..], i)
    }

    ghost tells = { λ i l. position_tells Shape.Product i };
}

// A date.
struct Date;

impl Content for Date {
    ghost positions = { shape_positions Shape.Date };

    fn size() -> usize {
        size(Shape::Date)
    }

    fn judge(body: &[u8], i: usize) -> Result<(), Refusal> {
        calendar::judge_date(&body[1..], i)
    }

    ghost tells = { λ i l. position_tells Shape.Date i };
}

// A date and a time.
struct Stamp;

impl Content for Stamp {
    ghost positions = { shape_positions Shape.Stamp };

    fn size() -> usize {
        size(Shape::Stamp)
    }

    fn judge(body: &[u8], i: usize) -> Result<(), Refusal> {
        calendar::judge_stamp(&body[1..], i)
    }

    ghost tells = { λ i l. position_tells Shape.Stamp i };
}

// Five characters of a testing.
struct Testing;

impl Content for Testing {
    ghost positions = { shape_positions Shape.Testing };

    fn size() -> usize {
        size(Shape::Testing)
    }

    fn judge(body: &[u8], i: usize) -> Result<(), Refusal> {
        demand::verdict(text::is_upper_digit(body[i + 1]), true, Refusal::Value)
    }

    ghost tells = { λ i l. position_tells Shape.Testing i };
}

// Eighteen digits of antigens.
struct Antigens;

impl Content for Antigens {
    ghost positions = { shape_positions Shape.Antigens };

    fn size() -> usize {
        size(Shape::Antigens)
    }

    fn judge(body: &[u8], i: usize) -> Result<(), Refusal> {
        demand::verdict(text::is_digit(body[i + 1]), true, Refusal::Value)
    }

    ghost tells = { λ i l. position_tells Shape.Antigens i };
}

// Ten characters of a lot.
struct Lot;

impl Content for Lot {
    ghost positions = { shape_positions Shape.Lot };

    fn size() -> usize {
        size(Shape::Lot)
    }

    fn judge(body: &[u8], i: usize) -> Result<(), Refusal> {
        demand::verdict(
            text::is_upper_lower_digit(body[i + 1]),
            true,
            Refusal::Value,
        )
    }

    ghost tells = { λ i l. position_tells Shape.Lot i };
}

// A type, a day and a time.
struct Moment;

impl Content for Moment {
    ghost positions = { shape_positions Shape.Flexible };

    fn size() -> usize {
        size(Shape::Flexible)
    }

    fn judge(body: &[u8], i: usize) -> Result<(), Refusal> {
        flexible::judge_flexible(&body[1..], i)
    }

    ghost tells = { λ i l. position_tells Shape.Flexible i };
}

// Eighteen digits of antigens and their check.
struct Antigens2001;

impl Content for Antigens2001 {
    ghost positions = { shape_positions Shape.Antigens2001 };

    fn size() -> usize {
        size(Shape::Antigens2001)
    }

    fn judge(body: &[u8], i: usize) -> Result<(), Refusal> {
        judge_antigens(&body[1..], i)
    }

    ghost tells = { λ i l. position_tells Shape.Antigens2001 i };
}

// The digits of an 023.
struct Head;

impl Content for Head {
    ghost positions = { shape_positions Shape.Head };

    fn size() -> usize {
        size(Shape::Head)
    }

    fn judge(body: &[u8], i: usize) -> Result<(), Refusal> {
        judge_head(&body[1..], i)
    }

    ghost tells = { λ i l. position_tells Shape.Head i };
}

// Scans a content byte by byte; body begins with the byte in front of the content.
pub fn scan<C: Content>(body: &[u8]) -> Result<(), Stop>
    requires { 0 < length body.now }
    ensures { Scanned C.positions body.now result }
{
    let end = C::size();
    for i in 0..end {
        if body.len() - 1 <= i {
            return Err(Stop::Short);
        }
        if let Err(refusal) = C::judge(body, i) {
            return Err(Stop::Refused(refusal, i));
        }
    }
    Ok(())
}

// Scans a content by the loop of its shape.
fn scan_shape(shape: Shape, body: &[u8]) -> Result<(), Stop>
    requires { 0 < length body.now }
    ensures { Scanned (shape_positions shape) body.now result }
{
    match shape {
        Shape::Donation => scan::<DonationNumber>(body),
        Shape::Groups => scan::<BloodGroups>(body),
        Shape::Product => scan::<ProductCode>(body),
        Shape::Date => scan::<Date>(body),
        Shape::Stamp => scan::<Stamp>(body),
        Shape::Testing => scan::<Testing>(body),
        Shape::Antigens => scan::<Antigens>(body),
        Shape::Lot => scan::<Lot>(body),
        Shape::Flexible => scan::<Moment>(body),
        Shape::Antigens2001 => scan::<Antigens2001>(body),
        Shape::Head => scan::<Head>(body),
    }
}

// Scans a content: a whole test first, since most contents are whole.
pub fn walk(shape: Shape, body: &[u8]) -> Result<(), Stop>
    requires { 0 < length body.now }
    ensures { Scanned (shape_positions shape) body.now result }
{
    if whole::fits(shape, body) {
        Ok(())
    } else {
        scan_shape(shape, body)
    }
}

// The same of an 023, by a test of its own: with that in the common match walk has two callers and is not inlined, which costs
// labelbench a fifth more instructions.
pub fn walk_head(body: &[u8]) -> Result<(), Stop>
    requires { 0 < length body.now }
    ensures { Scanned (shape_positions Shape.Head) body.now result }
{
    if whole::head(body) {
        Ok(())
    } else {
        scan::<Head>(body)
    }
}
