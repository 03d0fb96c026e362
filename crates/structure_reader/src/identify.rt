// Which kind the two bytes of an identifier name, where some kinds may stand.
ghost use Rattle.std.specs.Prelude.{◌≡◌, cond, false, ◌<◌, length};
ghost use Rattle.std.proofs.Math.Option.{some, none};
ghost use Rattle.demand.specs.Numbers.{IDENTIFIER, NESTED, REPEAT};
ghost use Rattle.demand.specs.Numbered.{number_of};
ghost use Rattle.structure.specs.Structures as structures;
ghost use Rattle.structure.specs.Structures.{every_kind};
ghost use Rattle.structure.specs.Laws.Due.{names, find, leads};
ghost use Rattle.structure.specs.Laws.Spot.{is_head, kinds_at, refusal_at, miss_of};
ghost use Rattle.structure_reader.specs.Laws.Identify.{is_second, is_current, is_holding, stands, named_of, Identifies};

use demand::{Refusal, Stop};
use label::Kind;
use structure::Spot;

// Whether any of the kinds that may stand there begins with =.
fn equals_begins(spot: Spot) -> bool
    ensures { result ≡ leads (kinds_at spot) 61 }
{
    !matches!(spot, Spot::AfterProduct)
}

// The same of &.
fn ampersand_begins(spot: Spot) -> bool
    ensures { result ≡ leads (kinds_at spot) 38 }
{
    !matches!(spot, Spot::AfterDonation)
}

// Whether the byte begins any of the kinds that may stand there.
fn begins(spot: Spot, a: u8) -> bool
    ensures { result ≡ leads (kinds_at spot) a }
{
    ((a == b'=') & equals_begins(spot)) | ((a == b'&') & ampersand_begins(spot))
}

// The kind that a byte after = names: a donation number by a digit but 0 or a letter but O.
fn named_after_equals(b: u8) -> Option<Kind>
    ensures { result ≡ named_of (find every_kind 61 b) }
{
    match b {
        b'%' => Some(Kind::Groups),
        b'<' => Some(Kind::Product),
        b'>' => Some(Kind::Expiry),
        b'*' => Some(Kind::Collection),
        b'}' => Some(Kind::Production),
        b'\\' => Some(Kind::Antigens),
        b'(' => Some(Kind::Flexible),
        b'{' => Some(Kind::Antigens2001),
        _ => named_if(text::is_first_character(b), Kind::Donation),
    }
}

// The same of a byte after &.
fn named_after_ampersand(b: u8) -> Option<Kind>
    ensures { result ≡ named_of (find every_kind 38 b) }
{
    match b {
        b'>' => Some(Kind::ExpiryTime),
        b'*' => Some(Kind::CollectionTime),
        b'}' => Some(Kind::ProductionTime),
        b'(' => Some(Kind::Testing),
        b')' => Some(Kind::Lot),
        _ => None,
    }
}

// The kind that two bytes name, of all.
pub fn named_by(a: u8, b: u8) -> Option<Kind>
    ensures { result ≡ named_of (find every_kind a b) }
{
    match a {
        b'=' => named_after_equals(b),
        b'&' => named_after_ampersand(b),
        _ => None,
    }
}

// Whether two bytes name a donation number.
fn names_donation(a: u8, b: u8) -> bool
    ensures { result ≡ names Kind.Donation a b }
{
    (a == b'=') & text::is_first_character(b)
}

// A kind, where what names it is there.
fn named_if(is: bool, kind: Kind) -> Option<Kind>
    ensures { result ≡ named_of (cond is (some kind) none) }
{
    if is { Some(kind) } else { None }
}

// Whether a structure of the current edition is due there.
fn is_current(spot: Spot) -> bool
    ensures { result ≡ is_current spot }
{
    !matches!(spot, Spot::First2001)
}

// Whether a compound holds its donation number there.
fn is_holding(spot: Spot) -> bool
    ensures { result ≡ is_holding spot }
{
    matches!(spot, Spot::Holding)
}

// Whether a kind may stand there, which is not the second of a pair: of the known kind most ask nothing of the spot.
fn may_stand(spot: Spot, kind: Kind) -> bool
    requires { is_second spot ≡ false }
    ensures { result ≡ stands spot (structures.number_of kind) }
{
    match kind {
        Kind::Donation => !is_holding(spot),
        Kind::Testing | Kind::Antigens | Kind::Lot | Kind::Flexible => is_current(spot),
        Kind::Antigens2001 => !is_current(spot),
        _ => true,
    }
}

// The kind that two bytes name, where it may stand there, which is not the second of a pair.
fn named_within(spot: Spot, a: u8, b: u8) -> Option<Kind>
    requires { is_second spot ≡ false }
    ensures { result ≡ named_of (find (kinds_at spot) a b) }
{
    let kind = named_by(a, b)?;
    if may_stand(spot, kind) {
        Some(kind)
    } else {
        None
    }
}

// The kind that two bytes name, of those that may stand there.
fn named_at(spot: Spot, a: u8, b: u8) -> Option<Kind>
    ensures { result ≡ named_of (find (kinds_at spot) a b) }
{
    match spot {
        Spot::AfterDonation => named_if((a == b'=') & (b == b'%'), Kind::Groups),
        Spot::AfterProduct => named_if((a == b'&') & (b == b'>'), Kind::ExpiryTime),
        _ => named_within(spot, a, b),
    }
}

// The refusal of a byte that begins none of the kinds.
fn unbegun(spot: Spot) -> Refusal
    ensures { number_of result ≡ refusal_at spot }
{
    match spot {
        Spot::AfterDonation | Spot::AfterProduct => Refusal::Trailing,
        _ => Refusal::Identifier,
    }
}

// The refusal of two bytes that name no structure within a compound: = and + are an 023, and a second 001 is a repeat.
fn unnamed_within(a: u8, b: u8, repeated: bool) -> Refusal
    ensures { number_of result ≡ cond (is_head a b) NESTED (cond repeated REPEAT IDENTIFIER) }
{
    if (a == b'=') & (b == b'+') {
        Refusal::Nested
    } else if repeated {
        Refusal::Repeat
    } else {
        Refusal::Identifier
    }
}

// The refusal of two bytes that name none of the kinds.
fn unnamed(spot: Spot, a: u8, b: u8) -> Refusal
    ensures { number_of result ≡ miss_of spot a b }
{
    match spot {
        Spot::First | Spot::First2001 => Refusal::Identifier,
        Spot::Within => unnamed_within(a, b, false),
        Spot::Holding => unnamed_within(a, b, names_donation(a, b)),
        Spot::AfterDonation | Spot::AfterProduct => Refusal::Trailing,
    }
}

// What fewer than two bytes come to: they may begin a kind, and name none.
fn begun(spot: Spot, part: &[u8]) -> Result<Kind, Stop>
    requires { length part.now < 2 }
    ensures { Identifies spot part.now result }
{
    if part.len() == 0 {
        return Err(Stop::Short);
    }
    if begins(spot, part[0]) {
        Err(Stop::Short)
    } else {
        Err(Stop::Refused(unbegun(spot), 0))
    }
}

// Whether the first byte begins a kind is asked where both name none: most labels are good.
pub fn identify(spot: Spot, part: &[u8]) -> Result<Kind, Stop>
    ensures { Identifies spot part.now result }
{
    if part.len() < 2 {
        return begun(spot, part);
    }
    let a = part[0];
    let b = part[1];
    if let Some(kind) = named_at(spot, a, b) {
        return Ok(kind);
    }
    if begins(spot, a) {
        Err(Stop::Refused(unnamed(spot, a, b), 1))
    } else {
        Err(Stop::Refused(unbegun(spot), 0))
    }
}
