// Reading one field from the part of a record that begins with its tag.
ghost use Rattle.std.specs.Prelude.{◌≡◌, cond, ◌+◌, ◌<◌, eqb, length};
ghost use Rattle.demand.specs.Numbers.{NESTED, REPEAT, TAG};
ghost use Rattle.demand.specs.Numbered.{number_of};
ghost use Rattle.structure.specs.Structures as structures;
ghost use Rattle.structure.specs.Structures.{every_kind, numbered};
ghost use Rattle.structure.specs.Laws.Spot.{kinds_at};
ghost use Rattle.structure_reader.specs.Laws.Identify.{named_of};
ghost use Rattle.host_record.specs.Record.{HEAD};
ghost use Rattle.host_record.specs.Laws.Fields.{data_positions};
ghost use Rattle.host_record.specs.Laws.Tree.{miss_tag};
ghost use Rattle.host_import.specs.Laws.Field.{fits_spot, Sizes, FindsBehind, FindsData, FindsPast, FindsField};

use demand::{Refusal, Stop};
use label::{Edition, Kind};
use message_reader::Taken;
use structure::Spot;

// The kind whose number a tag is, of all; no TryFrom, which could stand only in the crate of Kind, and that knows no tags.
fn kind_of(tag: u8) -> Option<Kind>
    ensures { result ≡ named_of (numbered every_kind tag) }
{
    match tag {
        1 => Some(Kind::Donation),
        2 => Some(Kind::Groups),
        3 => Some(Kind::Product),
        4 => Some(Kind::Expiry),
        5 => Some(Kind::ExpiryTime),
        6 => Some(Kind::Collection),
        7 => Some(Kind::CollectionTime),
        8 => Some(Kind::Production),
        9 => Some(Kind::ProductionTime),
        10 => Some(Kind::Testing),
        12 => Some(Kind::Antigens),
        18 => Some(Kind::Lot),
        31 => Some(Kind::Flexible),
        200 => Some(Kind::Antigens2001),
        _ => None,
    }
}

// Whether a kind with this number may stand there, if there is one. By number, as a tag is a byte of the record.
fn fits_spot(spot: Spot, tag: u8) -> bool
    ensures { result ≡ fits_spot spot tag }
{
    match spot {
        Spot::First | Spot::Within => structure::of_edition(Edition::Current, tag),
        Spot::First2001 => structure::of_edition(Edition::Of2001, tag),
        Spot::Holding => structure::of_edition(Edition::Current, tag) & (tag != 1),
        Spot::AfterDonation => tag == 2,
        Spot::AfterProduct => tag == 5,
    }
}

// The kind whose number a tag is, of those that may stand there.
fn tagged(spot: Spot, tag: u8) -> Option<Kind>
    ensures { result ≡ named_of (numbered (kinds_at spot) tag) }
{
    if fits_spot(spot, tag) {
        kind_of(tag)
    } else {
        None
    }
}

// The refusal of a tag that fits nowhere within a compound.
fn untagged_within(tag: u8, repeated: bool) -> Refusal
    ensures { number_of result ≡ cond (eqb tag HEAD) NESTED (cond repeated REPEAT TAG) }
{
    if tag == host_record::HEAD {
        Refusal::Nested
    } else if repeated {
        Refusal::Repeat
    } else {
        Refusal::Tag
    }
}

// The refusal of a tag that is that of none of the kinds.
fn untagged(spot: Spot, tag: u8) -> Refusal
    ensures { number_of result ≡ miss_tag spot tag }
{
    match spot {
        Spot::First | Spot::First2001 => Refusal::Tag,
        Spot::Within => untagged_within(tag, false),
        Spot::Holding => untagged_within(tag, tag == 1),
        Spot::AfterDonation | Spot::AfterProduct => Refusal::Trailing,
    }
}

// Whether a kind is that of donation numbers.
fn is_donation(kind: Kind) -> bool
    ensures { result ≡ eqb (structures.number_of kind) 1 }
{
    matches!(kind, Kind::Donation)
}

// How many bytes of data a kind's field has: its content, and an 001's first character too.
fn data_size(kind: Kind) -> usize
    ensures { result ≡ length (data_positions kind) }
{
    let size = content_scan::size(structure_reader::shape_of(kind));
    if is_donation(kind) { size + 1 } else { size }
}

// Whether behind the tag, with which part begins, the length of so many bytes stands.
pub fn sized(part: &[u8], size: usize) -> Result<(), Stop>
    requires { 0 < length part.now }
    ensures { Sizes size part.now result }
{
    if part.len() == 1 {
        return Err(Stop::Short);
    }
    if part[1] as usize != size / 256 {
        return Err(Stop::Refused(Refusal::Length, 1));
    }
    if part.len() == 2 {
        return Err(Stop::Short);
    }
    if part[2] as usize != size % 256 {
        return Err(Stop::Refused(Refusal::Length, 2));
    }
    Ok(())
}

// Reads a content, in front of which more bytes stand than an identifier has.
fn read_behind(kind: Kind, part: &[u8], skip: usize) -> Result<Taken, Stop>
    requires { (0 < skip) × (skip + 1 < length part.now) }
    ensures { FindsBehind kind skip part.now result }
{
    let from = skip + 1;
    match structure_reader::read_content(kind, &part[from..]) {
        Ok(found) => Ok(Taken {
            structure: found.structure,
            long: found.long,
            past: found.long + skip,
        }),
        Err(stop) => Err(stop.behind(skip)),
    }
}

// Reads the data behind a right length: an 001's begins with its first character, where a label has it in the identifier.
fn read_data(kind: Kind, part: &[u8]) -> Result<Taken, Stop>
    requires { 2 < length part.now }
    ensures { FindsData kind part.now result }
{
    if is_donation(kind) {
        if part.len() == 3 {
            return Err(Stop::Short);
        }
        if !text::is_first_character(part[3]) {
            return Err(Stop::Refused(Refusal::Character, 3));
        }
        return read_behind(kind, part, 2);
    }
    read_behind(kind, part, 1)
}

// Reads what stands past the tag of a kind.
fn read_past(kind: Kind, part: &[u8]) -> Result<Taken, Stop>
    requires { 0 < length part.now }
    ensures { FindsPast kind part.now result }
{
    sized(part, data_size(kind))?;
    read_data(kind, part)
}

// Reads one field from the part of the record that begins with it.
pub fn read_field(spot: Spot, part: &[u8]) -> Result<Taken, Stop>
    ensures { FindsField spot part.now result }
{
    if part.len() == 0 {
        return Err(Stop::Short);
    }
    let tag = part[0];
    match tagged(spot, tag) {
        Some(kind) => read_past(kind, part),
        None => Err(Stop::Refused(untagged(spot, tag), 0)),
    }
}
