// Reading one structure from the part of a scan that begins with it.
#![tactic(auto)]

ghost use Rattle.std.specs.Prelude.{◌≡◌, ◌<◌, length};
ghost use Rattle.structure.specs.Laws.Kinds.{shape_of};
ghost use Rattle.structure_reader.specs.Laws.Found.{FindsContent, Finds};

use demand::Stop;
use label::{Kind, Structure};
use structure::{Shape, Spot};

pub mod identify;
pub mod value;

// The shape of a kind's content; a function and no From, since docs name it.
pub fn shape_of(kind: Kind) -> Shape
    ensures { result ≡ shape_of kind }
{
    match kind {
        Kind::Donation => Shape::Donation,
        Kind::Groups => Shape::Groups,
        Kind::Product => Shape::Product,
        Kind::Expiry | Kind::Collection | Kind::Production => Shape::Date,
        Kind::ExpiryTime | Kind::CollectionTime | Kind::ProductionTime => Shape::Stamp,
        Kind::Testing => Shape::Testing,
        Kind::Antigens => Shape::Antigens,
        Kind::Lot => Shape::Lot,
        Kind::Flexible => Shape::Flexible,
        Kind::Antigens2001 => Shape::Antigens2001,
    }
}

// A structure that was read, and its length on a label.
#[derive(Clone, Copy)]
pub struct Found {
    pub structure: Structure,
    pub long: usize,
}

// A kind's content; body begins with the byte before it, on a label the identifier's second.
pub fn read_content(kind: Kind, body: &[u8]) -> Result<Found, Stop>
    requires { 0 < length body.now }
    ensures { FindsContent kind body.now result }
{
    let shape = shape_of(kind);
    if let Err(stop) = content_scan::walk(shape, body) {
        return Err(stop.behind(2));
    }
    let end = content_scan::size(shape) + 1;
    Ok(Found {
        structure: value::value(kind, &body[..end]),
        long: end + 1,
    })
}

// Reads one structure from the part of the scan that begins with it.
pub fn read_structure(spot: Spot, part: &[u8]) -> Result<Found, Stop>
    ensures { Finds spot part.now result }
{
    let kind = identify::identify(spot, part)?;
    read_content(kind, &part[1..])
}
