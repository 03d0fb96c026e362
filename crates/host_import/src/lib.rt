// Importing a record of the hospital host: a message with number 0 and the record's length, or a refusal's number and place.
#![tactic(auto)]

ghost use Rattle.std.specs.Prelude.{◌∷◌};
ghost use Rattle.host_record.specs.Record.{HEAD};
ghost use Rattle.host_record.specs.Host.{Imports};
ghost use Rattle.host_import.specs.Laws.Import.{host, host_dues, Opens, Headed, CountBody};

use demand::Stop;
use message::Reading;
use message_reader::{Beginning, Language, Taken};
use structure::Spot;

pub mod field;

// Records, whose fields hold the structures.
struct Records;

impl Language for Records {
    ghost trees = { host };

    ghost dues = { host_dues };

    fn take(spot: Spot, part: &[u8]) -> Result<Taken, Stop> {
        field::read_field(spot, part)
    }
}

// How a record opens whose head has its length; body begins with the length's low byte.
fn open_count(body: &[u8]) -> Result<Beginning, Stop>
    requires { CountBody body.now }
    ensures { Opens (HEAD ∷ 0 ∷ body.now) result }
{
    if let Err(stop) = content_scan::walk_head(body) {
        return Err(stop.behind(3));
    }
    Ok(Beginning {
        at: 8,
        place: 7,
        structures: text::read_digits(body, 1, 2) as usize,
        bbb: text::read_digits(body, 3, 3) as u16,
        spot: Spot::Within,
    })
}

// How a record opens that begins with tag 23.
fn open_head(fields: &[u8]) -> Result<Beginning, Stop>
    requires { Headed fields.now }
    ensures { Opens fields.now result }
{
    field::sized(fields, host_record::HEAD_DATA)?;
    open_count(&fields[2..])
}

// How a record opens.
fn open(fields: &[u8]) -> Result<Beginning, Stop>
    ensures { Opens fields.now result }
{
    if fields.len() == 0 {
        return Ok(message_reader::plain(Spot::First));
    }
    if fields[0] == host_record::HEAD {
        open_head(fields)
    } else {
        Ok(message_reader::plain(Spot::First))
    }
}

// Imports a record: any bytes at all.
pub fn import(fields: &[u8]) -> Reading
    ensures { Imports fields.now result }
{
    match open(fields) {
        Ok(first) => message_reader::read_from::<Records>(fields, first),
        Err(stop) => message_reader::stopped(stop, fields.len()),
    }
}
