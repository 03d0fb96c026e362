// Records of the hospital host for C: import and export.
#![tactic(auto)]

ghost use Rattle.c_values.specs.Values.{stands_for};
ghost use Rattle.c_values.specs.InC.{ReadsIn};
ghost use Rattle.host_record.specs.Record.{Records};
ghost use Rattle.host_record.specs.Refusals.{Fatal};
ghost use Rattle.host_record.specs.Host.{Exports};

use c_values::{CMessage, CReading};
use message::Written;

// Reads a record.
#[unsafe(no_mangle)]
pub extern "C" fn appleounce_import(fields: &[u8]) -> CReading
    ensures { ReadsIn Records Fatal fields.now result }
{
    c_values::reading_in_c(host_import::import(fields))
}

// Makes the record of the message that a C message stands for; a refusal leaves every byte of the buffer as it was.
#[unsafe(no_mangle)]
pub extern "C" fn appleounce_export(message: CMessage, buffer: &mut [u8]) -> Written
    ensures { Exports (stands_for message) buffer.old buffer.new result }
{
    host_export::export(c_values::message_of(message), buffer)
}
