// The values of a label for the firmware: reading and writing in either edition, as C functions.
#![tactic(auto)]

ghost use Rattle.label.specs.declared.Edition.{Edition};
ghost use Rattle.message.specs.Writing.{Stores};
ghost use Rattle.c_values.specs.Values.{stands_for};
ghost use Rattle.c_values.specs.InC.{ReadsLabel};

use c_values::{CMessage, CReading};
use label::Edition;
use message::Written;

// The one caller of read in this archive's object, so that it is inlined.
fn read_in(edition: Edition, scan: &[u8]) -> CReading
    ensures { ReadsLabel edition scan.now result }
{
    c_values::reading_in_c(message_reader::read(edition, scan))
}

// Reads a scan of the current edition.
#[unsafe(no_mangle)]
pub extern "C" fn appleounce_read(scan: &[u8]) -> CReading
    ensures { ReadsLabel Edition.Current scan.now result }
{
    read_in(Edition::Current, scan)
}

// Reads a scan of the edition of 2001.
#[unsafe(no_mangle)]
pub extern "C" fn appleounce_read_2001(scan: &[u8]) -> CReading
    ensures { ReadsLabel Edition.Of2001 scan.now result }
{
    read_in(Edition::Of2001, scan)
}

fn write_in(edition: Edition, message: CMessage, buffer: &mut [u8]) -> Written
    ensures { Stores edition (stands_for message) buffer.old buffer.new result }
{
    message_writer::write(edition, c_values::message_of(message), buffer)
}

// Writes the message that a C message stands for in the current edition; a refusal leaves every byte of the buffer as it was.
#[unsafe(no_mangle)]
pub extern "C" fn appleounce_write(message: CMessage, buffer: &mut [u8]) -> Written
    ensures { Stores Edition.Current (stands_for message) buffer.old buffer.new result }
{
    write_in(Edition::Current, message, buffer)
}

// The same in the edition of 2001.
#[unsafe(no_mangle)]
pub extern "C" fn appleounce_write_2001(message: CMessage, buffer: &mut [u8]) -> Written
    ensures { Stores Edition.Of2001 (stands_for message) buffer.old buffer.new result }
{
    write_in(Edition::Of2001, message, buffer)
}
