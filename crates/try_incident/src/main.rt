// The incident, with the values of its records: two bags, and one block of memory for their scans. What it prints is held
// to the file stdout: each record's refusal number and place, and its values written out again as a label.
//
// The parser that this one replaces kept pointers into the block, so that the first bag's record told about the second
// bag. Here the first record stays as it was when the block is reused, and when it is given away.
#![tactic(auto)]

ghost use Rattle.std.specs.Prelude.{◌≤◌, length};

use label::{Edition, Message};
use message::Reading;
use std::io;
use std::io::Stdout;

// Lays a scan into the block, from its first byte, and reads it there.
fn scan_into(block: &mut [u8], scan: &[u8]) -> Reading
    requires { length scan.now ≤ length block.old }
{
    let length = scan.len();
    block[0..length].copy_from_slice(scan);
    message_reader::read(Edition::Current, &block[0..length])
}

// A blank and the label that a message is written as; nothing for the empty message.
fn show_label(out: Stdout, message: Message, label: &mut [u8]) -> io::Result<()> {
    let written = message_writer::write(Edition::Current, message, label);
    let end = written.place;
    if written.refusal == 0 {
        if end <= label.len() {
            out.write_all(b" ")?;
            out.write_all(&label[0..end])?;
        }
    }
    Ok(())
}

// Which bag, then its record: number, place and label.
fn show(out: Stdout, bag: &str, record: Reading) -> io::Result<()> {
    let refusal = record.refusal;
    let place = record.place;
    print!(out; "{bag} {refusal} {place}")?;
    let mut label = [b' '; 330];
    let message = record.message;
    show_label(out, message, &mut label)?;
    println!(out)
}

// Platelets, as the story has it, then red cells into the same block; then the block is someone else's.
fn two_bags(out: Stdout, block: &mut [u8]) -> io::Result<()>
    requires { 64 ≤ length block.old }
{
    let platelets = scan_into(block, b"=<E3087V00&>0261232359");
    show(out, "platelets:", platelets)?;
    let red_cells = scan_into(block, b"=<E0336V00&>0261502359");
    show(out, "red cells:", red_cells)?;
    show(out, "platelets, with the block reused:", platelets)?;
    block[0..32].copy_from_slice(b"????????????????????????????????");
    show(out, "platelets, with the block given away:", platelets)?;
    show(out, "red cells, with the block given away:", red_cells)?;
    Ok(())
}

// A compound that says two and has one; in the block its missing structure still lies, past the end of the scan.
fn without_its_last(out: Stdout, block: &mut [u8]) -> io::Result<()>
    requires { 64 ≤ length block.old }
{
    let whole = scan_into(block, b"=+02000=W00002112345600=%5100");
    show(out, "compound:", whole)?;
    let cut = scan_into(block, b"=+02000=W00002112345600");
    show(out, "without its last structure:", cut)?;
    Ok(())
}

fn main(rt: HostRuntime) -> io::Result<()> {
    let out = rt.stdout();
    let mut block = [0; 64];
    two_bags(out, &mut block)?;
    without_its_last(out, &mut block)
}
