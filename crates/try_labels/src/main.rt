// Labels of paper 01 that it does not mark P, one for each exact byte of a refusal, flags in pairs and compounds, compounds
// with one donation number and with two, flexible dates, and labels of 2001: read, and shown with the refusal number, the
// place and the number of structures. What it prints is held to the file stdout.
#![tactic(auto)]

use label::Edition;
use std::io;
use std::io::Stdout;

fn show(out: Stdout, label: &[u8]) -> io::Result<()> {
    show_in(out, Edition::Current, label)
}

fn show_in(out: Stdout, edition: Edition, label: &[u8]) -> io::Result<()> {
    let reading = message_reader::read(edition, label);
    let refusal = reading.refusal;
    let place = reading.place;
    let count = reading.message.count;
    out.write_all(label)?;
    println!(out; " {refusal} {place} {count}")
}

// Those of "Labels to try".
fn listed(out: Stdout) -> io::Result<()> {
    show(out, b"=W00002112345600=")?;
    show(out, b"=%51a")?;
    show(out, b"=<E0178V10")?;
    show(out, b"=>900366")?;
    show(out, b"=>000366")?;
    show(out, b"=>021000")?;
    show(out, b"&>0213652400")?;
    show(out, b"&>0213651360")?;
    show(out, b"&(No009")?;
    show(out, b"=+01000=%5100")?;
    show(out, b"=+01000=%5100=")?;
    Ok(())
}

// A short label with a bad third byte, the third digit of a day, 2100, E and another letter, ends within and between.
fn exact(out: Stdout) -> io::Result<()> {
    show(out, b"=>x")?;
    show(out, b"=>021366")?;
    show(out, b"=>100366")?;
    show(out, b"=<E0178V0a")?;
    show(out, b"=<F0178V0a")?;
    show(out, b"=+02000=%5100")?;
    show(out, b"=+02000=%5100=")?;
    show(out, b"=W00002112345600=%5100")?;
    show(out, b"=<E0178VBb&>0203661330")?;
    show(out, b"]C0=%5100")?;
    show(out, b"")?;
    Ok(())
}

// Flags of a pair and of a compound: below 60, the number's own, one beside it, and none.
fn flags(out: Stdout) -> io::Result<()> {
    show(out, b"=W00002112345659=%5100")?;
    show(out, b"=W00002112345670=%5100")?;
    show(out, b"=W00002112345671=%5100")?;
    show(out, b"=W00002112345699=%5100")?;
    show(out, b"=+02000=W00002112345670=%5100")?;
    show(out, b"=+02000=%5100=W00002112345669")?;
    show(out, b"=+02000=%5100=W00002112345671")?;
    show(out, b"=+02000=%5100=W000021123456x")?;
    show(out, b"=+02000=%5100=W0000211234567x")?;
    Ok(())
}

// A compound with its donation number first, in the middle and last, and with another.
fn donations(out: Stdout) -> io::Result<()> {
    show(out, b"=+03000=%5100=W00002112345600=%5100")?;
    show(out, b"=+03000=%5100=W00002112345600=A99992112345600")?;
    show(out, b"=+03000=W00002112345600=%5100=W00002112345600")?;
    show(out, b"=+03000=W00002112345600=%5100=O")?;
    show(out, b"=+03000=W00002112345600=%5100=+")?;
    show(out, b"=+03000=W00002112345600=%5100=")?;
    show(out, b"=+03000=W00002112345600=%5100&W")?;
    show(out, b"=+02000=%5100=W00002112345600=W")?;
    Ok(())
}

// Flexible dates: days that one month has and another not, an end, a compound of two, and none as a pair's second.
fn flexible(out: Stdout) -> io::Result<()> {
    show(out, b"=(1003202504300000")?;
    show(out, b"=(1003202504310000")?;
    show(out, b"=(1003210002290000")?;
    show(out, b"=(1003240002290000")?;
    show(out, b"=(1003189912310000")?;
    show(out, b"=(1003289912310000")?;
    show(out, b"=(1003202500")?;
    show(out, b"=(1003202513")?;
    show(out, b"=(1003202512")?;
    show(out, b"=(10032025120100001")?;
    show(out, b"=+02000=(2005202503281245=(1002202501011130")?;
    show(out, b"=<E0178VBb=(")?;
    Ok(())
}

fn older(out: Stdout, label: &[u8]) -> io::Result<()> {
    show_in(out, Edition::Of2001, label)
}

// The antigen structure of 2001: with each kind of check, a wrong one, one outside its set, an end and a byte behind it; and none in
// the current edition.
fn antigens(out: Stdout) -> io::Result<()> {
    older(out, b"={880000000087000099C")?;
    older(out, b"={000000000000000001*")?;
    older(out, b"={0000000000000000001")?;
    older(out, b"={880000000087000099D")?;
    older(out, b"={880000000087000099*")?;
    older(out, b"={880000000087000099c")?;
    older(out, b"={88000000008700009x")?;
    older(out, b"={880000000087000099")?;
    older(out, b"={880000000087000099C=")?;
    show(out, b"={880000000087000099C")?;
    Ok(())
}

// Kinds that the edition of 2001 has, alone and in pairs, and those that it has not.
fn editions(out: Stdout) -> io::Result<()> {
    older(out, b"=W00002112345670")?;
    older(out, b"=W00002112345671")?;
    older(out, b"=W00002112345600=%5100")?;
    older(out, b"=W00002112345600={")?;
    older(out, b"=<E0178VBb&>0203661330")?;
    older(out, b"=<E0178VBb&)")?;
    older(out, b"&}0000010000")?;
    older(out, b"=+01000=%5100")?;
    older(out, b"=(2001202512312359")?;
    older(out, b"&)0123456789")?;
    older(out, b"&(N0009")?;
    older(out, b"=\\000000000000000001")?;
    Ok(())
}

fn main(rt: HostRuntime) -> io::Result<()> {
    let out = rt.stdout();
    listed(out)?;
    exact(out)?;
    flags(out)?;
    donations(out)?;
    flexible(out)?;
    antigens(out)?;
    editions(out)
}
