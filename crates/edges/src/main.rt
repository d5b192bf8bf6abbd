// Plays the edges of the forms and of the record: the last that is lawful, and the first that is not.

#![tactic(auto)]

use envelope_fields::fields::Fields;
use envelope_reading::reading::read;
use figures::berth_request;
use std::io;
use text::address::Address;
use text::forms::{is_address, is_contacts, is_dataflow, is_operation_number};
use writing::writing::write;

fn say(rt: &HostRuntime, what: &str, bytes: usize, lawful: bool) -> io::Result<()> {
    let word = if lawful { "lawful" } else { "refused" };
    println!(rt; "{what} of {bytes} bytes: {word}")
}

fn play_addresses(rt: &HostRuntime) -> io::Result<()> {
    let text = [b'A'; 65];
    for n in [0, 1, 63, 64, 65] {
        say(rt, "address", n, is_address(&text[0..n]))?;
    }
    let mut place = Address::shortest();
    say(
        rt,
        "filling with an address",
        64,
        place.fill(&text[0..64]).is_ok(),
    )?;
    say(
        rt,
        "filling with an address",
        65,
        place.fill(&text[0..65]).is_ok(),
    )?;
    let kept = place.text().len();
    println!(rt; "the address kept has {kept} bytes")
}

fn play_dataflows(rt: &HostRuntime) -> io::Result<()> {
    let mut text = [b'x'; 257];
    text[0..4].copy_from_slice(b"URN:");
    for n in [4, 5, 256, 257] {
        say(rt, "dataflow", n, is_dataflow(&text[0..n]))?;
    }
    Ok(())
}

fn play_numbers_and_contacts(rt: &HostRuntime) -> io::Result<()> {
    let text = [b'7'; 129];
    for n in [19, 20, 21] {
        say(rt, "operation number", n, is_operation_number(&text[0..n]))?;
    }
    for n in [0, 128, 129] {
        say(rt, "contacts", n, is_contacts(&text[0..n]))?;
    }
    Ok(())
}

fn play_record(rt: &HostRuntime, fields: Fields<'_>, room: &mut [u8]) -> io::Result<()> {
    match write(fields, room) {
        Ok(n) => println!(rt; "record written: {n} bytes"),
        Err(fault) => {
            let number = fault.number();
            println!(rt; "record refused: {number}")
        }
    }
}

// The example's fields, with a body.
fn request_with(body: &[u8]) -> Fields<'_> {
    Fields {
        rest: body,
        ..berth_request()
    }
}

// A body of as many bytes as fit behind the example's 65, and one more.
fn play_records(rt: &HostRuntime) -> io::Result<()> {
    let body = [0; 1984];
    let mut room = [0; 2049];
    play_record(rt, request_with(&body[0..1983]), &mut room)?;
    play_record(rt, request_with(&body[0..1984]), &mut room)?;
    let mut exact = [0; 65];
    play_record(rt, berth_request(), &mut exact)?;
    let mut short = [0; 64];
    play_record(rt, berth_request(), &mut short)?;
    play_expiry(rt, &exact)
}

fn play_expiry(rt: &HostRuntime, bytes: &[u8]) -> io::Result<()> {
    match read(bytes) {
        Ok(request) => {
            let end = request.end();
            let before = request.is_live(999_939);
            let at = request.is_live(999_940);
            println!(rt; "the request expires at {end}: live at 999939 {before}, at 999940 {at}")
        }
        Err(fault) => {
            let number = fault.number();
            println!(rt; "record refused: {number}")
        }
    }
}

fn main(rt: HostRuntime) -> io::Result<()> {
    play_addresses(&rt)?;
    play_dataflows(&rt)?;
    play_numbers_and_contacts(&rt)?;
    play_records(&rt)
}
