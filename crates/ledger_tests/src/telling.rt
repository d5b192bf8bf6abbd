// Saying what a ledger answered.
use ledger::fault::LedgerFault;
use std::io;

pub(crate) fn tell_place(rt: &HostRuntime, what: &str, place: Option<usize>) -> io::Result<()> {
    match place {
        Some(i) => println!(rt; "{what}: row {i}"),
        None => println!(rt; "{what}: none"),
    }
}

pub(crate) fn tell_added(
    rt: &HostRuntime,
    what: &str,
    added: Result<usize, LedgerFault>,
) -> io::Result<()> {
    match added {
        Ok(i) => println!(rt; "{what}: row {i}"),
        Err(fault) => {
            let number = fault.number();
            println!(rt; "{what}: refused by {number}")
        }
    }
}

pub(crate) fn tell(rt: &HostRuntime, what: &str, so: bool) -> io::Result<()> {
    let word = if so { "yes" } else { "no" };
    println!(rt; "{what}: {word}")
}
