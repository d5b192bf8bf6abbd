// What a call of the relay gives back; the bytes of a record that it gives stand at the front of the buffer.
ghost use Rattle.std.specs.Prelude.{◌≡◌};
ghost use Rattle.player.specs.Answers.{admission_of};

use arrival_checks::answer::Arrived;
use arrival_checks::fault::ArrivalFault;
use connection::admitted::Admitted;
use connection::fault::AdmissionFault;
use delivery::fault::{AnswerFault, HandOutFault, ReadFault};
use delivery::handing_out::HandOut;
use ending::act::Done;
use office::oldest::Given;
use short_text::short_text::ShortText;
use spool::fault::SpoolFault;
use sweeping::sweep::Swept;

// What is kept of a client that was admitted: plain numbers, as in the connection; the class is the number in its row.
#[derive(Clone, Copy)]
pub struct Admission {
    pub neighbour: u8,
    pub class: u8,
    pub address: ShortText,
}

#[derive(Clone, Copy)]
pub enum Told {
    // The connection that was named is not admitted, or for an admission is admitted already: nothing moved.
    NoCall,
    Admitted(Result<Admission, AdmissionFault>),
    Closed,
    Arrived(Result<Arrived, ArrivalFault>),
    HandedOut(Result<Option<HandOut>, HandOutFault>),
    Read(Result<usize, ReadFault>),
    Answered(Result<Done, AnswerFault>),
    Swept(Option<Swept>),
    Collected(Result<Option<Given>, SpoolFault>),
    Noticed(Result<Option<Given>, SpoolFault>),
}

pub(crate) fn admission_of(connection: &Admitted) -> Admission
    ensures { result ≡ admission_of connection.now }
{
    Admission {
        neighbour: connection.neighbour(),
        class: connection.class(),
        address: connection.address(),
    }
}
