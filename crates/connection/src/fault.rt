// Why a connection is not admitted.
ghost use Rattle.std.specs.Prelude.{◌≡◌};
ghost use Rattle.connection.specs.Refusals.{admission_refusal};

#[derive(Clone, Copy)]
pub enum AdmissionFault {
    // No live row of the white list has the fingerprint.
    NoLiveRow,
}

impl AdmissionFault {
    // The number that stands for the refusal.
    pub fn number(self) -> u16
        ensures { result ≡ (admission_refusal self).number }
    {
        match self {
            AdmissionFault::NoLiveRow => 410,
        }
    }
}
