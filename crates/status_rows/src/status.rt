// Status rows: which statuses were passed on.
ghost use Rattle.std.specs.Prelude.{◌≡◌, IfSome, nat_eq, refl};
ghost use Rattle.status_rows.specs.Statuses.{statuses, status_row_of, status_row, status_key_of, StatusParts};
ghost use Rattle.ledger.proofs.Equivalences.{both, through};
ghost use Rattle.short_text.specs.ShortTexts.{same_short_text};
ghost use Rattle.envelope_rows.proofs.Alike.{short_text_alike, number_alike};

use envelope::life::end_of_status;
use envelope::limits::is_code;
use envelope::parts::Kind;
use envelope_rows::kept::Kept;
use envelope_rows::row::EnvelopeRow;
use ledger::row::Row;
use message_rows::message::MessageKey;
use short_text::short_text::ShortText;

// Who sent the status, to whom it goes, its operation number and its code; letter case does not count in the texts.
#[derive(Clone, Copy, PartialEq, Eq)]
pub struct StatusKey {
    pub fr: ShortText,
    pub ad: ShortText,
    pub on: ShortText,
    pub code: u16,
}

// A status's row. As with a message's, a row that breaks a form or a bound is not filled, and `used` is a flag of its own.
// It stands beside MessageRow and is no instance of one type with it: what fills a row and when it ends differ too, and
// the laws over runs read a message row's parts by their names.
#[derive(Clone, Copy)]
pub struct StatusRow {
    pub used: bool,
    pub fr: ShortText,
    pub ad: ShortText,
    pub on: ShortText,
    pub code: u16,
    pub kept: Kept,
}

impl StatusKey {
    // None where a text is longer than a row can keep.
    pub fn new(fr: &[u8], ad: &[u8], on: &[u8], code: u16) -> Option<StatusKey>
        ensures { result ≡ status_key_of fr.now ad.now on.now code }
    {
        let key = MessageKey::new(fr, on)?;
        let ad = ShortText::new(ad)?;
        Some(StatusKey {
            fr: key.fr,
            ad,
            on: key.on,
            code,
        })
    }
}

impl StatusRow {
    // A row in use; none where a text is longer than a row can keep.
    pub fn new(fr: &[u8], ad: &[u8], on: &[u8], code: u16, kept: Kept) -> Option<StatusRow>
        ensures value { result ≡ status_row fr.now ad.now on.now code kept }
        ensures parts { IfSome result (StatusParts fr.now ad.now on.now code kept) }
    {
        let key = StatusKey::new(fr, ad, on, code)?;
        Some(StatusRow::of(key, kept))
    }
}

impl Row for StatusRow {
    type Key = StatusKey;

    ghost kind = { statuses };

    ghost alike = { both _ _ (both _ _ (through same_short_text (λ k. k.fr) short_text_alike) (through same_short_text (λ k. k.ad) short_text_alike))
        (both _ _ (through same_short_text (λ k. k.on) short_text_alike) (through nat_eq (λ k. k.code) number_alike)) };

    ghost empty = { refl };

    fn is_filled(&self) -> bool {
        let addresses = self.fr.is_address() && self.ad.is_address();
        self.used
            && addresses
            && self.on.is_operation_number()
            && is_code(Kind::Status, self.code)
            && self.kept.is_lawful()
    }

    fn end(&self) -> u64 {
        end_of_status(self.kept.todt)
    }

    fn key(&self) -> StatusKey {
        StatusKey {
            fr: self.fr,
            ad: self.ad,
            on: self.on,
            code: self.code,
        }
    }

    fn has_key(&self, key: &StatusKey) -> bool {
        let addresses = self.fr == key.fr && self.ad == key.ad;
        addresses && self.on == key.on && self.code == key.code
    }

    fn freed() -> StatusRow {
        StatusRow {
            used: false,
            fr: ShortText::empty(),
            ad: ShortText::empty(),
            on: ShortText::empty(),
            code: 0,
            kept: Kept::empty(),
        }
    }
}

impl EnvelopeRow for StatusRow {
    ghost made = { status_row_of };

    ghost keeps = { λ r. r.kept };

    fn of(key: StatusKey, kept: Kept) -> StatusRow {
        StatusRow {
            used: true,
            fr: key.fr,
            ad: key.ad,
            on: key.on,
            code: key.code,
            kept,
        }
    }

    fn kept(&self) -> Kept {
        self.kept
    }
}
