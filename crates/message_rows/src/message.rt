// Message rows: which messages were answered, and with what first.
ghost use Rattle.std.specs.Prelude.{◌≡◌, IfSome, refl};
ghost use Rattle.message_rows.specs.Messages.{messages, message_row_of, message_row, message_key_of, MessageParts};
ghost use Rattle.ledger.proofs.Equivalences.{both, through};
ghost use Rattle.short_text.specs.ShortTexts.{same_short_text};
ghost use Rattle.envelope_rows.proofs.Alike.{short_text_alike};

use envelope::life::end_of_message;
use envelope_rows::kept::Kept;
use envelope_rows::row::EnvelopeRow;
use ledger::row::Row;
use short_text::short_text::ShortText;

// Who sent the message, and its operation number; letter case does not count in either.
#[derive(Clone, Copy, PartialEq, Eq)]
pub struct MessageKey {
    pub fr: ShortText,
    pub on: ShortText,
}

// A message's row. Whoever fills it field by field may write anything: a row that breaks a form or a bound is not filled.
// `used` is a flag of its own: an `Option` of the row would ask more of whoever fills one, who could write no part of a row that is
// not in use.
#[derive(Clone, Copy)]
pub struct MessageRow {
    pub used: bool,
    pub fr: ShortText,
    pub on: ShortText,
    pub kept: Kept,
}

impl MessageKey {
    // None where a text is longer than a row can keep.
    pub fn new(fr: &[u8], on: &[u8]) -> Option<MessageKey>
        ensures { result ≡ message_key_of fr.now on.now }
    {
        let fr = ShortText::new(fr)?;
        let on = ShortText::new(on)?;
        Some(MessageKey { fr, on })
    }
}

fn row_of(fr: &[u8], on: &[u8], kept: Kept) -> Option<MessageRow>
    ensures { result ≡ message_row fr.now on.now kept }
{
    let key = MessageKey::new(fr, on)?;
    Some(MessageRow::of(key, kept))
}

impl MessageRow {
    // A row in use; none where a text is longer than a row can keep.
    pub fn new(fr: &[u8], on: &[u8], kept: Kept) -> Option<MessageRow>
        ensures value { result ≡ message_row fr.now on.now kept }
        ensures parts { IfSome result (MessageParts fr.now on.now kept) }
    {
        row_of(fr, on, kept)
    }
}

impl Row for MessageRow {
    type Key = MessageKey;

    ghost kind = { messages };

    ghost alike = { both _ _ (through same_short_text (λ k. k.fr) short_text_alike) (through same_short_text (λ k. k.on) short_text_alike) };

    ghost empty = { refl };

    fn is_filled(&self) -> bool {
        self.used && self.fr.is_address() && self.on.is_operation_number() && self.kept.is_lawful()
    }

    fn end(&self) -> u64 {
        end_of_message(self.kept.todt, self.kept.to)
    }

    fn key(&self) -> MessageKey {
        MessageKey {
            fr: self.fr,
            on: self.on,
        }
    }

    fn has_key(&self, key: &MessageKey) -> bool {
        self.fr == key.fr && self.on == key.on
    }

    fn freed() -> MessageRow {
        MessageRow {
            used: false,
            fr: ShortText::empty(),
            on: ShortText::empty(),
            kept: Kept::empty(),
        }
    }
}

impl EnvelopeRow for MessageRow {
    ghost made = { message_row_of };

    ghost keeps = { λ r. r.kept };

    fn of(key: MessageKey, kept: Kept) -> MessageRow {
        MessageRow {
            used: true,
            fr: key.fr,
            on: key.on,
            kept,
        }
    }

    fn kept(&self) -> Kept {
        self.kept
    }
}
