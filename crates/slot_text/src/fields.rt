// Named values, one behind the other.
ghost use Rattle.std.specs.Prelude.{◌≡◌, [], ◌∷◌, ◌++◌};
ghost use Rattle.text.specs.Text.{cut, ascii, type_name};
ghost use Rattle.slot_text.specs.Fields.{number_field, word_field, by_form, quote, equals, separator, quoted, field_text, fields_text};

use crate::Form;
use text::Text;

impl Form {
    // With the one or the other behind it.
    #[tactic(auto, unfolding(crate::specs::Fields::by_form))]
    pub(crate) fn by_form(self, text: Text, plain: &[u8], json: &[u8]) -> Text
        ensures { result ≡ cut (text ++ by_form self plain.now json.now) }
    {
        match self {
            Form::Plain => text.append(plain),
            Form::Json => text.append(json),
        }
    }

    // With what stands around names and words.
    #[tactic(auto, unfolding(text::specs::Text::ascii))]
    pub(crate) fn quote(self, text: Text) -> Text
        ensures { result ≡ cut (text ++ quote self) }
    {
        self.by_form(text, b"", b"\"")
    }

    // With what stands between two fields.
    #[tactic(auto, unfolding(text::specs::Text::ascii))]
    fn separate(self, text: Text) -> Text
        ensures { result ≡ cut (text ++ separator self) }
    {
        self.by_form(text, b" ", b",")
    }

    // A struct of prefix and name would be made at each of six calls, and be read here alone: no plainer.
    fn with_name(self, text: Text, prefix: &[u8], name: &[u8]) -> Text
        ensures { result ≡ cut (text ++ (quoted self (prefix.now ++ name.now) ++ equals self)) }
    {
        let named = self.quote(text).append(prefix).append(name);
        self.by_form(named, b"=", b"\":")
    }

    // With the field of a number.
    #[tactic(auto, using(text::proofs::Cutting::onto, crate::proofs::Pieces::pieces, crate::proofs::Pieces::number_piece))]
    pub(crate) fn with_number(self, text: Text, prefix: &[u8], name: &[u8], n: u64) -> Text
        ensures { result ≡ cut (text ++ field_text self (number_field (prefix.now ++ name.now) n)) }
    {
        self.with_name(text, prefix, name).decimal(n)
    }

    // With the next field, that of a number.
    #[tactic(auto, using(text::proofs::Cutting::onto, crate::proofs::Pieces::pieces, crate::proofs::Pieces::next_piece), unfolding(text::specs::Text::ascii))]
    pub(crate) fn with_next_number(self, text: Text, prefix: &[u8], name: &[u8], n: u64) -> Text
        ensures { result ≡ cut (text ++ fields_text self (number_field (prefix.now ++ name.now) n ∷ [])) }
    {
        self.with_number(self.separate(text), prefix, name, n)
    }

    // With the next field up to its word; the word follows, and the quotation mark behind it.
    #[tactic(auto, using(text::proofs::Cutting::onto, crate::proofs::Pieces::lead_piece), unfolding(text::specs::Text::ascii))]
    pub(crate) fn up_to_word(self, text: Text, prefix: &[u8], name: &[u8]) -> Text
        ensures { result ≡ cut (text ++ (separator self ++ (quoted self (prefix.now ++ name.now) ++ equals self ++ quote self))) }
    {
        self.quote(self.with_name(self.separate(text), prefix, name))
    }

    // With the next field, whose value is a word.
    #[tactic(auto, using(crate::proofs::Pieces::worded))]
    pub(crate) fn with_word(self, text: Text, name: &[u8], word: &[u8]) -> Text
        ensures { result ≡ cut (text ++ fields_text self (word_field name.now word.now ∷ [])) }
    {
        self.quote(self.up_to_word(text, b"", name).append(word))
    }

    // With the next field, a burst type's name.
    #[tactic(auto, using(crate::proofs::Pieces::worded), unfolding(text::specs::Text::ascii))]
    pub(crate) fn with_type(self, text: Text, prefix: &[u8], train_type: u8) -> Text
        ensures { result ≡ cut (text ++ fields_text self (word_field (prefix.now ++ ascii "type") (type_name train_type) ∷ [])) }
    {
        self.quote(
            self.up_to_word(text, prefix, b"type")
                .type_name(train_type as u32),
        )
    }
}
