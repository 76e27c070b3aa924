//! The laws of the encoding: decoding inverts encoding, both ways, and no encoding is a prefix of another.
ghost use Rattle.std.specs.Prelude.{◌^◌};
ghost use Rattle.std.specs.Int.{w32, w64};
ghost use Rattle.byte_form.specs.Fields.{byte_at, number_at, text_at, u32_encoding, u64_encoding, text_encoding};
ghost use Rattle.byte_form.specs.Laws.{IsReadAgain, IsSpelledSo, NoneBeginsAnother, IsBelow, IsShortText, byte_encoding};

/// The laws of the fields: what is encoded is decoded again, whatever follows it; what is decoded was encoded so; no
/// encoding begins another.
pub fn law_of_fields()
    ensures bytes_again { IsReadAgain (IsBelow 256) byte_encoding byte_at }
    ensures bytes_spelled { IsSpelledSo (IsBelow 256) byte_encoding byte_at }
    ensures short_numbers_again { IsReadAgain (IsBelow (2 ^ 32)) u32_encoding (number_at w32) }
    ensures short_numbers_spelled { IsSpelledSo (IsBelow (2 ^ 32)) u32_encoding (number_at w32) }
    ensures long_numbers_again { IsReadAgain (IsBelow (2 ^ 64)) u64_encoding (number_at w64) }
    ensures long_numbers_spelled { IsSpelledSo (IsBelow (2 ^ 64)) u64_encoding (number_at w64) }
    ensures texts_again { IsReadAgain IsShortText text_encoding text_at }
    ensures texts_spelled { IsSpelledSo IsShortText text_encoding text_at }
    ensures texts_apart { NoneBeginsAnother IsShortText text_encoding }
{}
