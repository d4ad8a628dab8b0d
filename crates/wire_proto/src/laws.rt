//! What follows from the definitions alone, for the crates above. These functions do nothing.

ghost use Rattle.std.specs.Prelude.{◌≡◌, ℕ, ◌+◌, ◌^◌, ◌<◌, ◌≤◌, List, ◌++◌, length, All, Option};
ghost use Rattle.wire_proto.specs.declared.field.WireFault.{WireFault};
ghost use Rattle.wire_proto.specs.Varint.{IsVarint, HasVarint};
ghost use Rattle.wire_proto.specs.Field.{Varint, Bytes, last_number};
ghost use Rattle.wire_proto.specs.Message.{WireField, Spells, Reads, with_first};
ghost use Rattle.wire_proto.specs.Reading.{fields_of};
ghost use Rattle.wire_proto.specs.Writing.{IsShortest, varint, number_field, bytes_field};

/// No spelling of a number begins another one, so a number that was written is read again, whatever
/// follows it.
pub fn no_varint_begins_another()
    ensures { (a b x y : List ℕ) (m n : ℕ) → IsVarint a m → IsVarint b n → a ++ x ≡ b ++ y → (a ≡ b) × (m ≡ n) }
{}

/// Any bytes have a reading as a message, and no other one.
pub fn one_reading()
    ensures reads { (bytes : List ℕ) (at : ℕ) → All (λ b. b < 256) bytes → Reads bytes at (fields_of bytes at).fields (fields_of bytes at).fault }
    ensures only { (bytes : List ℕ) (at : ℕ) (fields : List WireField) (fault : Option WireFault)
        → Reads bytes at fields fault → fields_of bytes at ≡ record { fields = fields; fault = fault } }
    ensures one { (bytes : List ℕ) (at : ℕ) (fields others : List WireField) (fault other : Option WireFault)
        → Reads bytes at fields fault → Reads bytes at others other → (fields ≡ others) × (fault ≡ other) }
{}

/// A field at the front is read first, whatever follows it.
pub fn first_field_is_read()
    ensures { (spelling rest : List ℕ) (at : ℕ) (f : WireField) → Spells spelling at f → fields_of (spelling ++ rest) at ≡ with_first f (fields_of rest f.end) }
{}

/// Numbers are written in their shortest spelling.
pub fn varint_is_shortest()
    ensures { (n : ℕ) → n < 2 ^ 64 → IsShortest (varint n) n }
{}

/// What `put_varint` appends is read as that number, and what `put_number` and `put_bytes` append as
/// that field, whatever follows it.
pub fn written_is_read()
    ensures varint { (n : ℕ) (rest : List ℕ) → n < 2 ^ 64 → HasVarint (varint n ++ rest) n rest }
    ensures number { (number n at : ℕ) (rest : List ℕ) → 1 ≤ number → number ≤ last_number → n < 2 ^ 64
        → let end = at + length (number_field number n) in
        fields_of (number_field number n ++ rest) at ≡ with_first (record { number = number; at = at; end = end; value = Varint n }) (fields_of rest end) }
    ensures bytes { (number at : ℕ) (bytes rest : List ℕ) → 1 ≤ number → number ≤ last_number → length bytes < 2 ^ 64
        → let end = at + length (bytes_field number bytes) in
        fields_of (bytes_field number bytes ++ rest) at ≡ with_first (record { number = number; at = at; end = end; value = Bytes bytes }) (fields_of rest end) }
{}
