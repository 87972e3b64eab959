//! Loading a packet into an arena that an earlier load and its run left.

ghost use Rattle.std.specs.Prelude.{◌≡◌, ℕ, ◌+◌, ◌-◌, ◌*◌, ◌/◌, ◌<◌, ◌≤◌, length, slice_index};
ghost use Rattle.reference_machine.specs.Arena.{IsZeroFrom, placed_words, quadword};
ghost use Rattle.reference_machine.specs.declared.layout.TheConstants.{QUADWORDS};

/// Returns a byte, or 0 past the end.
fn byte_at(bytes: &[u8], i: usize) -> u8
    ensures { result ≡ slice_index bytes.now i }
{
    if i < bytes.len() { bytes[i] } else { 0 }
}

/// Returns the k-th quadword of the bytes, little-endian, padded with zeros.
fn padded_quadword(bytes: &[u8], k: usize) -> u64
    requires { k < QUADWORDS }
    ensures { result ≡ quadword bytes.now k }
{
    let at = 8 * k;
    u64::from_le_bytes([
        byte_at(bytes, at),
        byte_at(bytes, at + 1),
        byte_at(bytes, at + 2),
        byte_at(bytes, at + 3),
        byte_at(bytes, at + 4),
        byte_at(bytes, at + 5),
        byte_at(bytes, at + 6),
        byte_at(bytes, at + 7),
    ])
}

/// Returns the k-th quadword of the bytes, little-endian, which has to be whole.
fn whole_quadword(bytes: &[u8], k: usize) -> u64
    requires { 8 * k + 8 ≤ length bytes.now }
    ensures { result ≡ quadword bytes.now k }
{
    let at = 8 * k;
    u64::from_le_bytes([
        bytes[at],
        bytes[at + 1],
        bytes[at + 2],
        bytes[at + 3],
        bytes[at + 4],
        bytes[at + 5],
        bytes[at + 6],
        bytes[at + 7],
    ])
}

/// Writes zeros into the words from number `from` to before number `to`.
fn clear(words: &mut [u64], from: usize, to: usize)
    requires { to ≤ length words.old }
    ensures cleared { (p : ℕ) → from ≤ p → p < to → slice_index words.new p ≡ 0 }
    ensures before { (p : ℕ) → p < from → slice_index words.new p ≡ slice_index words.old p }
    ensures after { (p : ℕ) → to ≤ p → slice_index words.new p ≡ slice_index words.old p }
{
    for k in from..to {
        words[k] = 0;
    }
}

/// Writes the whole quadwords of the bytes, little-endian, into the words from number `place` on.
fn put_whole(words: &mut [u64], place: usize, bytes: &[u8])
    requires { place + length bytes.now / 8 ≤ length words.old }
    ensures put { (p : ℕ) → place ≤ p → p < place + length bytes.now / 8
        → slice_index words.new p ≡ quadword bytes.now (p - place) }
    ensures before { (p : ℕ) → p < place → slice_index words.new p ≡ slice_index words.old p }
    ensures after { (p : ℕ) → place + length bytes.now / 8 ≤ p
        → slice_index words.new p ≡ slice_index words.old p }
{
    let count = bytes.len() / 8;
    for k in 0..count {
        words[place + k] = whole_quadword(bytes, k);
    }
}

/// Writes the bytes, little-endian, into the quadwords of an arena from number `place` on, and zeros
/// into all others. The last quadword of the bytes is padded with zeros.
///
/// The words from number `end` on have to be 0 before. Clears only the words before `end` that no
/// whole quadword of the bytes replaces. So the cost is that of the bytes, and of what the last load
/// and its run left beyond them.
pub fn reload(words: &mut [u64], end: usize, place: usize, bytes: &[u8])
    requires words { length words.old ≡ QUADWORDS }
    requires end { end ≤ QUADWORDS }
    requires past { IsZeroFrom end words.old }
    requires room { place + (length bytes.now + 7) / 8 ≤ QUADWORDS }
    ensures { words.new ≡ placed_words place bytes.now }
{
    let whole = bytes.len() / 8;
    clear(words, 0, place);
    clear(words, place + whole, end);
    put_whole(words, place, bytes);
    if whole * 8 < bytes.len() {
        words[place + whole] = padded_quadword(bytes, whole);
    }
}
