// Rows of truth values in words of 64 bits, the first value as the least bit of the first word.

ghost use Rattle.std.specs.Prelude.{◌≡◌, ◌≢◌, ℕ, ◌+◌, ◌*◌, ◌/◌, ◌<◌, ◌≤◌, ◌^◌, ◌↔◌, Bool, true, false, ◌&&◌, ◌||◌, not, length, IsTrue};
ghost use Rattle.ep_logic.specs.Packed.{bit_in};

// The value at a place.
pub(crate) fn get_bit(words: &[u64], i: u64) -> bool
    requires { i / 64 < length words.now }
    ensures { result ≡ bit_in words.now i }
{
    (words[(i / 64) as usize] >> (i % 64)) & 1 == 1
}

// Writes the value at a place.
pub(crate) fn set_bit(words: &mut [u64], i: u64, v: bool)
    requires { i / 64 < length words.old }
    ensures long { length words.new ≡ length words.old }
    ensures here { bit_in words.new i ≡ v }
    ensures others { (k : ℕ) → k ≢ i → bit_in words.new k ≡ bit_in words.old k }
{
    let at = (i / 64) as usize;
    let mask = 1u64 << (i % 64);
    if v {
        words[at] |= mask;
    } else {
        words[at] &= !mask;
    }
}

// Keeps true what is true in both rows.
pub(crate) fn and_words(a: &mut [u64], b: &[u64])
    requires { length a.old ≡ length b.now }
    ensures long { length a.new ≡ length a.old }
    ensures each { (k : ℕ) → bit_in a.new k ≡ (bit_in a.old k && bit_in b.now k) }
{
    for i in 0..a.len() {
        a[i] &= b[i];
    }
}

/// Makes true what is true in the other row.
pub fn or_words(a: &mut [u64], b: &[u64])
    requires { length a.old ≡ length b.now }
    ensures long { length a.new ≡ length a.old }
    ensures each { (k : ℕ) → bit_in a.new k ≡ (bit_in a.old k || bit_in b.now k) }
{
    for i in 0..a.len() {
        a[i] |= b[i];
    }
}

/// Turns each value, also those of the last word past the end of the row.
pub fn flip_words(a: &mut [u64])
    ensures long { length a.new ≡ length a.old }
    ensures each { (k : ℕ) → k < length a.old * 64 → bit_in a.new k ≡ not (bit_in a.old k) }
{
    for i in 0..a.len() {
        a[i] = !a[i];
    }
}

// Makes false what stands past the first `len` values.
fn clear_past(words: &mut [u64], len: u32)
    requires { length words.old ≡ (len + 63) / 64 }
    ensures long { length words.new ≡ length words.old }
    ensures kept { (k : ℕ) → k < len → bit_in words.new k ≡ bit_in words.old k }
    ensures past { (k : ℕ) → len ≤ k → bit_in words.new k ≡ false }
{
    let used = len % 64;
    if used != 0 {
        words[(len / 64) as usize] &= (1u64 << used) - 1;
    }
}

// Turns each of the first `len` values, and makes false what stands past them.
pub(crate) fn flip_row(words: &mut [u64], len: u32)
    requires { length words.old ≡ (len + 63) / 64 }
    ensures long { length words.new ≡ length words.old }
    ensures each { (k : ℕ) → k < len → bit_in words.new k ≡ not (bit_in words.old k) }
    ensures past { (k : ℕ) → len ≤ k → bit_in words.new k ≡ false }
{
    flip_words(words);
    clear_past(words, len);
}

/// Whether some place is true in both rows.
pub fn meet(a: &[u64], b: &[u64]) -> bool
    requires { length a.now ≡ length b.now }
    ensures { IsTrue result ↔ ((k : ℕ) × IsTrue (bit_in a.now k) × IsTrue (bit_in b.now k)) }
{
    for i in 0..a.len() {
        if a[i] & b[i] != 0 {
            return true;
        }
    }
    false
}

// Whether each place that is true in the first row is true in the second.
pub(crate) fn is_within(a: &[u64], b: &[u64]) -> bool
    requires { length a.now ≡ length b.now }
    ensures { IsTrue result ↔ ((k : ℕ) → IsTrue (bit_in a.now k) → IsTrue (bit_in b.now k)) }
{
    for i in 0..a.len() {
        if a[i] & b[i] != a[i] {
            return false;
        }
    }
    true
}
