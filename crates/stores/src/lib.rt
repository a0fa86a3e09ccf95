//! Lent stores made zero, how much of an output stands before its zeros, and that part of it.
#![tactic(auto)]

ghost use Rattle.std.specs.Prelude.{◌≡◌, take};
ghost use Rattle.stores.specs.Zeros.{zeros, zeros_from, kept};

// Every word becomes 0.
pub fn wipe_words(words: &mut [u64])
    ensures { words.new ≡ zeros words.old }
{
    words.fill(0);
}

// Every byte from a place on becomes 0; none where the place is beyond the end.
pub fn zero_from(bytes: &mut [u8], from: usize)
    ensures { bytes.new ≡ zeros_from from bytes.old }
{
    if from < bytes.len() {
        bytes[from..].fill(0);
    }
}

// How many bytes of an output stand before its zeros: those written, and none on a refusal.
pub fn kept_bytes(number: u64, written: usize) -> usize
    ensures { result ≡ kept number written }
{
    if number == 0 { written } else { 0 }
}

// The front part of an output: its first `len` bytes, all of them where `len` is beyond it.
pub fn front(out: &mut [u8], len: usize) -> &mut [u8]
    ensures result_value { result.now ≡ take len out.old }
    ensures ref_ptr_value { result.ref_ptr ≡ out.entry.ref_ptr }
{
    if len < out.len() {
        &mut out[..len]
    } else {
        out
    }
}
