//! The Type 1 charstring cipher: its key step, a cursor that decrypts as it reads, and a whole charstring decrypted.
#![tactic(auto)]

ghost use Rattle.std.specs.Prelude.{◌≡◌, ◌*◌, ◌%◌, ◌^◌, ◌≤◌, ◌++◌, length, drop, cond};
ghost use Rattle.charstring.specs.Cipher.{start_key, step, key_part, plain_byte, byte_of, key_after, decrypt};
ghost use Rattle.charstring.specs.Cursor.{start, read};
ghost use Rattle.charstring.specs.Charstring.{decrypted, written};

use refusal::Refusal;

// The most charstring bytes that one glyph may run.
pub const MAX_CHARSTRING_BYTES: usize = 1_048_576;

// This lenIV means that nothing is encrypted.
pub const NOT_ENCRYPTED: usize = usize::MAX;

const START_KEY: u16 = 4330;

const KEY_FACTOR: u16 = 52845;

const KEY_TERM: u16 = 22719;

// a * b, modulo 2^16: document 01 asks for a helper, over std's wrapping add.
fn wrapping_mul_u16(a: u16, b: u16) -> u16
    ensures { result ≡ (a * b) % 2 ^ 16 }
{
    let wide = (a as u32) * (b as u32);
    (wide % 0x1_0000) as u16
}

// What the cipher byte c adds to the next key.
fn key_part(c: u8) -> u16
    ensures { result ≡ key_part c }
{
    std::num::wrapping_add_u16(wrapping_mul_u16(c as u16, KEY_FACTOR), KEY_TERM)
}

// The key after the cipher byte c. The key is multiplied before the byte's part is added.
pub fn next_key(c: u8, key: u16) -> u16
    ensures { result ≡ step c key }
{
    std::num::wrapping_add_u16(wrapping_mul_u16(key, KEY_FACTOR), key_part(c))
}

// The plain byte of the cipher byte c.
pub fn plain_byte(c: u8, key: u16) -> u8
    ensures { result ≡ plain_byte c key }
{
    c ^ ((key / 256) as u8)
}

// The plain byte of a charstring's byte c, which may not be encrypted.
pub fn byte_of(c: u8, key: u16, encrypted: bool) -> u8
    ensures { result ≡ byte_of c key encrypted }
{
    if encrypted { plain_byte(c, key) } else { c }
}

// A place in a charstring, with the key there.
#[derive(Clone, Copy)]
pub struct Cursor {
    pub at: usize,
    pub key: u16,
    pub encrypted: bool,
}

// The key after cipher bytes, from the start key on.
fn key_past(bytes: &[u8]) -> u16
    ensures { result ≡ key_after start_key bytes.now }
{
    let mut key = START_KEY;
    for &c in bytes {
        key = next_key(c, key);
    }
    key
}

impl Cursor {
    // The cursor at the first byte after the lenIV bytes; at the end where there are fewer.
    pub fn new(code: &[u8], len_iv: usize) -> Cursor
        ensures { result ≡ start len_iv code.now }
    {
        if len_iv == NOT_ENCRYPTED {
            return Cursor {
                at: 0,
                key: START_KEY,
                encrypted: false,
            };
        }
        let at = len_iv.min(code.len());
        Cursor {
            at,
            key: key_past(&code[..at]),
            encrypted: true,
        }
    }

    // The next plain byte and the cursor after it; `None` at the end.
    pub fn next(self, code: &[u8]) -> Option<(u8, Cursor)>
        ensures { result ≡ read self code.now }
    {
        let c = *code.get(self.at)?;
        let b = byte_of(c, self.key, self.encrypted);
        let key = if self.encrypted {
            next_key(c, self.key)
        } else {
            self.key
        };
        Some((
            b,
            Cursor {
                at: self.at + 1,
                key,
                encrypted: self.encrypted,
            },
        ))
    }
}

// Writes the plain bytes of cipher bytes, from a key on, to the front of out.
fn copy_plain(bytes: &[u8], start: u16, out: &mut [u8])
    requires { length bytes.now ≤ length out.old }
    ensures { out.new ≡ decrypt start bytes.now ++ drop (length bytes.now) out.old }
{
    let mut key = start;
    for (i, &c) in bytes.iter().enumerate() {
        out[i] = plain_byte(c, key);
        key = next_key(c, key);
    }
}

// Bytes copied one by one: the archive has no `memmove` to call.
fn copy(from: &[u8], to: &mut [u8])
    requires { length to.old ≡ length from.now }
    ensures { to.new ≡ from.now }
{
    for (i, &b) in from.iter().enumerate() {
        to[i] = b;
    }
}

// The bytes still to come from a cursor, to the front of out.
fn copy_rest(bytes: &[u8], cursor: Cursor, out: &mut [u8])
    requires { length bytes.now ≤ length out.old }
    ensures { out.new ≡ cond cursor.encrypted (decrypt cursor.key bytes.now) bytes.now ++ drop (length bytes.now) out.old }
{
    if cursor.encrypted {
        copy_plain(bytes, cursor.key, out);
    } else {
        copy(bytes, &mut out[..bytes.len()]);
    }
}

// Writes the plain bytes of a charstring, then zeros; answers how many plain bytes there are. Where the output is
// short: zeros only.
pub fn decrypt_charstring(data: &[u8], len_iv: usize, out: &mut [u8]) -> Result<usize, Refusal>
    ensures value { result ≡ decrypted len_iv «data».now (length out.old) }
    ensures out_after { out.new ≡ written len_iv «data».now (length out.old) }
{
    let cursor = Cursor::new(data, len_iv);
    let bytes = &data[cursor.at..];
    if out.len() < bytes.len() {
        stores::zero_from(out, 0);
        return Err(Refusal::OutputShort);
    }
    copy_rest(bytes, cursor, out);
    stores::zero_from(out, bytes.len());
    Ok(bytes.len())
}
