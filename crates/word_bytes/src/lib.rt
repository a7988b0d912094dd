// Words as little-endian bytes, and a test over bytes: what a state in a byte buffer is written and read by.
#![tactic(auto)]

ghost use Rattle.std.specs.Prelude.{◌≡◌, ◌+◌, ◌*◌, ◌≤◌, length};
ghost use Rattle.std.proofs.lemmas.List.Edits.{sets};
ghost use Rattle.words.specs.Lists.{all, list_from};
ghost use Rattle.word_bytes.specs.Little.{word_at, word_bytes, bytes_of_words, is_other, Small};

// The word at word i of the bytes. Code knows of bytes that they are below 256, which it tells here.
pub fn get_word(bytes: &[u8], i: usize) -> u32
    requires { 4 * i + 4 ≤ length bytes.now }
    ensures { (result ≡ word_at bytes.now i) × Small bytes.now }
{
    let at = 4 * i;
    u32::from_le_bytes([bytes[at], bytes[at + 1], bytes[at + 2], bytes[at + 3]])
}

// The words of the bytes from word `from` on.
pub fn get_words(bytes: &[u8], from: usize, out: &mut [u32])
    requires { 4 * (from + length out.old) ≤ length bytes.now }
    ensures { out.new ≡ list_from (word_at bytes.now) from (length out.old) }
{
    for (i, word) in out.iter_mut().enumerate() {
        *word = get_word(bytes, from + i);
    }
}

// The four bytes of a word, at word i.
fn put_word(out: &mut [u8], i: usize, x: u32)
    requires { 4 * i + 4 ≤ length out.old }
    ensures { out.new ≡ sets out.old (4 * i) (word_bytes x) }
{
    let at = 4 * i;
    let [a, b, c, d] = x.to_le_bytes();
    out[at..at + 4].copy_from_slice(&[a, b, c, d]);
}

// The bytes of all words, from word `from` on.
pub fn put_words(out: &mut [u8], from: usize, words: &[u32])
    requires { 4 * (from + length words.now) ≤ length out.old }
    ensures { out.new ≡ sets out.old (4 * from) (bytes_of_words words.now) }
{
    for (i, x) in words.iter().enumerate() {
        put_word(out, from + i, *x);
    }
}

// Whether no byte is x.
pub fn is_without(s: &[u8], x: u8) -> bool
    ensures { result ≡ all (is_other x) s.now }
{
    !s.contains(&x)
}
