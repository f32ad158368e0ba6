//! What is shown of a text: the word at a place, and what a file of another kind is.
//! A word ends at a blank, a bracket, and any byte that isn't printed ASCII; of a long one the front is shown.

ghost use Rattle.std.specs.Prelude.{◌≡◌, length, take, take_while};
ghost use Rattle.std.specs.Option.{option_map};
ghost use Rattle.fault_notes.specs.Places.{is_bracket, is_word_byte, front_word, word_at, begins_with, mistake_in};

/// The most bytes of a word that are shown.
const MOST_SHOWN: usize = 40;

fn is_bracket(c: u8) -> bool
    ensures { result ≡ is_bracket c }
{
    c == b'(' || c == b')'
}

fn is_word_byte(c: u8) -> bool
    ensures { result ≡ is_word_byte c }
{
    32 < c && c < 127 && !is_bracket(c)
}

// How many bytes of a word stand at the front.
fn word_length(bytes: &[u8]) -> usize
    ensures { result ≡ length (take_while is_word_byte bytes.now) }
{
    let mut count = 0;
    for b in bytes {
        if !is_word_byte(*b) {
            return count;
        }
        count += 1;
    }
    count
}

// How many bytes the word at the front has, with the bracket before it.
fn front_length(bytes: &[u8]) -> usize
    ensures { result ≡ length (front_word bytes.now) }
{
    match bytes {
        [] => 0,
        [c, rest @ ..] => {
            if is_bracket(*c) {
                1 + word_length(rest)
            } else {
                word_length(bytes)
            }
        }
    }
}

// The word at the front of the bytes, up to 40 of them.
fn front_word(bytes: &[u8]) -> &str
    ensures { result.now ≡ take 40 (front_word bytes.now) }
{
    let count = front_length(bytes).min(MOST_SHOWN);
    match str::from_utf8(&bytes[..count]) {
        Ok(word) => word,
        Err(_) => "",
    }
}

/// The word at the byte with the offset `at`, with the bracket before it; of a long one the first 40 bytes. It is
/// empty where no printed byte stands there.
pub fn word_at(text: &[u8], at: u64) -> &str
    ensures { result.now ≡ word_at text.now at }
{
    let start = at.min(text.len() as u64) as usize;
    front_word(&text[start..])
}

fn begins_with(front: &str, text: &[u8]) -> bool
    ensures { result ≡ begins_with front.now text.now }
{
    text.starts_with(front.as_bytes())
}

/// What a file of another kind is, by how it begins, and what to do; None where it begins as no such file does.
pub fn mistake_in(text: &[u8]) -> Option<&'static str>
    ensures { option_map (λ words. words.now) result ≡ mistake_in text.now }
{
    if begins_with("(kicad_pcb", text) {
        return Some(
            "this is a board of KiCad: in its board editor take File > Export > Specctra DSN, and give that file",
        );
    }
    if begins_with("(kicad_sch", text) {
        return Some(
            "this is a schematic of KiCad: open its board, and take File > Export > Specctra DSN there",
        );
    }
    if begins_with("(session", text) {
        return Some("this is a session: give the design that it belongs to");
    }
    if begins_with("{", text) {
        return Some(
            "this is a project of KiCad, or other JSON: open its board, and take File > Export > Specctra DSN there",
        );
    }
    None
}
