// Capital hexadecimal digits, and a text of them.
ghost use Rattle.std.specs.Prelude.{◌≡◌, ℕ, ◌*◌, ◌<◌, ◌≤◌, ◌%◌, false, cond, length, slice_index, MatchOption, Some, None};
ghost use Rattle.frame.specs.Hex.{is_digit, value_of, bytes_of, is_sound, WorthsRead, BytesLaid, Decoded};

// The longest frame has 16 columns: 68 bytes, two digits each.
pub(crate) const ROOM: usize = 68;

pub(crate) const LONGEST: usize = 136;

// What stands for a byte that is no digit: it is worth more than each digit.
const NONE: u8 = 16;

// The worth of a digit.
#[tactic(auto, unfolding(crate::specs::Hex::is_digit, crate::specs::Hex::value_of))]
fn digit(c: u8) -> Option<u8>
    ensures { result ≡ cond (is_digit c) (Some (value_of c)) None }
{
    match c {
        b'0'..=b'9' => Some(c - b'0'),
        b'A'..=b'F' => Some(c - b'A' + 10),
        _ => None,
    }
}

// The worths of a text's digits, and whether they all are digits. It goes through all the text, even past a byte that is no digit: a loop with one way
// out becomes one over vectors.
fn worths_of(text: &[u8], worths: &mut [u8]) -> bool
    requires { length text.now ≤ length worths.old }
    ensures { WorthsRead text.now result worths.new }
{
    let mut most = 0;
    for (i, &c) in text.iter().enumerate() {
        let worth = digit(c).unwrap_or(NONE);
        worths[i] = worth;
        most = worth.max(most);
    }
    most < NONE
}

// The bytes of pairs of digits, and their sum, carried round at 256.
fn bytes_from(worths: &[u8], bytes: &mut [u8]) -> u8
    requires { (2 * length bytes.old ≤ length worths.now) × ((i : ℕ) → i < 2 * length bytes.old → slice_index worths.now i < 16) }
    ensures { BytesLaid worths.now result bytes.new }
{
    let mut sum: u8 = 0;
    for (i, byte) in bytes.iter_mut().enumerate() {
        *byte = 16 * worths[2 * i] + worths[2 * i + 1];
        sum = sum.wrapping_add(*byte);
    }
    sum
}

// The bytes of a text of whole ones, in the lent room, if it is sound: capital digits, and a sum that is 0.
pub(crate) fn decode<'a>(text: &[u8], room: &'a mut [u8; ROOM]) -> Option<&'a [u8]>
    requires { (length text.now % 2 ≡ 0) × (length text.now ≤ LONGEST) }
    ensures { MatchOption result (is_sound text.now ≡ false) (λ bytes. Decoded text.now bytes.now) }
{
    let mut worths = [0u8; LONGEST];
    if !worths_of(text, &mut worths) {
        return None;
    }
    let bytes = &mut room[..text.len() / 2];
    if bytes_from(&worths, bytes) != 0 {
        return None;
    }
    Some(bytes)
}
