// A line read as a frame.
ghost use Rattle.std.specs.Prelude.{◌≡◌, ◌+◌, ◌*◌, ◌<◌, ◌≤◌, ◌%◌, ◌↔◌, ◌≢◌, false, drop, length, take, IsTrue};
ghost use Rattle.frame.specs.Frame.{bad, one, two, four, fours, kind_of, text_frame, frame_of, said_of};
ghost use Rattle.frame.specs.Puts.{puts, Carried, ReadIn};

use crate::hex::{LONGEST, ROOM, decode};

// What a header orders: how many pairs on which line, at which separation (65,535: the least) and offset (the lowest i32: the best).
#[derive(Clone, Copy, Debug, PartialEq, Eq)]
pub struct Order {
    pub line: u8,
    pub pairs: usize,
    pub separation: u32,
    pub offset: i32,
}

// What a good line says. Of a frame of columns: its line number, and how many columns there are.
#[derive(Clone, Copy, Debug, PartialEq, Eq)]
pub enum Said {
    Header(Order),
    Bottom(u8, usize),
    Top(u8, usize),
}

// The N bytes from place i on.
fn bytes_at<const N: usize>(bytes: &[u8], i: usize) -> [u8; N]
    requires { i + N ≤ length bytes.now }
    ensures { result ≡ take N (drop i bytes.now) }
{
    *bytes[i..].first_chunk().unwrap()
}

fn two_at(bytes: &[u8], i: usize) -> u16
    requires { i + 1 < length bytes.now }
    ensures { result ≡ two bytes.now i }
{
    u16::from_be_bytes(bytes_at(bytes, i))
}

fn four_at(bytes: &[u8], i: usize) -> i32
    requires { i + 3 < length bytes.now }
    ensures { result ≡ four bytes.now i }
{
    i32::from_be_bytes(bytes_at(bytes, i))
}

// What a sound text of a header's length says, from its bytes.
#[tactic(auto, unfolding(crate::specs::Frame::kind_of, crate::specs::Frame::header_of))]
fn header(bytes: &[u8]) -> Option<Said>
    requires { length bytes.now ≡ 11 }
    ensures { result ≡ said_of (kind_of bytes.now) }
{
    if bytes[0] != 0x10 {
        return None;
    }
    Some(Said::Header(Order {
        line: bytes[1],
        pairs: usize::from(two_at(bytes, 2)),
        separation: u32::from(two_at(bytes, 4)),
        offset: four_at(bytes, 6),
    }))
}

// The columns of a sound text, and how many, if it has the length for as many as it says.
fn carry(bytes: &[u8], columns: &mut [i32; 16]) -> Option<usize>
    requires { 4 ≤ length bytes.now }
    ensures { Carried bytes.now columns.old result columns.new }
{
    let k = usize::from(bytes[2]);
    if k == 0 || 16 < k || bytes.len() != 4 * k + 4 {
        return None;
    }
    for (j, column) in columns[..k].iter_mut().enumerate() {
        *column = four_at(bytes, 4 * j + 3);
    }
    Some(k)
}

// What a sound text of another length says.
fn carrier(bytes: &[u8], columns: &mut [i32; 16]) -> Option<Said>
    requires { (4 ≤ length bytes.now) × (length bytes.now ≢ 11) }
    ensures { ReadIn (kind_of bytes.now) columns.old result columns.new }
{
    let (kind, line) = (bytes[0], bytes[1]);
    match kind {
        0x11 => Some(Said::Bottom(line, carry(bytes, columns)?)),
        0x12 => Some(Said::Top(line, carry(bytes, columns)?)),
        _ => None,
    }
}

// Whether a text of columns can be this long: 4 bytes, and 4 for each column, two digits a byte.
fn is_carrier(n: usize) -> bool
    ensures { IsTrue result ↔ ((n % 8 ≡ 0) × (16 ≤ n) × (n ≤ LONGEST)) }
{
    n % 8 == 0 && (16..=LONGEST).contains(&n)
}

// Whether a text has a length of a frame, and begins with the two digits of a kind that has it.
fn is_framed(text: &[u8]) -> bool
    ensures bad { result ≡ false → text_frame text.now ≡ bad }
    ensures whole { IsTrue result → (length text.now % 2 ≡ 0) × (8 ≤ length text.now) × (length text.now ≤ LONGEST) }
{
    if text.len() == 22 {
        return text[0] == b'1' && text[1] == b'0';
    }
    if !is_carrier(text.len()) || text[0] != b'1' {
        return false;
    }
    text[1] == b'1' || text[1] == b'2'
}

// What a line says, from its text: all before its line feed. Its columns go into the lent memory, from the first place on. The length and then the digits of
// the kind decide first: they are cheap to tell, and many damaged lines have none that fit.
pub fn read_text(text: &[u8], columns: &mut [i32; 16]) -> Option<Said>
    ensures { ReadIn (text_frame text.now) columns.old result columns.new }
{
    if !is_framed(text) {
        return None;
    }
    let mut room = [0u8; ROOM];
    let bytes = decode(text, &mut room)?;
    if bytes.len() == 11 {
        header(bytes)
    } else {
        carrier(bytes, columns)
    }
}

// What a line says, its line feed with it.
pub fn read(line: &[u8], columns: &mut [i32; 16]) -> Option<Said>
    ensures { ReadIn (frame_of line.now) columns.old result columns.new }
{
    read_text(line.strip_suffix(b"\n")?, columns)
}
