// The frames of an answer, field by field, written as lines.
ghost use Rattle.std.specs.Prelude.{◌≡◌, ◌+◌, ◌≤◌, length};
ghost use Rattle.frame.specs.Hex.{byte_text, line_of};
ghost use Rattle.frame.specs.Written.{two_bytes, answer_line, move_line};
ghost use Rattle.frame.specs.Puts.{puts, LinePut};

// The numbers of a frame 20.
#[derive(Clone, Copy, Debug, PartialEq, Eq)]
pub struct Answer {
    pub line: u8,
    pub refusal: u8,
    pub separation: usize,
    pub lowest: i32,
    pub highest: i32,
    pub pair: usize,
    pub side: u8,
}

// The numbers of a frame 21: on this track the wire runs from one column to another.
#[derive(Clone, Copy, Debug, PartialEq, Eq)]
pub struct Move {
    pub line: u8,
    pub wire: usize,
    pub track: usize,
    pub from: i32,
    pub to: i32,
}

// A table is read quicker than a digit is worked out.
const DIGITS: &[u8; 16] = b"0123456789ABCDEF";

// The low two bytes of a number, the high one first.
fn two(x: usize) -> [u8; 2]
    ensures { result ≡ two_bytes x }
{
    ((x % 0x10000) as u16).to_be_bytes()
}

#[tactic(auto, using(crate::proofs::Puts::digit_at), unfolding(crate::specs::Puts::puts))]
fn put_byte(out: &mut [u8], at: usize, b: u8)
    requires { at + 2 ≤ length out.old }
    ensures { out.new ≡ puts out.old at (byte_text b) }
{
    out[at] = DIGITS[(b / 16) as usize];
    out[at + 1] = DIGITS[(b % 16) as usize];
}

// A frame's line into a buffer at place `at`, if it has room there: its bytes, the byte that makes their sum 0, a line feed; the place after it.
fn put_line(out: &mut [u8], at: usize, bytes: &[u8]) -> usize
    requires { length bytes.now ≤ 16 }
    ensures { LinePut (line_of bytes.now) out.old at result out.new }
{
    let n = bytes.len();
    if out.len().saturating_sub(at) < 2 * n + 3 {
        return at;
    }
    let mut sum: u8 = 0;
    for (i, &b) in bytes.iter().enumerate() {
        sum = sum.wrapping_add(b);
        put_byte(out, at + 2 * i, b);
    }
    let last = at + 2 * n;
    put_byte(out, last, sum.wrapping_neg());
    out[last + 2] = b'\n';
    last + 3
}

// A frame 20 into a buffer at place `at`, if it has room there; the place after it.
pub fn put_answer(out: &mut [u8], at: usize, k: Answer) -> usize
    ensures { LinePut (answer_line k) out.old at result out.new }
{
    let [s1, s0] = two(k.separation);
    let [l3, l2, l1, l0] = k.lowest.to_be_bytes();
    let [h3, h2, h1, h0] = k.highest.to_be_bytes();
    let [p1, p0] = two(k.pair);
    let bytes = [
        0x20, k.line, k.refusal, s1, s0, l3, l2, l1, l0, h3, h2, h1, h0, p1, p0, k.side,
    ];
    put_line(out, at, &bytes)
}

// A frame 21 into a buffer at place `at`, if it has room there; the place after it.
pub fn put_move(out: &mut [u8], at: usize, m: Move) -> usize
    ensures { LinePut (move_line m) out.old at result out.new }
{
    let [w1, w0] = two(m.wire);
    let [t1, t0] = two(m.track);
    let [f3, f2, f1, f0] = m.from.to_be_bytes();
    let [c3, c2, c1, c0] = m.to.to_be_bytes();
    let bytes = [0x21, m.line, w1, w0, t1, t0, f3, f2, f1, f0, c3, c2, c1, c0];
    put_line(out, at, &bytes)
}
