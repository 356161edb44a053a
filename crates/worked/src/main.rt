// The worked jumpers of 01 and 02 that ask for a run, and the traps on the bench: a line for each. ../stdout is worked out by hand; the jumpers marked
// with a star are proved, in ../specs/Table.antt.
#![tactic(auto)]

use best::plan::best_of;
use fit::least::least_at;
use fit::misfit::fit;
use jumper::refusal::Numbers;
use parts::still::still_fits;
use route::checking::check_route;
use std::{array, fmt, io};

// What a line shows of a call's numbers, beside the refusal.
#[derive(Clone, Copy)]
enum Shown {
    Place(Numbers),
    // A wire and a track.
    Fault(Numbers),
    // A witness, or a least separation with the witness at one track fewer.
    Witness(Numbers),
    Pair(Numbers),
}

impl fmt::Display for Shown {
    fn fmt<W: fmt::Write>(&self, f: &mut fmt::Formatter<W>) -> fmt::Result {
        match self {
            Shown::Place(n) => write!(f, "refusal {}, place {}", n.refusal, n.place),
            Shown::Fault(n) => write!(
                f,
                "refusal {}, wire {}, track {}",
                n.refusal, n.place, n.second
            ),
            Shown::Witness(n) => write!(
                f,
                "refusal {}, separation {}, pair {}, side {}",
                n.refusal, n.separation, n.pair, n.side
            ),
            Shown::Pair(n) => write!(f, "refusal {}, pair {}", n.refusal, n.pair),
        }
    }
}

// "2,048 pairs pass, 2,049 LONG." With every top pad one column to the right, 2,048 pairs need one track more than there are pairs; no rows need more.
fn pairs(rt: &impl Print) -> io::Result<()> {
    // a row of pads side by side, from the datum on
    let row: [i32; 2049] = array::from_fn(|i| i as i32);
    let most = &row[..2048];
    let pass = Shown::Place(fit(most, most, 0, 0).into());
    println!(rt; "2,048 pairs: {pass}")?;
    let need = Shown::Witness(least_at(most, most, 1).into());
    println!(rt; "2,048 pairs, offset 1: {need}")?;
    let long = Shown::Place(fit(&row, &row, 0, 0).into());
    println!(rt; "2,049 pairs: {long}")
}

// One pair at two tracks, where every offset fits.
fn limits(rt: &impl Print) -> io::Result<()> {
    let cases = [
        // "Column 65,535 passes; 65,536 .. COLUMN"; 02, #105: "Columns become -65,535 to 65,535", so -1 passes
        ("column 65,535 below", 65535, 0, 0),
        ("column 65,535 above", 0, 65535, 0),
        ("column 65,536 below", 65536, 0, 0),
        ("column 65,536 above", 0, 65536, 0),
        ("column -1 below", -1, 0, 0),
        ("column -1 above", 0, -1, 0),
        ("column -65,535 below", -65535, 0, 0),
        ("column -65,535 above", 0, -65535, 0),
        ("column -65,536 below", -65536, 0, 0),
        ("column -65,536 above", 0, -65536, 0),
        // 02, #105: "Differences and offsets then reach -131,070 to 131,070"; the last two put the top pad on columns 196,605 and -196,605
        ("offset 131,070", 0, 0, 131070),
        ("offset 131,071", 0, 0, 131071),
        ("offset -131,070", 0, 0, -131070),
        ("offset -131,071", 0, 0, -131071),
        ("column 65,535 twice, offset 131,070", 65535, 65535, 131070),
        (
            "column -65,535 twice, offset -131,070",
            -65535,
            -65535,
            -131070,
        ),
    ];
    for (name, below, above, offset) in cases {
        let lone = Shown::Place(fit(&[below], &[above], 2, offset).into());
        println!(rt; "{name}: {lone}")?;
    }
    Ok(())
}

// "3,3 ORDER."
fn order(rt: &impl Print) -> io::Result<()> {
    let twice = [3, 3];
    let once = [3, 4];
    let below = Shown::Place(fit(&twice, &once, 2, 0).into());
    println!(rt; "columns 3, 3 below: {below}")?;
    let above = Shown::Place(fit(&once, &twice, 2, 0).into());
    println!(rt; "columns 3, 3 above: {above}")
}

// 02, #106: "TRACKS is given above 2,049."
fn separations(rt: &impl Print) -> io::Result<()> {
    let most = Shown::Place(fit(&[0], &[0], 2049, 0).into());
    println!(rt; "separation 2,049: {most}")?;
    let above = Shown::Place(fit(&[0], &[0], 2050, 0).into());
    println!(rt; "separation 2,050: {above}")
}

// How many wires, each from column p to column q, to its right, are over column x.
fn wires_over(a: &[i32], b: &[i32], x: i32) -> usize {
    a.iter().zip(b).filter(|&(&p, &q)| p <= x && x <= q).count()
}

// "Counting only wires over a vertical line: S has at most 2 there", and needs 5.
fn over_a_line(rt: &impl Print) -> io::Result<()> {
    let a = [0, 1, 2, 3];
    let b = [1, 2, 3, 4];
    let over = (0..5).map(|x| wires_over(&a, &b, x));
    let most = over.max().unwrap_or(0);
    println!(rt; "S, offset 0: wires over a line at most {most}")?;
    let need = Shown::Witness(least_at(&a, &b, 0).into());
    println!(rt; "S, offset 0: {need}")
}

// "Taking twice the even half's best as the best": of the numbers inside it can be one less and one more.
fn twice_the_half(rt: &impl Print) -> io::Result<()> {
    let cases: [(&str, &[i32], &[i32]); 3] = [
        ("0,2,4 and 1,2,3", &[0, 2, 4], &[1, 2, 3]),
        ("J", &[0, 1, 4, 5], &[1, 2, 3, 4]),
        ("0,3 and 1,2", &[0, 3], &[1, 2]),
    ];
    for (name, a, b) in cases {
        let mut ladder = [0; 24];
        let best = Numbers::from(best_of(a, b, &mut ladder)).separation;
        let [_, inside, _, half, ..] = ladder;
        println!(rt; "{name}: best {best}, inside {inside}, of its even half {half}")?;
    }
    Ok(())
}

// "Letting a wire run along track s": rows 0,1 and 1,2 at d 0 would then pass at 2, with wire 1 on track 1 and wire 0 on track 2. And they would pass at 2
// if a wire might run along track 0: wire 1 there, where nobody is in its way, and wire 0 on track 1.
fn along_the_stiffeners(rt: &impl Print) -> io::Result<()> {
    let a = [0, 1];
    let b = [1, 2];
    let top = [0, 0, 0, 1, 1, 2];
    let bottom = [0, 0, 1, 1, 2, 2];
    let at_two = Shown::Witness(fit(&a, &b, 2, 0).into());
    println!(rt; "0,1 and 1,2 at 2, offset 0: {at_two}")?;
    let along_top = Shown::Fault(check_route(&a, &b, 2, 0, &top).into());
    println!(rt; "0,1 and 1,2 drawn 0,0,0 / 1,1,2: {along_top}")?;
    let along_bottom = Shown::Fault(check_route(&a, &b, 2, 0, &bottom).into());
    println!(rt; "0,1 and 1,2 drawn 0,0,1 / 1,2,2: {along_bottom}")
}

// "Believing that one more pair costs at most one track": S needs 5 at d 0, but without its third pair (2 and 3) only 3.
fn one_pair_fewer(rt: &impl Print) -> io::Result<()> {
    let need = Shown::Witness(least_at(&[0, 1, 3], &[1, 2, 4], 0).into());
    println!(rt; "S without its third pair, offset 0: {need}")
}

// 02, #113: S's record, 5 tracks at offset 0, still serves S with its third pair bare. 3 would do, and at 2 its first pair prevents it.
fn third_pair_bare(rt: &impl Print) -> io::Result<()> {
    let a = [0, 1, 2, 3];
    let b = [1, 2, 3, 4];
    let stays = [1, 1, 0, 1];
    for separation in [5, 3, 2] {
        let still = Shown::Pair(still_fits(&a, &b, &stays, separation, 0).into());
        println!(rt; "S with its third pair bare, at {separation}: {still}")?;
    }
    Ok(())
}

fn main(rt: HostRuntime) -> io::Result<()> {
    pairs(&rt)?;
    limits(&rt)?;
    order(&rt)?;
    separations(&rt)?;
    over_a_line(&rt)?;
    twice_the_half(&rt)?;
    along_the_stiffeners(&rt)?;
    one_pair_fewer(&rt)?;
    third_pair_bare(&rt)
}
