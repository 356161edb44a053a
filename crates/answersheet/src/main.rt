// Answers a sheet: standard input to standard output. What answers which bytes is all in `sheet`; here they are only read and written.
#![tactic(auto)]

ghost use Rattle.std.specs.Prelude.{◌≡◌, ◌≤◌, length, take, OnOk, IfSome};
ghost use Rattle.std.specs.Io.KnownBytes.{Appends};
ghost use Rattle.sheet.specs.Machine.{answers};

use jumper::limits::MAX_PAIRS;
use sheet::feed::{feed, finish};
use sheet::give::give;
use sheet::state::{State, busy, fresh};
use std::io::{Read, Write};
use std::process::ExitCode;

// Not all is answered, and nothing more is: an error was told, or no turn is left of all that a u64 counts.
#[derive(Clone, Copy, Debug)]
struct Stopped;

// A buffer of which the first n bytes are still to be sent.
#[derive(Drop)]
struct Outgoing {
    bytes: [u8; 131072],
    n: usize,
    ghost room: { n ≤ length bytes },
}

impl Outgoing {
    fn waiting(&self) -> &[u8]
        ensures { result.now ≡ take self.now.n self.now.bytes }
    {
        &self.bytes[..self.n]
    }
}

// Where a sheet is answered: the writer, and where errors are told; the line so far, both rows and the state; and what is written of the answer.
#[derive(Drop)]
struct Desk<'o, 'e, W, E> {
    output: &'o mut W,
    errors: &'e E,
    line: [u8; 160],
    a: [i32; MAX_PAIRS],
    b: [i32; MAX_PAIRS],
    state: State,
    out: Outgoing,
}

impl<W: Write, E: Eprint> Desk<'_, '_, W, E> {
    ghost use Rattle.std.specs.Prelude.{ℕ, List, [], ◌++◌};
    ghost use Rattle.answersheet.specs.Sent.{due, Writes, Sends, Sent, Drained};

    fn tell(&self, error: &str) -> Stopped {
        let _ = eprintln!(self.errors; "answersheet: {error}");
        Stopped
    }

    // What waits in the buffer, sent.
    fn send(&mut self) -> Result<(), Stopped>
        ensures sends { OnOk result (Sends W.contents self.old.output self.new.output (due self.old) (due self.new)) }
        ensures sent { OnOk result (Sent self.old self.new) }
    {
        self.output
            .write_all(self.out.waiting())
            .map_err(|_| self.tell("standard output can't be written"))?;
        self.out.n = 0;
        Ok(())
    }

    // A piece of the sheet: whenever the buffer is full it is sent.
    fn pump(&mut self, piece: &[u8]) -> Result<(), Stopped>
        ensures { OnOk result (Sends W.contents self.old.output self.new.output (λ rest. due self.old (piece.now ++ rest)) (due self.new)) }
    {
        let mut rest = piece;
        for _ in 0..u64::MAX {
            let f = feed(
                &mut self.line,
                &mut self.a,
                &mut self.b,
                self.state,
                rest,
                &mut self.out.bytes,
                self.out.n,
            );
            self.state = f.s;
            self.out.n = f.n;
            if f.used == rest.len() {
                return Ok(());
            }
            rest = &rest[f.used..];
            self.send()?;
        }
        Err(Stopped) // a rest of the piece is left
    }

    // All that is still to write, sent.
    #[tactic(auto, using(crate::proofs::Sendings::sends_on, sheet::proofs::Feeds::gave_on))]
    fn drain(&mut self) -> Result<(), Stopped>
        ensures sends { OnOk result (Sends W.contents self.old.output self.new.output (due self.old) (due self.new)) }
        ensures drained { OnOk result (Drained self.old self.new) }
    {
        for _ in 0..u64::MAX {
            let g = give(
                &self.a,
                &self.b,
                self.state,
                &mut self.out.bytes,
                self.out.n,
            );
            self.state = g.s;
            self.out.n = g.n;
            self.send()?;
            if !busy(self.state) {
                return Ok(());
            }
        }
        Err(Stopped) // something is still to write
    }

    // The sheet ends: what is still to write is sent, and then what its end calls for.
    fn end(&mut self) -> Result<(), Stopped>
        ensures { OnOk result (Writes W.contents self.old.output self.new.output (due self.old [])) }
    {
        self.drain()?;
        self.state = finish(&self.line, self.state);
        self.drain()
    }
}

// The whole sheet. After an error that was told nothing more is answered.
#[tactic(auto, using(crate::proofs::Sendings::nothing_read, crate::proofs::Sendings::reads_on))]
fn run<R: Read, W: Write, E: Eprint>(
    input: &mut R,
    output: &mut W,
    errors: &E,
) -> Result<(), Stopped>
    ensures { OnOk result (IfSome (R.remaining input.old)
        (λ sheet. Appends (W.contents output.old) (W.contents output.new) (answers sheet))) }
{
    let mut desk = Desk {
        output,
        errors,
        line: [0; 160],
        a: [0; MAX_PAIRS],
        b: [0; MAX_PAIRS],
        state: fresh(),
        out: Outgoing {
            bytes: [0; 131072],
            n: 0,
        },
    };
    let mut piece = [0u8; 65536];
    for _ in 0..u64::MAX {
        match input.read(&mut piece) {
            Ok(0) => return desk.end(),
            Ok(k) => desk.pump(&piece[..k])?,
            // What is answered already is sent before that is told.
            Err(_) => {
                let _ = desk.send();
                return Err(desk.tell("standard input can't be read"));
            }
        }
    }
    Err(Stopped)
}

fn main(rt: HostRuntime) -> ExitCode {
    match run(&mut rt.stdin(), &mut rt.stdout(), &rt) {
        Ok(()) => ExitCode::SUCCESS,
        Err(Stopped) => ExitCode::FAILURE,
    }
}
