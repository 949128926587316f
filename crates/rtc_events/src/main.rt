//! The event program: reads records from standard input, block by block, and writes their lines to standard output.
#![tactic(auto)]

ghost use Rattle.std.specs.Prelude.{◌≡◌, ◌%◌, ◌≤◌, ◌<◌, length, take, IfOk};
ghost use Rattle.std.proofs.lemmas.List.Edits.{sets};
ghost use Rattle.events.specs.Files.{state_after, printed_from};
ghost use Rattle.rtc_events.specs.Blocks.{whole_of, part_of};

use events::{LINE_ROOM, State};
use std::io::{self, Read, Write};
use std::ops::ControlFlow;

/// How many bytes a block has.
const BLOCK: usize = 65536;

/// How far the program has come.
#[derive(Drop)]
struct Program {
    state: State,
    /// The block that is read. At its start stand the bytes of a record that is not whole yet.
    input: [u8; BLOCK],
    /// How many those are, 0 to 3. Its methods ask that of it: with an invariant on the struct, `work_block` was not proved.
    left: usize,
    /// Room for the lines of a block.
    out: [u8; BLOCK / 4 * LINE_ROOM],
}

impl Program {
    /// Before the first read.
    fn new() -> Self
        ensures { result.left ≡ 0 }
    {
        Program {
            state: State::start(),
            input: [0; BLOCK],
            left: 0,
            out: [0; BLOCK / 4 * LINE_ROOM],
        }
    }

    /// Reads once behind the bytes that are left, and answers how many there are now: no more at the end of the input.
    fn refill(&mut self, reader: &mut impl Read) -> io::Result<usize>
        requires { self.old.left < 4 }
        ensures total { IfOk result (λ total. total ≤ 65536) }
        ensures kept { take self.old.left self.new.input ≡ take self.old.left self.old.input }
        ensures left { self.new.left ≡ self.old.left }
        ensures state { self.new.state ≡ self.old.state }
    {
        let got = reader.read(&mut self.input[self.left..])?;
        Ok(self.left + got)
    }

    /// The lines of the records that are whole among the first bytes of the block, of which `refill` told how many there are; answers how many bytes they have. What is left of those
    /// bytes goes to the block's start.
    fn work_block(&mut self, total: usize) -> usize
        requires { total ≤ 65536 }
        ensures state { self.new.state ≡ state_after self.old.state (whole_of total self.old.input) }
        ensures end { result ≡ length (printed_from self.old.state (whole_of total self.old.input)) }
        ensures text { self.new.out ≡ sets self.old.out 0 (printed_from self.old.state (whole_of total self.old.input)) }
        ensures left { self.new.left ≡ total % 4 }
        ensures kept { take self.new.left self.new.input ≡ part_of total self.old.input }
        ensures fits { result ≤ 393216 }
    {
        let left = total % 4;
        let whole = total - left;
        let end = self.state.work(&self.input[..whole], &mut self.out);
        self.input.copy_within(whole..total, 0);
        self.left = left;
        end
    }

    /// One read, whose end of the input is told by no byte more, as `Read::read` tells it, and the lines of the records that are whole with it, written before the next read waits. Breaks at the end of the input and
    /// after the last record that gets a line.
    fn turn(
        &mut self,
        reader: &mut impl Read,
        writer: &mut impl Write,
    ) -> io::Result<ControlFlow<()>>
        requires { self.old.left < 4 }
        ensures { self.new.left < 4 }
    {
        let total = self.refill(reader)?;
        if total == self.left {
            return Ok(ControlFlow::Break(()));
        }
        let end = self.work_block(total);
        writer.write_all(&self.out[..end])?;
        Ok(if self.state.is_finished() {
            ControlFlow::Break(())
        } else {
            ControlFlow::Continue(())
        })
    }

    /// The line of a last part-record, where one is left.
    fn finish(&mut self, writer: &mut impl Write) -> io::Result<()> {
        if self.left == 0 {
            return Ok(());
        }
        let end = self.state.part(&mut self.out);
        writer.write_all(&self.out[..end])
    }
}

/// All of the input. A read or a write that fails is the last: what a failed read cut is not known to be the input's last record.
fn run(reader: &mut impl Read, writer: &mut impl Write) -> io::Result<()> {
    let mut program = Program::new();
    // A proved loop has to end, and nothing says that the input does: no run uses up so many turns.
    for _ in 0..u64::MAX {
        if program.turn(reader, writer)?.is_break() {
            break;
        }
    }
    program.finish(writer)
}

fn main(rt: HostRuntime) {
    // Where standard input or output fails, nothing is left to do, and the status is 0.
    let _ = run(&mut rt.stdin(), &mut rt.stdout());
}
