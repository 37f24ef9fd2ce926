// Reading sets from the input, line by line.
ghost use Rattle.std.specs.Prelude.{◌≡◌, true, ◌-◌, ◌^◌, ◌<◌, length, Ok, Err};
ghost use Rattle.refusal.specs.declared.Cause.{Cause};
ghost use Rattle.reading.specs.ReadLine.{session, after};
ghost use Rattle.storage.specs.Sets.{Storable};
ghost use Rattle.set_console.specs.Reading.{HoldsEverySet, came_on, set_came, lines_with, Led, Reached};

use crate::{Came, came_of};
use console::Console;
use design::{Design, NO_PAIR};
use reading::Reading;
use refusal::Cause;

// A reading that goes on from line to line. `lines` counts those that were accepted since the start of the input, empty ones too.
#[derive(Clone, Copy)]
pub struct SetReader {
    pub state: Reading,
    pub lines: u64,
}

impl SetReader {
    // No line is accepted yet, and the design is not read.
    pub fn new() -> SetReader
        ensures { (result.state.taken ≡ 0) × (result.lines ≡ 0) }
    {
        SetReader {
            state: Reading {
                design: Design {
                    kind: 0,
                    w: 0,
                    q: 0,
                    g: 0,
                    alpha: 0,
                    m: 0,
                    pairs: [NO_PAIR; 4],
                },
                taken: 0,
            },
            lines: 0,
        }
    }

    // Feeds a line to the reading, and counts it if it is accepted.
    fn feed_line(
        &mut self,
        initial: &mut [u32],
        offsets: &mut [i32],
        line: &[u8],
    ) -> Result<Came, Cause>
        requires { self.old.lines < 2 ^ 64 - 1 }
        ensures reading { session self.new.state initial.new offsets.new ≡ after (session self.old.state initial.old offsets.old) line.now }
        ensures came { result ≡ came_on (session self.old.state initial.old offsets.old) line.now }
        ensures counted { self.new.lines ≡ lines_with result self.old.lines }
        ensures few { self.new.lines < 2 ^ 64 }
    {
        let read = self.state.read_line(initial, offsets, line);
        read.verdict?;
        let came = came_of(read.state.is_finished());
        self.state = read.state;
        self.lines += 1;
        Ok(came)
    }

    // Takes the next line of the input, if there is one. Where the number of lines has no room for another, there is none.
    fn take_line(
        &mut self,
        console: &mut Console<impl Input + Print>,
        initial: &mut [u32],
        offsets: &mut [i32],
    ) -> Result<Came, Cause>
        ensures led { Led (session self.old.state initial.old offsets.old) (session self.new.state initial.new offsets.new)
            console.old console.new self.old.lines self.new.lines result }
        ensures counted { self.new.lines ≡ lines_with result self.old.lines }
        ensures few { self.new.lines < 2 ^ 64 }
        ensures input { length console.new.input ≡ length console.old.input }
        ensures output { console.new.output ≡ console.old.output }
    {
        if self.lines == u64::MAX {
            return Ok(Came::Nothing);
        }
        let Some(line) = console.read_line() else {
            return Ok(Came::Nothing);
        };
        self.feed_line(initial, offsets, line.text())
    }

    // inner: reads on until a line completes a set, is refused, or does not come. The answer is whether a set came. The tables hold every
    // legal set, so no line is refused for them; and a set that is read is one that can be stored.
    pub fn read_set(
        &mut self,
        console: &mut Console<impl Input + Print>,
        initial: &mut [u32],
        offsets: &mut [i32],
    ) -> Result<bool, Cause>
        requires holds_every_set { HoldsEverySet (length initial.old) (length offsets.old) }
        requires begun { Reached (session self.old.state initial.old offsets.old) }
        ensures led { Led (session self.old.state initial.old offsets.old) (session self.new.state initial.new offsets.new)
            console.old console.new self.old.lines self.new.lines (set_came result) }
        ensures later { result ≡ Ok true → self.old.lines < self.new.lines }
        ensures few { self.new.lines < 2 ^ 64 }
        ensures held { result ≡ Err Cause.TablesShort → ⊥ }
        ensures reached { Reached (session self.new.state initial.new offsets.new) }
        ensures storable { result ≡ Ok true
            → Storable (record { design = self.new.state.design; initial = initial.new; offsets = offsets.new }) }
        ensures input { length console.new.input ≡ length console.old.input }
        ensures output { console.new.output ≡ console.old.output }
    {
        'lines: loop {
            match self.take_line(console, initial, offsets)? {
                Came::Line => {}
                Came::Set => return Ok(true),
                Came::Nothing => return Ok(false),
            }
        }
    }
}
