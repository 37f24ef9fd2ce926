// Reading a set from the input, record by record.
ghost use Rattle.std.specs.Prelude.{◌≡◌, ◌+◌, ◌<◌, length};
ghost use Rattle.tables.specs.Inputs.{Usable};
ghost use Rattle.record_reading.specs.ReadRecord.{hex_finished, hex_session};
ghost use Rattle.record_storage.specs.Loading.{no_record};
ghost use Rattle.hex_console.specs.Loaded.{HexStepped, HexCame, is_whole};

use crate::text::{KEPT, read_text};
use console::Console;
use design::Design;
use record_reading::HexReading;
use refusal::Cause;
use set_console::{Came, came_of};

// A reading that goes on from record to record.
#[derive(Clone, Copy)]
pub struct RecordReader {
    pub design: Design,
    pub state: HexReading,
}

impl RecordReader {
    // No record of the design's set is accepted yet.
    pub fn new(design: Design) -> RecordReader
        ensures { (result.design ≡ design) × (result.state ≡ no_record) }
    {
        RecordReader {
            design,
            state: HexReading {
                taken: 0,
                first: 0,
                second: 0,
            },
        }
    }

    // Feeds a line of the input to the reading.
    fn take_text(
        &mut self,
        initial: &mut [u32],
        offsets: &mut [i32],
        text: &[u8],
    ) -> Result<Came, Cause>
        ensures design { self.new.design ≡ self.old.design }
        ensures stepped { HexStepped self.old.design (hex_session self.old.state initial.old offsets.old)
            (hex_session self.new.state initial.new offsets.new) result }
    {
        let read = self.state.read_record(self.design, initial, offsets, text);
        read.verdict?;
        self.state = read.state;
        Ok(came_of(read.state.is_finished(self.design)))
    }

    // Takes the next line of the input as a record, if there is one.
    fn take_record(
        &mut self,
        console: &mut Console<impl Input + Print>,
        initial: &mut [u32],
        offsets: &mut [i32],
    ) -> Result<Came, Cause>
        ensures design { self.new.design ≡ self.old.design }
        ensures stepped { HexStepped self.old.design (hex_session self.old.state initial.old offsets.old)
            (hex_session self.new.state initial.new offsets.new) result }
        ensures input { length console.new.input ≡ length console.old.input }
        ensures output { console.new.output ≡ console.old.output }
    {
        let mut bytes = [0u8; KEPT];
        let Some(line) = read_text(console, &mut bytes) else {
            return Ok(Came::Nothing);
        };
        self.take_text(initial, offsets, &bytes[..line.count])
    }

    // inner: reads a set, from its first record on, until a record completes it, is refused, or does not come. The answer is whether the set
    // came. The tables hold it. `SetReader` has such a loop; what it promises, of a set that can be stored, is not asked for here.
    pub fn read_set(
        &mut self,
        console: &mut Console<impl Input + Print>,
        initial: &mut [u32],
        offsets: &mut [i32],
    ) -> Result<bool, Cause>
        requires { Usable self.old.design (length initial.old) (length offsets.old) }
        ensures design { self.new.design ≡ self.old.design }
        ensures came { HexCame self.old.design initial.old offsets.old (hex_session self.new.state initial.new offsets.new) }
        ensures told { is_whole result ≡ hex_finished self.old.design self.new.state }
        ensures input { length console.new.input ≡ length console.old.input }
        ensures output { console.new.output ≡ console.old.output }
    {
        *self = RecordReader::new(self.design);
        'records: loop {
            match self.take_record(console, initial, offsets)? {
                Came::Line => {}
                Came::Set => return Ok(true),
                Came::Nothing => return Ok(false),
            }
        }
    }

    // How many lines were accepted: the design's and the records.
    pub fn lines(self) -> u64
        requires { self.state.taken < usize.MAX }
        ensures { result ≡ self.state.taken + 1 }
    {
        self.state.taken as u64 + 1
    }
}
