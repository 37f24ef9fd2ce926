// The records of a set.
ghost use Rattle.std.specs.Prelude.{◌≡◌, false, length};
ghost use Rattle.records.specs.IntelHex.{record_count};
ghost use Rattle.records.specs.Record.{longest_record};
ghost use Rattle.records.specs.SetBytes.{byte_count, set_record, set_records};
ghost use Rattle.record_writing.specs.WriteRecord.{hex_write_verdict};
ghost use Rattle.record_writing.proofs.LengthLaws.{record-short, record-within};
ghost use Rattle.record_storage.specs.RecordStorage.{Recordable};
ghost use Rattle.console.specs.Writing.{pending_in, Puts, printed};
ghost use Rattle.console.specs.Reading.{KeepsInput};

use console::Console;
use design::Design;
use record_writing::write_record;
use records::LONGEST_RECORD;
use refusal::Cause;
use set_console::texts::{Texts, put_texts};

// A set in parts, as C lends it to the writer.
#[derive(Clone, Copy, Debug)]
pub struct SetRecords<'a> {
    pub design: Design,
    pub initial: &'a [u32],
    pub offsets: &'a [i32],
}

impl Texts for SetRecords<'_> {
    ghost count = { λ records. record_count (byte_count records.design) };

    ghost text = { λ records n. set_record records.design records.initial.now records.offsets.now n };

    ghost verdict = { λ records n room. hex_write_verdict records.design records.initial.now records.offsets.now n room };

    ghost longest = { λ records. longest_record };

    ghost within = { λ records n room passed. record-within _ _ _ n room passed };

    ghost short = { λ records n room passed. record-short _ _ _ n };

    fn write(&self, number: usize, buffer: &mut [u8]) -> Result<usize, Cause> {
        write_record(self.design, self.initial, self.offsets, number, buffer)
    }
}

// inner: puts the records of a set, one after another.
pub fn put_records(console: &mut Console<impl Print>, d: Design, initial: &[u32], offsets: &[i32])
    requires { Recordable (record { design = d; initial = initial.now; offsets = offsets.now }) }
    ensures text { console.new.failed ≡ false
        → Puts (length console.old.output) (pending_in console.old) (printed (set_records d initial.now offsets.now))
        (pending_in console.new) }
    ensures input { KeepsInput console.old console.new }
    ensures room { length console.new.output ≡ length console.old.output }
{
    let records = SetRecords {
        design: d,
        initial,
        offsets,
    };
    // The longest record and its newline.
    put_texts(console, &records, &mut [0u8; LONGEST_RECORD + 1]);
}
