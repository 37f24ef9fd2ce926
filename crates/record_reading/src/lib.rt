// The reader of Intel HEX: one record a call, into lent tables, for a design that the caller gives.
#![tactic(auto)]

ghost use Rattle.std.specs.Prelude.{◌≡◌, [], ◌∷◌, ◌++◌, ◌-◌, ◌*◌, ◌^◌, ◌≤◌, ◌<◌, length, take, drop};
ghost use Rattle.encoding.specs.Bytes.{entry_bytes};
ghost use Rattle.frames.specs.Line.{capacity};
ghost use Rattle.records.specs.SetBytes.{most_bytes};
ghost use Rattle.records.specs.Inputs.{CountInput, EntryIn};
ghost use Rattle.record_reading.specs.ReadRecord.{
  held_count,
  unused_fail,
  hex_possible,
  hex_finished,
  hex_session,
  holding,
  hex_answer,
  hex_after,
  hex_verdict_on,
};
ghost use Rattle.refusal.specs.Numbers.{verdict_number};
ghost use Rattle.refusal.specs.Checks.{answer};
ghost use Rattle.record_reading.specs.Storing.{initial_home, offset_home, stored_at, stored_from};
ghost use Rattle.record_reading.specs.Inputs.{StoreInput, TakenInput, due_verdict, after_record};

use design::Design;
use encoding::numbers::{ENTRY_BYTES, from_complement, number_in};
use frames::{CAPACITY, Decoded};
use reading::head_fails;
use records::{
    Extent, HEAD_BYTES, MOST_BYTES, bytes_before, decode_record, extent_of, head_of, record_count,
};
use refusal::Cause;
use tables::checked_set;

// Document 02's reading state: how many records are taken, and the start of an entry that the last of them cut. Unused bytes are 0. They
// are two fields and no array, of which each theorem over all states would have to say how long it is.
#[derive(Clone, Copy)]
pub struct HexReading {
    pub taken: usize,
    pub first: u8,
    pub second: u8,
}

// What `read_record` answers, and the state to go on with: beside the verdict and not inside of it, since a refusal gives back the
// state, too.
#[derive(Clone, Copy)]
pub struct HexRead {
    pub verdict: Result<(), Cause>,
    pub state: HexReading,
}

// Whether a byte that is not used is not 0, where the first k are used.
#[tactic(auto, unfolding(crate::specs::ReadRecord::unused_fail))]
fn unused_fail(k: usize, state: HexReading) -> bool
    ensures { result ≡ unused_fail k state }
{
    (k == 0 && state.first != 0) || (k < 2 && state.second != 0)
}

// How many bytes are held after n records.
#[tactic(auto, unfolding(crate::specs::ReadRecord::held_count))]
fn held_count(total: usize, n: usize) -> usize
    requires { CountInput total n }
    ensures { result ≡ held_count total n }
{
    bytes_before(total, n) % ENTRY_BYTES
}

// Whether a reading of so many bytes can have come to this state.
fn is_possible(total: usize, state: HexReading) -> bool
    requires { total ≤ most_bytes }
    ensures { result ≡ hex_possible total state }
{
    state.taken <= record_count(total) && !unused_fail(held_count(total, state.taken), state)
}

// Puts the k bytes that are held right before a record's data, in the place of the end of its head. What stands before them is not read, so two
// are stored, whatever k is.
fn with_held(state: HexReading, k: usize, window: &mut [u8; CAPACITY])
    requires window_len { length window.old ≡ capacity }
    requires k_lt_entry_bytes { k < entry_bytes }
    ensures { drop (4 - k) window.new ≡ take k (state.first ∷ state.second ∷ []) ++ drop 4 window.old }
{
    window[HEAD_BYTES - 2] = state.first;
    window[HEAD_BYTES - 1] = if k == 1 { state.first } else { state.second };
}

// Stores entry e, which is an initial entry if it is one of the first `initials`. By its number: a record names no `Slot`.
fn store_entry(initials: usize, e: usize, number: u32, initial: &mut [u32], offsets: &mut [i32])
    requires entry_in { EntryIn initials (length initial.old) (length offsets.old) e }
    requires number_bound { number < 2 ^ (8 * entry_bytes) }
    ensures initial_after { initial.new ≡ stored_at (initial_home initials) e number initial.old }
    ensures offsets_after { offsets.new ≡ stored_at (offset_home initials) e number offsets.old }
{
    if e < initials {
        initial[e] = number;
    } else {
        offsets[e - initials] = from_complement(number);
    }
}

// Stores the entries from e on that bytes make whole.
fn store_entries(extent: Extent, e: usize, stream: &[u8], initial: &mut [u32], offsets: &mut [i32])
    requires { StoreInput extent (length initial.old) (length offsets.old) e (length stream.now) }
    ensures initial_after { initial.new ≡ stored_from (initial_home extent.initials) e stream.now initial.old }
    ensures offsets_after { offsets.new ≡ stored_from (offset_home extent.initials) e stream.now offsets.old }
{
    for (i, bytes) in stream.chunks_exact(ENTRY_BYTES).enumerate() {
        store_entry(extent.initials, e + i, number_in(bytes), initial, offsets);
    }
}

// The state after a record that leaves these bytes of an entry.
#[tactic(auto, unfolding(crate::specs::ReadRecord::holding))]
fn holding(taken: usize, bytes: &[u8]) -> HexReading
    ensures { result ≡ holding taken bytes.now }
{
    HexReading {
        taken,
        first: bytes.get(0).copied().unwrap_or(0),
        second: bytes.get(1).copied().unwrap_or(0),
    }
}

// The state after a sound record in a possible state, which is stored, or the refusal 22.
fn take_record(
    state: HexReading,
    extent: Extent,
    frame: Decoded,
    initial: &mut [u32],
    offsets: &mut [i32],
) -> Result<HexReading, Cause>
    requires { TakenInput extent state (length initial.old) (length offsets.old) }
    ensures value { result ≡ answer (due_verdict (entry_bytes * extent.entries) state frame.bytes frame.count)
        (after_record extent (hex_session state initial.old offsets.old) frame.bytes frame.count).state }
    ensures initial_after { initial.new
        ≡ (after_record extent (hex_session state initial.old offsets.old) frame.bytes frame.count).initial }
    ensures offsets_after { offsets.new
        ≡ (after_record extent (hex_session state initial.old offsets.old) frame.bytes frame.count).offsets }
{
    let total = ENTRY_BYTES * extent.entries;
    let n = state.taken;
    if record_count(total) <= n {
        return Err(Cause::RecordDue);
    }
    let before = bytes_before(total, n);
    let length = bytes_before(total, n + 1) - before;
    if head_fails(&head_of(total, n), length, &frame) {
        return Err(Cause::RecordDue);
    }
    let held = before % ENTRY_BYTES;
    let mut window = frame.bytes;
    with_held(state, held, &mut window);
    let stream = &window[HEAD_BYTES - held..HEAD_BYTES + length];
    store_entries(extent, before / ENTRY_BYTES, stream, initial, offsets);
    let left = stream.len() % ENTRY_BYTES;
    Ok(holding(n + 1, &stream[stream.len() - left..]))
}

impl HexReading {
    // Whether all records of the design's set are taken. The state of an illegal design is not finished.
    pub fn is_finished(self, d: Design) -> bool
        ensures { result ≡ hex_finished d self }
    {
        let Ok(legal) = d.checked() else {
            return false;
        };
        let total = ENTRY_BYTES * extent_of(legal).entries;
        if MOST_BYTES < total {
            return false;
        }
        is_possible(total, self) && self.taken == record_count(total)
    }

    // The state after a record, or what the record is refused for. Nothing is stored before every check has passed.
    fn next(
        self,
        d: Design,
        initial: &mut [u32],
        offsets: &mut [i32],
        record: &[u8],
    ) -> Result<HexReading, Cause>
        ensures value { result ≡ answer (hex_verdict_on d (hex_session self initial.old offsets.old) «record».now)
            (hex_after d (hex_session self initial.old offsets.old) «record».now).state }
        ensures initial_table { initial.new
            ≡ (hex_after d (hex_session self initial.old offsets.old) «record».now).initial }
        ensures offset_tables { offsets.new
            ≡ (hex_after d (hex_session self initial.old offsets.old) «record».now).offsets }
    {
        let legal = checked_set(d, initial.len(), offsets.len())?;
        let extent = extent_of(legal);
        let total = ENTRY_BYTES * extent.entries;
        if MOST_BYTES < total {
            return Err(Cause::AddressRange);
        }
        if !is_possible(total, self) {
            return Err(Cause::State);
        }
        let frame = decode_record(record)?;
        take_record(self, extent, frame, initial, offsets)
    }

    // Takes a record (document 02, A2). A refusal gives back the state that came. `read_line` differs in what it does, and not in a type:
    // a line stores the one entry that it holds, a record those that it makes whole.
    pub fn read_record(
        self,
        d: Design,
        initial: &mut [u32],
        offsets: &mut [i32],
        record: &[u8],
    ) -> HexRead
        ensures answer { result ≡ hex_answer d (hex_session self initial.old offsets.old) «record».now }
        ensures number { verdict_number result.verdict
            ≡ verdict_number (hex_verdict_on d (hex_session self initial.old offsets.old) «record».now) }
        ensures initial_table { initial.new
            ≡ (hex_after d (hex_session self initial.old offsets.old) «record».now).initial }
        ensures offset_tables { offsets.new
            ≡ (hex_after d (hex_session self initial.old offsets.old) «record».now).offsets }
    {
        match self.next(d, initial, offsets, record) {
            Ok(state) => HexRead {
                verdict: Ok(()),
                state,
            },
            Err(cause) => HexRead {
                verdict: Err(cause),
                state: self,
            },
        }
    }
}
