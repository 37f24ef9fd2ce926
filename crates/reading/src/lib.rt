// The reader: one line a call, into lent tables.
#![tactic(auto)]

ghost use Rattle.std.specs.Prelude.{◌≡◌, [], ◌∷◌, ◌+◌, ◌*◌, ◌^◌, ◌≤◌, ◌<◌, length, take};
ghost use Rattle.refusal.specs.Numbers.{verdict_number};
ghost use Rattle.refusal.specs.Checks.{verdict, answer};
ghost use Rattle.frames.specs.Line.{capacity};
ghost use Rattle.encoding.specs.Bytes.{entry_bytes};
ghost use Rattle.encoding.specs.Inputs.{held};
ghost use Rattle.lines.specs.Inputs.{SlotIn};
ghost use Rattle.reading.specs.ReadLine.{
  possible,
  finished,
  between,
  head_fails,
  empty_check,
  due_verdict,
  next_state,
  none_taken,
  read_answer,
  initial_stored,
  offsets_stored,
  session,
  after_frame,
  moved_by,
  verdict_on,
  after,
};
ghost use Rattle.reading.specs.Inputs.{Sound, Begun};

use design::{Design, LegalDesign};
use encoding::Frame;
use encoding::numbers::{from_complement, number_in};
use frames::{Decoded, decode, first_design};
use lines::{Slot, entry_over, entry_width, head_of, line_count, slot_of};
use refusal::Cause;
use tables::tables_short;

// Document 01's reading state. With no line taken the design is not read; no `Option`, since C keeps the state as numbers.
#[derive(Clone, Copy)]
pub struct Reading {
    pub design: Design,
    pub taken: usize,
}

// What `read_line` answers, and the state to go on with: beside the verdict and not inside of it, since a refusal gives back the
// state, too.
#[derive(Clone, Copy)]
pub struct Read {
    pub verdict: Result<(), Cause>,
    pub state: Reading,
}

// Whether a reading can have come to this state.
fn is_possible(state: Reading) -> bool
    ensures { result ≡ possible state }
{
    if state.taken == 0 {
        return true;
    }
    match state.design.checked() {
        Ok(legal) => state.taken as u64 <= line_count(legal),
        Err(_) => false,
    }
}

// inner: whether a frame, of a line or of a record, is not the one due, which begins as `head` does and has `width` bytes more and a sum
// byte behind that. Byte by byte, as both were put together: `starts_with` loads several at a time, and waits until they are stored.
#[inline(always)]
pub fn head_fails(head: &Frame, width: usize, frame: &Decoded) -> bool
    requires { head.now.count + width ≤ capacity }
    ensures { result ≡ head_fails (held head.now) width frame.now.bytes frame.now.count }
{
    if frame.count != head.count + width + 1 {
        return true;
    }
    for (i, due) in head.bytes[..head.count].iter().enumerate() {
        if frame.bytes[i] != *due {
            return true;
        }
    }
    false
}

// Stores the entry of a line, which is given as the number in its bytes.
fn store(slot: Slot, number: u32, initial: &mut [u32], offsets: &mut [i32])
    requires slot_in { SlotIn slot (length initial.old) (length offsets.old) }
    requires number_bound { number < 2 ^ (8 * entry_bytes) }
    ensures initial_after { initial.new ≡ initial_stored slot number initial.old }
    ensures offsets_after { offsets.new ≡ offsets_stored slot number offsets.old }
{
    match slot {
        Slot::Initial(index) => {
            initial[index as usize] = number;
        }
        Slot::Offset { place, .. } => {
            offsets[place as usize] = from_complement(number);
        }
        Slot::Design | Slot::End(_) => {}
    }
}

// The state after an empty line in a possible state (document 02, A8). No line is taken after it: with none taken it is passed over, and
// after a finished set the next one may begin. Inside a set it is not the line that is due.
fn empty_line(state: Reading) -> Result<Reading, Cause>
    ensures { result ≡ answer (verdict (empty_check state ∷ [])) (none_taken state) }
{
    if !state.is_between() {
        return Err(Cause::Frame);
    }
    Ok(Reading { taken: 0, ..state })
}

// The state after a sound line with no line taken: it must hold a design.
fn first_line(
    state: Reading,
    frame: Decoded,
    initial: usize,
    offsets: usize,
) -> Result<Reading, Cause>
    requires sound { Sound frame.bytes frame.count }
    requires taken_value { state.taken ≡ 0 }
    ensures { result ≡ answer (due_verdict state initial offsets (take frame.count frame.bytes))
        (next_state state (take frame.count frame.bytes)) }
{
    let legal = first_design(&frame)?;
    if tables_short(legal, initial, offsets) {
        return Err(Cause::TablesShort);
    }
    Ok(Reading {
        design: legal.design,
        taken: 1,
    })
}

// The state after a sound line with others taken before it.
fn later_line(
    state: Reading,
    frame: Decoded,
    initial: &mut [u32],
    offsets: &mut [i32],
) -> Result<Reading, Cause>
    requires sound { Sound frame.bytes frame.count }
    requires begun { Begun state }
    ensures value { result ≡ answer (due_verdict state (length initial.old) (length offsets.old) (take frame.count frame.bytes))
        (next_state state (take frame.count frame.bytes)) }
    ensures initial_after { initial.new ≡ (after_frame (session state initial.old offsets.old) (take frame.count frame.bytes)).initial }
    ensures offsets_after { offsets.new ≡ (after_frame (session state initial.old offsets.old) (take frame.count frame.bytes)).offsets }
{
    let legal = LegalDesign {
        design: state.design,
    };
    if line_count(legal) <= state.taken as u64 {
        return Err(Cause::Frame);
    }
    let slot = slot_of(legal, state.taken);
    let head = head_of(legal, slot);
    let width = entry_width(slot);
    if head_fails(&head, width, &frame) {
        return Err(Cause::Frame);
    }
    let number = number_in(&frame.bytes[head.count..head.count + width]);
    let over = entry_over(legal, slot, number);
    let short = tables_short(legal, initial.len(), offsets.len());
    if over {
        return Err(Cause::InitialRange);
    }
    if short {
        return Err(Cause::TablesShort);
    }
    store(slot, number, initial, offsets);
    Ok(Reading {
        taken: state.taken + 1,
        ..state
    })
}

impl Reading {
    // Whether the reading is finished. With no line taken it is not, and the design is not looked at.
    pub fn is_finished(self) -> bool
        ensures { result ≡ finished self }
    {
        if self.taken == 0 || !is_possible(self) {
            return false;
        }
        let legal = LegalDesign {
            design: self.design,
        };
        self.taken as u64 == line_count(legal)
    }

    // inner: whether the reading is not inside a set: no line is taken, or all of a set's are.
    pub fn is_between(self) -> bool
        ensures { result ≡ between self }
    {
        self.taken == 0 || self.is_finished()
    }

    // The state after a line, or what the line is refused for. Nothing is stored before every check has passed.
    fn next(self, initial: &mut [u32], offsets: &mut [i32], line: &[u8]) -> Result<Reading, Cause>
        ensures value { result ≡ answer (verdict_on (session self initial.old offsets.old) line.now)
            (moved_by (session self initial.old offsets.old) line.now).state }
        ensures initial_table { initial.new
            ≡ (after (session self initial.old offsets.old) line.now).initial }
        ensures offset_tables { offsets.new
            ≡ (after (session self initial.old offsets.old) line.now).offsets }
    {
        let possible = is_possible(self);
        let empty = line.is_empty();
        if !possible {
            return Err(Cause::State);
        }
        if empty {
            return empty_line(self);
        }
        let frame = decode(line)?;
        if self.taken == 0 {
            return first_line(self, frame, initial.len(), offsets.len());
        }
        later_line(self, frame, initial, offsets)
    }

    // Takes a line (document 01, "Bits, lines and the report"). A refusal gives back the state that came.
    pub fn read_line(self, initial: &mut [u32], offsets: &mut [i32], line: &[u8]) -> Read
        ensures answer { result ≡ read_answer (session self initial.old offsets.old) line.now }
        ensures number { verdict_number result.verdict
            ≡ verdict_number (verdict_on (session self initial.old offsets.old) line.now) }
        ensures initial_table { initial.new
            ≡ (after (session self initial.old offsets.old) line.now).initial }
        ensures offset_tables { offsets.new
            ≡ (after (session self initial.old offsets.old) line.now).offsets }
    {
        match self.next(initial, offsets, line) {
            Ok(state) => Read {
                verdict: Ok(()),
                state,
            },
            Err(cause) => Read {
                verdict: Err(cause),
                state: self,
            },
        }
    }
}
