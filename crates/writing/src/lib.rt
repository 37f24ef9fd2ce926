// The writer: one line of a set a call, by its number.
#![tactic(auto)]

ghost use Rattle.std.specs.Prelude.{◌≡◌, length};
ghost use Rattle.refusal.specs.Checks.{verdict, answer};
ghost use Rattle.refusal.specs.Told.{told_by};
ghost use Rattle.lines.specs.Lines.{entry_number};
ghost use Rattle.lines.specs.Inputs.{SlotIn};
ghost use Rattle.writing.specs.Write.{entry_checks, asked_checks, write_answer, buffer_after, write_told};

use design::{Design, LegalDesign};
use encoding::numbers::{complement, fits, fits_signed};
use encoding::put_line;
use lines::{Slot, entry_width, head_of, initial_over, line_count, slot_of};
use refusal::Cause;
use tables::checked_set;

// 18, then 23, by whether an entry fits its 3 bytes and whether it is an initial entry at the limit on sums or beyond it.
#[tactic(auto, unfolding(crate::specs::Write::entry_checks))]
fn entry_verdict(fits: bool, over: bool) -> Result<(), Cause>
    ensures { result ≡ verdict (entry_checks fits over) }
{
    if !fits {
        return Err(Cause::EntryWidth);
    }
    if over {
        return Err(Cause::InitialRange);
    }
    Ok(())
}

// The entry of a line as it is written, or what it is refused for. The limit on sums is for initial entries alone.
fn asked_number(
    legal: LegalDesign,
    slot: Slot,
    initial: &[u32],
    offsets: &[i32],
) -> Result<u32, Cause>
    requires { SlotIn slot (length initial.now) (length offsets.now) }
    ensures { result ≡ answer (verdict (asked_checks legal.design slot initial.now offsets.now))
        (entry_number slot initial.now offsets.now) }
{
    match slot {
        Slot::Initial(index) => {
            let entry = initial[index as usize];
            entry_verdict(fits(entry), initial_over(legal, entry))?;
            Ok(entry)
        }
        Slot::Offset { place, .. } => {
            let entry = offsets[place as usize];
            entry_verdict(fits_signed(entry), false)?;
            Ok(complement(entry))
        }
        Slot::Design | Slot::End(_) => Ok(0),
    }
}

// Puts line `number` of the set at the start of the line buffer (document 01, "Bits, lines and the report"). Nothing is written before
// every check has passed.
pub fn write_line(
    d: Design,
    initial: &[u32],
    offsets: &[i32],
    number: usize,
    line: &mut [u8],
) -> Result<usize, Cause>
    ensures answer { result ≡ write_answer d initial.now offsets.now number (length line.old) }
    ensures told { told_by result ≡ write_told d initial.now offsets.now number (length line.old) }
    ensures line_buffer { line.new ≡ buffer_after d initial.now offsets.now number line.old }
{
    let legal = checked_set(d, initial.len(), offsets.len())?;
    if line_count(legal) <= number as u64 {
        return Err(Cause::LineNumber);
    }
    let slot = slot_of(legal, number);
    let entry = asked_number(legal, slot, initial, offsets)?;
    let head = head_of(legal, slot);
    let width = entry_width(slot);
    let digits = 2 * (head.count + width + 1);
    if line.len() < digits {
        return Err(Cause::OutputShort);
    }
    let frame = head.with(width, entry);
    put_line(frame, line);
    Ok(digits)
}
