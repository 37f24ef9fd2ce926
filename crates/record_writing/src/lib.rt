// The writer of Intel HEX: one record of a set a call, by its number.
#![tactic(auto)]

ghost use Rattle.std.specs.Prelude.{◌≡◌, true, ◌∷◌, ◌+◌, ◌*◌, ◌≤◌, length};
ghost use Rattle.general.specs.Lists.{over};
ghost use Rattle.refusal.specs.Told.{told_by};
ghost use Rattle.frames.specs.Line.{capacity};
ghost use Rattle.encoding.specs.Bytes.{big_endian, entry_bytes};
ghost use Rattle.encoding.specs.Encode.{line_of};
ghost use Rattle.records.specs.IntelHex.{record_head};
ghost use Rattle.records.specs.SetBytes.{entry_at};
ghost use Rattle.records.specs.Inputs.{RecordInput, EntryIn};
ghost use Rattle.record_writing.specs.WriteRecord.{record_fits, hex_write_answer, record_buffer_after, hex_write_told};
ghost use Rattle.record_writing.specs.Inputs.{window_bytes, AskedInput, Windowed, entry_written};

use design::Design;
use encoding::numbers::{ENTRY_BYTES, complement, fits, fits_signed};
use encoding::put_bytes;
use records::{
    DATA_BYTES, Extent, HEAD_BYTES, MOST_BYTES, bytes_before, extent_of, head_of, record_count,
};
use refusal::Cause;
use tables::checked_set;

// The number that entry e is written as, or None where it does not fit its 3 bytes. By `if` and not `then_some`, since only an entry that fits
// has a complement.
fn entry_number(initials: usize, initial: &[u32], offsets: &[i32], e: usize) -> Option<u32>
    requires { EntryIn initials (length initial.now) (length offsets.now) e }
    ensures { result ≡ entry_written initials initial.now offsets.now e }
{
    if e < initials {
        let entry = initial[e];
        if fits(entry) { Some(entry) } else { None }
    } else {
        let entry = offsets[e - initials];
        if fits_signed(entry) {
            Some(complement(entry))
        } else {
            None
        }
    }
}

// How many bytes a window holds into which a record's entries are put whole: those of its head, 16, and at most two more.
const WINDOW: usize = HEAD_BYTES + DATA_BYTES + 2;

// Puts the 3 bytes of an entry into the window, from a place on.
fn put_entry(number: u32, at: usize, window: &mut [u8])
    requires { at + entry_bytes ≤ length window.old }
    ensures { window.new ≡ over window.old at (big_endian entry_bytes number) }
{
    window[at..at + ENTRY_BYTES].copy_from_slice(&number.to_be_bytes()[1..]);
}

// Puts the entries that have a byte in record n into the window, from the one that its first byte is of to the one that its last byte is
// of, so that the record's own bytes stand right behind the place of its head, and says whether all of them fit.
fn put_entries(
    extent: Extent,
    initial: &[u32],
    offsets: &[i32],
    n: usize,
    window: &mut [u8],
) -> bool
    requires asked_input { AskedInput extent (length initial.now) (length offsets.now) n }
    requires window_len { length window.old ≡ window_bytes }
    ensures value { result ≡ record_fits extent.entries extent.initials initial.now offsets.now n }
    ensures windowed { result ≡ true → Windowed extent.entries (entry_at extent.initials initial.now offsets.now) n
        window.new }
{
    let initials = extent.initials;
    let total = ENTRY_BYTES * extent.entries;
    let start = bytes_before(total, n);
    let end = (bytes_before(total, n + 1) + 2) / ENTRY_BYTES;
    for e in start / ENTRY_BYTES..end {
        let Some(number) = entry_number(initials, initial, offsets, e) else {
            return false;
        };
        put_entry(number, HEAD_BYTES + ENTRY_BYTES * e - start, window);
    }
    true
}

// Puts what record n begins with at the start of the window, over the bytes of an entry that belong to the record before.
fn put_head(total: usize, n: usize, window: &mut [u8])
    requires record_input { RecordInput total n }
    requires in_bounds { 4 ≤ length window.old }
    ensures { window.new ≡ over window.old 0 (record_head total n) }
{
    let head = head_of(total, n);
    window[..HEAD_BYTES].copy_from_slice(&head.bytes[..HEAD_BYTES]);
}

// Puts a record, which is given as its bytes without the sum, at the start of the record buffer: a colon, and behind it what a line has.
fn put_record(bytes: &[u8], record: &mut [u8])
    requires bytes_len_bound { length bytes.now ≤ capacity }
    requires bytes_in_bounds { 1 + 2 * (length bytes.now + 1) ≤ length «record».old }
    ensures { «record».new ≡ over «record».old 0 (58 ∷ line_of bytes.now) }
{
    record[0] = b':';
    put_bytes(bytes, &mut record[1..]);
}

// Puts record `number` of the set at the start of the record buffer (document 02, A2). Nothing is written before every check has passed.
// `write_line` differs in what it does, and not in a type: a line holds one entry whole, a record cuts entries.
pub fn write_record(
    d: Design,
    initial: &[u32],
    offsets: &[i32],
    number: usize,
    record: &mut [u8],
) -> Result<usize, Cause>
    ensures answer { result ≡ hex_write_answer d initial.now offsets.now number (length «record».old) }
    ensures told { told_by result ≡ hex_write_told d initial.now offsets.now number (length «record».old) }
    ensures record_buffer { «record».new ≡ record_buffer_after d initial.now offsets.now number «record».old }
{
    let legal = checked_set(d, initial.len(), offsets.len())?;
    let extent = extent_of(legal);
    let total = ENTRY_BYTES * extent.entries;
    if MOST_BYTES < total {
        return Err(Cause::AddressRange);
    }
    if record_count(total) <= number {
        return Err(Cause::LineNumber);
    }
    let mut window = [0u8; WINDOW];
    let fits = put_entries(extent, initial, offsets, number, &mut window);
    let size = bytes_before(total, number + 1) - bytes_before(total, number);
    // a colon, and two digits for each of these bytes and of the five beside them
    let characters = 11 + 2 * size;
    if !fits {
        return Err(Cause::EntryWidth);
    }
    if record.len() < characters {
        return Err(Cause::OutputShort);
    }
    put_head(total, number, &mut window);
    put_record(&window[..HEAD_BYTES + size], record);
    Ok(characters)
}
