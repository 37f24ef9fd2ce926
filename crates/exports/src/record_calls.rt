// The calls on Intel HEX records that are linked: writer and reader.
ghost use Rattle.std.specs.Prelude.{◌≡◌, length};
ghost use Rattle.refusal.specs.Numbers.{verdict_number};
ghost use Rattle.refusal.specs.Told.{number_told};
ghost use Rattle.record_writing.specs.WriteRecord.{record_buffer_after, hex_write_told};
ghost use Rattle.record_reading.specs.ReadRecord.{hex_finished, hex_verdict_on, hex_after};
ghost use Rattle.exports.specs.Numbers.{design_of, hex_state_of, held_in, hex_session_of};
ghost use Rattle.exports.specs.Behind.{behind};

use crate::answers::{number_of, put};
use crate::design_numbers::design_of;
use record_reading::HexReading;
use record_writing::write_record;

#[unsafe(no_mangle)]
pub extern "C" fn dorykleth_write_record(
    design: &[u32; 14],
    initial: &[u32],
    offsets: &[i32],
    record_number: usize,
    record: &mut [u8],
    characters: &mut usize,
) -> u8
    ensures number { result ≡ number_told
        (hex_write_told (design_of design.now) initial.now offsets.now record_number
        (length «record».old)) }
    ensures record_buffer { «record».new ≡ record_buffer_after (design_of design.now) initial.now offsets.now
        record_number «record».old }
    ensures characters { characters.new ≡ behind
        (hex_write_told (design_of design.now) initial.now offsets.now record_number
        (length «record».old))
        characters.old }
{
    put(
        write_record(design_of(design), initial, offsets, record_number, record),
        characters,
    )
}

// The reading state goes in and comes back as how many records are taken and the two bytes that are held.
#[unsafe(no_mangle)]
pub extern "C" fn dorykleth_read_record(
    design: &[u32; 14],
    taken: &mut usize,
    held: &mut [u8; 2],
    initial: &mut [u32],
    offsets: &mut [i32],
    record: &[u8],
) -> u8
    ensures number { result ≡ verdict_number
        (hex_verdict_on (design_of design.now)
        (hex_session_of taken.old held.old initial.old offsets.old)
        «record».now) }
    ensures state_taken { taken.new
        ≡ (hex_after (design_of design.now)
        (hex_session_of taken.old held.old initial.old offsets.old)
        «record».now).state.taken }
    ensures state_held { held.new ≡ held_in
        (hex_after (design_of design.now)
        (hex_session_of taken.old held.old initial.old offsets.old)
        «record».now).state }
    ensures initial_table { initial.new
        ≡ (hex_after (design_of design.now)
        (hex_session_of taken.old held.old initial.old offsets.old)
        «record».now).initial }
    ensures offset_tables { offsets.new
        ≡ (hex_after (design_of design.now)
        (hex_session_of taken.old held.old initial.old offsets.old)
        «record».now).offsets }
{
    let came = HexReading {
        taken: *taken,
        first: held[0],
        second: held[1],
    };
    let read = came.read_record(design_of(design), initial, offsets, record);
    *taken = read.state.taken;
    *held = [read.state.first, read.state.second];
    number_of(read.verdict)
}

#[unsafe(no_mangle)]
pub extern "C" fn dorykleth_records_finished(
    design: &[u32; 14],
    taken: usize,
    held: &[u8; 2],
) -> bool
    ensures { result ≡ hex_finished (design_of design.now) (hex_state_of taken held.now) }
{
    let state = HexReading {
        taken,
        first: held[0],
        second: held[1],
    };
    state.is_finished(design_of(design))
}
