// The calls on lines that are linked: writer, reader and report.
ghost use Rattle.std.specs.Prelude.{◌≡◌, length};
ghost use Rattle.refusal.specs.Numbers.{verdict_number};
ghost use Rattle.refusal.specs.Told.{number_told};
ghost use Rattle.writing.specs.Write.{buffer_after, write_told};
ghost use Rattle.reading.specs.ReadLine.{after, verdict_on, finished};
ghost use Rattle.report_text.specs.Report.{report_of};
ghost use Rattle.exports.specs.Numbers.{design_of, numbers_of, state_of, session_of};
ghost use Rattle.exports.specs.Behind.{behind};

use crate::answers::{number_of, put};
use crate::design_numbers::{design_of, numbers_of};
use reading::Reading;
use report_text::report;
use writing::write_line;

#[unsafe(no_mangle)]
pub extern "C" fn dorykleth_write_line(
    design: &[u32; 14],
    initial: &[u32],
    offsets: &[i32],
    line_number: usize,
    line: &mut [u8],
    digits: &mut usize,
) -> u8
    ensures number { result ≡ number_told
        (write_told (design_of design.now) initial.now offsets.now line_number
        (length line.old)) }
    ensures line_buffer { line.new ≡ buffer_after (design_of design.now) initial.now offsets.now
        line_number line.old }
    ensures digits { digits.new ≡ behind
        (write_told (design_of design.now) initial.now offsets.now line_number
        (length line.old))
        digits.old }
{
    put(
        write_line(design_of(design), initial, offsets, line_number, line),
        digits,
    )
}

// The reading state goes in and comes back as the numbers of its design and how many lines are taken.
#[unsafe(no_mangle)]
pub extern "C" fn dorykleth_read_line(
    design: &mut [u32; 14],
    taken: &mut usize,
    initial: &mut [u32],
    offsets: &mut [i32],
    line: &[u8],
) -> u8
    ensures number { result ≡ verdict_number
        (verdict_on (session_of design.old taken.old initial.old offsets.old)
        line.now) }
    ensures state_design { design.new ≡ numbers_of
        (after (session_of design.old taken.old initial.old offsets.old)
        line.now).state.design }
    ensures state_taken { taken.new
        ≡ (after (session_of design.old taken.old initial.old offsets.old)
        line.now).state.taken }
    ensures initial_table { initial.new
        ≡ (after (session_of design.old taken.old initial.old offsets.old)
        line.now).initial }
    ensures offset_tables { offsets.new
        ≡ (after (session_of design.old taken.old initial.old offsets.old)
        line.now).offsets }
{
    let came = Reading {
        design: design_of(design),
        taken: *taken,
    };
    let read = came.read_line(initial, offsets, line);
    *design = numbers_of(read.state.design);
    *taken = read.state.taken;
    number_of(read.verdict)
}

#[unsafe(no_mangle)]
pub extern "C" fn dorykleth_is_finished(design: &[u32; 14], taken: usize) -> bool
    ensures { result ≡ finished (state_of design.now taken) }
{
    let state = Reading {
        design: design_of(design),
        taken,
    };
    state.is_finished()
}

// The text, with zeros behind it; its length is returned.
#[unsafe(no_mangle)]
pub extern "C" fn dorykleth_report(line: &[u8], text: &mut [u8; 96]) -> usize
    ensures count { result ≡ (report_of line.now).count }
    ensures text { text.new ≡ (report_of line.now).bytes }
{
    let whole = report(line);
    let bytes = whole.bytes;
    *text = bytes;
    whole.count
}
