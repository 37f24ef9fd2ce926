// The lines of a set: which line holds what, the bytes before its entry, and which initial entries no line carries.
#![tactic(auto)]

ghost use Rattle.std.specs.Prelude.{◌≡◌, ◌≤◌, ◌<◌, length};
ghost use Rattle.design.specs.Stored.{initial_count, offset_total};
ghost use Rattle.encoding.specs.Inputs.{held};
ghost use Rattle.lines.specs.Slots.{line_count, offset_slot, slot_of};
ghost use Rattle.lines.specs.Lines.{frame_head, entry_width, initial_over, some_over, entry_over};

use design::LegalDesign;
use encoding::numbers::ENTRY_BYTES;
use encoding::{Frame, design_frame};
use general::pow2;

// What a line of a set holds: the design, an initial entry, an offset of a table, which lies at a place among all offsets, or the
// number of lines before the last.
#[derive(Clone, Copy, Debug, PartialEq, Eq)]
pub enum Slot {
    Design,
    Initial(u32),
    Offset { table: u32, index: u32, place: u32 },
    End(u32),
}

// inner: how many lines a set has.
pub fn line_count(legal: LegalDesign) -> u64
    ensures { result ≡ line_count legal.design }
{
    pow2(legal.design.alpha) + legal.offset_total() + 2
}

// The table and the index in it of the offset at a place: at most four tables are looked at, by their numbers, one of which is in the answer.
fn offset_slot(legal: LegalDesign, place: u32) -> Slot
    requires { place < offset_total legal.design }
    ensures { result ≡ offset_slot legal.design place }
{
    let mut index = place as u64;
    for table in 0..legal.design.m {
        let count = legal.offset_count(table);
        if index < count {
            return Slot::Offset {
                table,
                index: index as u32,
                place,
            };
        }
        index -= count;
    }
    unreachable!()
}

// inner: what line n of a set holds.
pub fn slot_of(legal: LegalDesign, n: usize) -> Slot
    requires { n < line_count legal.design }
    ensures { result ≡ slot_of legal.design n }
{
    if n == 0 {
        return Slot::Design;
    }
    let line = n as u32;
    let entries = pow2(legal.design.alpha) as u32;
    if line <= entries {
        return Slot::Initial(line - 1);
    }
    if line as u64 <= entries as u64 + legal.offset_total() {
        return offset_slot(legal, line - 1 - entries);
    }
    Slot::End(line)
}

// inner: the frame of a line up to its entry. Always inlined: behind a call the frame is read by several bytes at a time, and waits until they
// are stored one by one.
#[inline(always)]
pub fn head_of(legal: LegalDesign, slot: Slot) -> Frame
    ensures result_value { held result ≡ frame_head legal.design slot }
    ensures count_value { result.count ≡ length (frame_head legal.design slot) }
{
    match slot {
        Slot::Design => design_frame(legal),
        Slot::Initial(index) => Frame::of_kind(2).with(2, index),
        Slot::Offset { table, index, .. } => Frame::of_kind(3).with(1, table).with(2, index),
        Slot::End(before) => Frame::of_kind(4).with(2, before),
    }
}

// inner: whether an initial entry is at the limit on sums or beyond it.
pub fn initial_over(legal: LegalDesign, entry: u32) -> bool
    ensures { result ≡ initial_over legal.design entry }
{
    legal.sum_limit() <= entry as u64
}

// inner: whether some initial entry of a set is, so that lines do not carry the set.
pub fn some_over(legal: LegalDesign, initial: &[u32]) -> bool
    requires { initial_count legal.design ≤ length initial.now }
    ensures { result ≡ some_over legal.design initial.now }
{
    initial[..pow2(legal.design.alpha) as usize]
        .iter()
        .any(|entry| initial_over(legal, *entry))
}

// inner: whether a line's entry, which is given as the number in its bytes, is such an initial entry. Offsets have no limit but that of
// their 3 bytes.
pub fn entry_over(legal: LegalDesign, slot: Slot, number: u32) -> bool
    ensures { result ≡ entry_over legal.design slot number }
{
    matches!(slot, Slot::Initial(_)) && initial_over(legal, number)
}

// inner: how many bytes the entry of a line takes.
pub fn entry_width(slot: Slot) -> usize
    ensures { result ≡ entry_width slot }
{
    match slot {
        Slot::Initial(_) | Slot::Offset { .. } => ENTRY_BYTES,
        Slot::Design | Slot::End(_) => 0,
    }
}
