// Going through a file of sets: what `check_set`, `count_set` and `set_to_hex` share. They differ in what they write of each set.
#![tactic(auto)]

ghost use Rattle.std.specs.Prelude.{◌≡◌, true, ◌^◌, ◌<◌, List, ℕ, length, Ok, Err};
ghost use Rattle.refusal.specs.declared.Cause.{Cause};
ghost use Rattle.reading.specs.ReadLine.{session};
ghost use Rattle.storage.specs.Sets.{Storable};
ghost use Rattle.console.specs.Reading.{KeepsBlocks};
ghost use Rattle.set_console.specs.Reading.{HoldsEverySet, LedFrom, Reached, set_came};
ghost use Rattle.set_files.specs.Whole.{is_whole};

use console::{BLOCK, Console};
use design::Design;
use design::limits::{MOST_INITIAL, MOST_OFFSETS};
use reading::Reading;
use refusal::Cause;
use set_console::answers::{put_refused_line, put_unfinished};
use set_console::set_reader::SetReader;

// Whether the input ended as a file of sets should: behind a set, with or without empty lines. `any` says whether a set came at all.
fn is_whole(came: Result<bool, Cause>, any: bool, state: Reading) -> bool
    ensures { result ≡ is_whole came any state }
{
    match came {
        Ok(set) => !set && any && state.is_between(),
        Err(_) => false,
    }
}

// Writes what there is to say of what came: of a set, which is one that can be stored, its answer, of the end of a whole file nothing, else
// why there is no set. The separator stands behind a set before it. The blocks are kept where each answer keeps them.
fn put_came<R: Print, F: Fn(&mut Console<R>, Design, &[u32], &[i32])>(
    console: &mut Console<R>,
    separator: &[u8],
    put_answer: &F,
    came: Result<bool, Cause>,
    any: bool,
    reader: SetReader,
    initial: &[u32],
    offsets: &[i32],
)
    requires callable { (c : _) (d : _) (i : _) (o : _) → Storable (record { design = d; initial = i.now; offsets = o.now })
        → F.pre put_answer.now c d i o }
    requires storable { came ≡ Ok true → Storable (record { design = reader.state.design; initial = initial.now; offsets = offsets.now }) }
    ensures blocks { ((c : _) (d : _) (i : _) (o : _) (n : _) → F.post put_answer.now c d i o tt n → KeepsBlocks c.now n.now)
        → KeepsBlocks console.old console.new }
{
    if is_whole(came, any, reader.state) {
        return;
    }
    if any {
        console.put(separator);
    }
    match came {
        Ok(true) => put_answer(console, reader.state.design, initial, offsets),
        Ok(false) => put_unfinished(console, reader.lines),
        Err(cause) => put_refused_line(console, reader.lines, cause),
    }
}

// Answers the next set, if there is one. The result is whether a set came. Where each answer keeps the blocks, the input's block is still the
// one that the last line came from.
fn answer_next<R: Input + Print, F: Fn(&mut Console<R>, Design, &[u32], &[i32])>(
    console: &mut Console<R>,
    separator: &[u8],
    put_answer: &F,
    any: bool,
    reader: &mut SetReader,
    initial: &mut [u32],
    offsets: &mut [i32],
) -> Result<bool, Cause>
    requires callable { (c : _) (d : _) (i : _) (o : _) → Storable (record { design = d; initial = i.now; offsets = o.now })
        → F.pre put_answer.now c d i o }
    requires holds_every_set { HoldsEverySet (length initial.old) (length offsets.old) }
    requires begun { Reached (session reader.old.state initial.old offsets.old) }
    ensures led { (block : List ℕ)
        × LedFrom (session reader.old.state initial.old offsets.old) (session reader.new.state initial.new offsets.new)
        console.old block reader.old.lines reader.new.lines (set_came result)
        × (((c : _) (d : _) (i : _) (o : _) (n : _) → F.post put_answer.now c d i o tt n → KeepsBlocks c.now n.now)
        → (block ≡ console.new.input) × (length console.new.input ≡ length console.old.input)
        × (length console.new.output ≡ length console.old.output)) }
    ensures later { result ≡ Ok true → reader.old.lines < reader.new.lines }
    ensures few { reader.new.lines < 2 ^ 64 }
    ensures held { result ≡ Err Cause.TablesShort → ⊥ }
    ensures reached { Reached (session reader.new.state initial.new offsets.new) }
{
    let came = reader.read_set(console, initial, offsets);
    put_came(
        console, separator, put_answer, came, any, *reader, initial, offsets,
    );
    came
}

// Answers each set of the input, until it ends, a line is refused, or nothing more can be written.
fn answer_all<R: Input + Print, F: Fn(&mut Console<R>, Design, &[u32], &[i32])>(
    console: &mut Console<R>,
    separator: &[u8],
    put_answer: F,
    initial: &mut [u32],
    offsets: &mut [i32],
)
    requires callable { (c : _) (d : _) (i : _) (o : _) → Storable (record { design = d; initial = i.now; offsets = o.now })
        → F.pre put_answer c d i o }
    requires holds_every_set { HoldsEverySet (length initial.old) (length offsets.old) }
    ensures { ((c : _) (d : _) (i : _) (o : _) (n : _) → F.post put_answer c d i o tt n → KeepsBlocks c.now n.now)
        → (length console.new.input ≡ length console.old.input) × (length console.new.output ≡ length console.old.output) }
{
    let mut reader = SetReader::new();
    let mut any = false;
    'sets: loop {
        let came = answer_next(
            console,
            separator,
            &put_answer,
            any,
            &mut reader,
            initial,
            offsets,
        );
        if !matches!(came, Ok(true)) || console.has_failed() {
            return;
        }
        any = true;
    }
}

// Puts an answer for each set of the input, and the separator behind one that something follows.
pub fn answer_sets<R: Input + Print, F: Fn(&mut Console<R>, Design, &[u32], &[i32])>(
    rt: &R,
    separator: &[u8],
    put_answer: F,
)
    requires { (c : _) (d : _) (i : _) (o : _) → Storable (record { design = d; initial = i.now; offsets = o.now })
        → F.pre put_answer c d i o }
{
    let mut input = [0u8; BLOCK];
    let mut output = [0u8; BLOCK];
    let mut initial = [0u32; MOST_INITIAL];
    let mut offsets = [0i32; MOST_OFFSETS];
    let mut console = Console::new(rt, &mut input, &mut output);
    answer_all(
        &mut console,
        separator,
        put_answer,
        &mut initial,
        &mut offsets,
    );
    console.flush();
}
