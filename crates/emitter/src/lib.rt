// The entries: from a plan's bytes and a buffer to the answer. They measure, then write: a text that is longer than the buffer is
// refused before a byte is written.
#![tactic(auto)]

pub mod exports;
pub mod reading;

ghost use Rattle.std.specs.Prelude.{◌≡◌, ◌+◌, ◌≤◌, ◌<◌, length, IfSome};
ghost use Rattle.plan.specs.Plan as definition;
ghost use Rattle.plan.specs.Refusal.{accepted};
ghost use Rattle.codegen.specs.Answer.{answer, terms_answer};
ghost use Rattle.reader.specs.Reading.{Enough, Room};
ghost use Rattle.emitter.specs.Answered.{number_of, length_of, count_of, Answers, items_answer};
ghost use Rattle.emitter.specs.Held.{HeldIn, form_text, form_count, answer_in, form_answer};
ghost use Rattle.emitter.specs.Texts.{Starts, WritesText, Measured};

use emit_terms::term::generate_internal_term_constructors;
use layout::{Buffers, Filled};
use refusal::Refusal;
use text::sink::{Sink, store};
use view::buffers::Plan;

// A text that is written: its length, and how many of its literals are odd.
#[derive(Clone, Copy, Debug, Default, PartialEq, Eq)]
pub struct Text {
    pub length: usize,
    pub count: usize,
}

// The numbers of an answer: a text has the number 0; a refusal has its own, and the length and the count 0.
#[derive(Clone, Copy, Debug, PartialEq, Eq)]
pub struct Numbers {
    pub number: u32,
    pub length: usize,
    pub count: usize,
}

impl From<Result<Text, Refusal>> for Numbers {
    ghost from_gives = { λ r n. (n.number ≡ number_of r) × (n.length ≡ length_of r) × (n.count ≡ count_of r) };

    fn from(r: Result<Text, Refusal>) -> Numbers {
        let text = r.unwrap_or_default();
        Numbers {
            number: r.err().map_or(0, u32::from),
            length: text.length,
            count: text.count,
        }
    }
}

// Which text is asked for: all of it, the generated terms alone, or what stands before them.
#[derive(Clone, Copy, Debug, PartialEq, Eq)]
pub enum Form {
    Whole,
    Terms,
    Items,
}

// `generate_rust` of codegen.rs 176, or a part of it. A closure in place of the form would say which at each entry, and no less; and
// what calls this would be compiled once for each closure.
fn put_text(w: &mut Sink<'_>, form: Form, plan: &Plan<'_, '_, '_>)
    ensures { (p : definition.Plan) → HeldIn p plan.now → Starts w.old → WritesText (form_text form p) (form_count form p) w.old w.new }
{
    match form {
        Form::Whole => {
            emit_items::items(w, plan);
            generate_internal_term_constructors(w, plan);
        }
        Form::Terms => generate_internal_term_constructors(w, plan),
        Form::Items => emit_items::items(w, plan),
    }
}

// Puts the text into a buffer from its start: its length and count, where it fits the room.
fn put_measured(out: &mut [u8], room: usize, form: Form, plan: &Plan<'_, '_, '_>) -> Option<Text>
    requires { room < 18446744073709551615 }
    ensures within { IfSome result (λ t. t.length ≤ room) }
    ensures measured { (p : definition.Plan) → HeldIn p plan.now → Measured (form_text form p) (form_count form p) room out.old out.new result }
{
    let mut w = Sink::new(out, room + 1);
    put_text(&mut w, form, plan);
    let text = Text {
        length: w.at,
        count: w.odd,
    };
    ((text.length <= room) & (text.count <= room)).then_some(text)
}

// The answer for a plan that is accepted. The text is measured as it is put into a draft; where the draft has all of it, it is
// copied from there: by `copy_from_slice` the library for C would need `memmove`.
fn answer_held(
    out: &mut [u8],
    form: Form,
    plan: &Plan<'_, '_, '_>,
    draft: &mut [u8],
) -> Result<Text, Refusal>
    ensures { (p : definition.Plan) → HeldIn p plan.now → Answers (answer_in form (length out.old) (accepted p)) result out.old out.new }
{
    let room = out.len();
    let text = put_measured(draft, room, form, plan).ok_or(Refusal::Room)?;
    if text.length <= draft.len() {
        store(out, 0, &draft[..text.length]);
    } else {
        let _ = put_measured(out, room, form, plan);
    }
    Ok(text)
}

// The answer for any bytes, with buffers that are long enough for them. The draft serves the reader before it has the text.
// `Room` is of the buffers and of the plan that is read into them, so it is no invariant of `Buffers`.
fn answer_read(
    plan: &[u8],
    out: &mut [u8],
    form: Form,
    buffers: &mut Buffers<'_>,
    draft: &mut [u8],
) -> Result<Text, Refusal>
    requires { Room plan.now buffers.old.words.now buffers.old.rows.now buffers.old.tables.now draft.old }
    ensures { Answers (form_answer form plan.now (length out.old)) result out.old out.new }
{
    let mut index = [0u32; 1281];
    let held = refusals::read_into(plan, buffers, draft, &mut index)?;
    let unindexed = reader::plan_held(plan, buffers, held.tables);
    let plan = Plan {
        index: &index,
        ..unindexed
    };
    answer_held(out, form, &plan, draft)
}

// The answer with buffers of these lengths, which are long enough for the plan.
fn answer_with<const WORDS: usize, const ROWS: usize, const TABLES: usize, const DRAFT: usize>(
    plan: &[u8],
    out: &mut [u8],
    form: Form,
) -> Result<Text, Refusal>
    requires enough { Enough (length plan.now) WORDS ROWS TABLES DRAFT }
    requires few { (WORDS ≤ 262144) × (ROWS ≤ 262144) × (TABLES ≤ 262144) × (DRAFT ≤ 262144) }
    ensures { Answers (form_answer form plan.now (length out.old)) result out.old out.new }
{
    let mut words = [0u32; WORDS];
    let mut rows = [0u32; ROWS];
    let mut tables = [0u32; TABLES];
    let mut draft = [0u8; DRAFT];
    let mut buffers = Buffers {
        words: &mut words,
        rows: &mut rows,
        tables: &mut tables,
        filled: Filled::default(),
    };
    answer_read(plan, out, form, &mut buffers, &mut draft)
}

// Buffers that are long enough for each plan take longer to clear than a small plan to answer. Short and long plans have a function
// each, which is not compiled into what calls it, so that a short plan touches no stack that long buffers take. What they
// are given, the plan, the buffer and the form, is an entry's: a struct of the three would be made at each entry, to be taken apart here.
#[inline(never)]
fn answer_short(plan: &[u8], out: &mut [u8], form: Form) -> Result<Text, Refusal>
    requires { length plan.now ≤ 2048 }
    ensures { Answers (form_answer form plan.now (length out.old)) result out.old out.new }
{
    if plan.len() <= 512 {
        return answer_with::<512, 257, 129, 4096>(plan, out, form);
    }
    answer_with::<2048, 1025, 513, 16384>(plan, out, form)
}

#[inline(never)]
fn answer_long(plan: &[u8], out: &mut [u8], form: Form) -> Result<Text, Refusal>
    ensures { Answers (form_answer form plan.now (length out.old)) result out.old out.new }
{
    if plan.len() <= 8192 {
        return answer_with::<8192, 4097, 2049, 65536>(plan, out, form);
    }
    if plan.len() <= 32768 {
        return answer_with::<32768, 16385, 8193, 131072>(plan, out, form);
    }
    // The draft is no longer than leaves nested expressions their stack in a mebibyte.
    answer_with::<65536, 32769, 16385, 143360>(plan, out, form)
}

// The answer in a form.
fn answer_form(plan: &[u8], out: &mut [u8], form: Form) -> Result<Text, Refusal>
    ensures { Answers (form_answer form plan.now (length out.old)) result out.old out.new }
{
    if plan.len() <= 2048 {
        return answer_short(plan, out, form);
    }
    answer_long(plan, out, form)
}

// The whole module of a plan.
pub fn emit(plan: &[u8], out: &mut [u8]) -> Result<Text, Refusal>
    ensures { Answers (answer plan.now (length out.old)) result out.old out.new }
{
    answer_form(plan, out, Form::Whole)
}

// The text of a plan's generated terms alone.
pub fn emit_terms(plan: &[u8], out: &mut [u8]) -> Result<Text, Refusal>
    ensures { Answers (terms_answer plan.now (length out.old)) result out.old out.new }
{
    answer_form(plan, out, Form::Terms)
}

// What stands before the terms: header, trait and types.
pub fn emit_items(plan: &[u8], out: &mut [u8]) -> Result<Text, Refusal>
    ensures { Answers (items_answer plan.now (length out.old)) result out.old out.new }
{
    answer_form(plan, out, Form::Items)
}
