// What the programs print, in the first bytes of the buffer that they lend: each function returns how many. Tried: these bytes as the
// result. It proves, but of a buffer that has gone into a result by `&` no clause can say what it holds afterwards. A line is put by the
// emitter's sink, whose clauses say which bytes; `write!` would want a writer made of it, and say no more.
#![tactic(auto)]

ghost use Rattle.std.specs.Prelude.{◌≡◌, ◌≤◌, IfOk, length, take};
ghost use Rattle.codegen.specs.Answer.{answer, terms_answer};
ghost use Rattle.emitter.specs.Answered.{items_answer};
ghost use Rattle.plan.specs.Refusal.{refusal};
ghost use Rattle.refusal.specs.Number.{number};
ghost use Rattle.programs.specs.Printed.{refused_line, accepted_line, verdict, printed, numbers, counted, shown};
ghost use Rattle.schedule_rules.specs.Sheet.{schedule_text};

use emitter::{Numbers, Text};
use refusal::Refusal;
use std::io;
use std::io::{ErrorKind, Print, Read};
use text::sink::Sink;

// The buffer of the program `schedule`: no sheet is longer (`schedule_rules/proofs/Room`).
pub const SHEET: usize = 288_369;

// The line `refused N`. This and the next two make a sink and give how far it came: a function for that, with what is put as a closure, would
// take as many lines, and each closure a clause of its own for what it writes.
fn put_refusal(out: &mut [u8], refusal: Refusal) -> usize
    requires { 65536 ≤ length out.now }
    ensures { take result out.new ≡ refused_line (number refusal) }
{
    let mut w = Sink::new(out, 65537);
    w.put_bytes(b"refused ");
    w.put_decimal(u64::from(u32::from(refusal)));
    w.put_byte(b'\n');
    w.at
}

// The line `accepted`.
fn put_accepted(out: &mut [u8; 65536]) -> usize
    ensures { take result out.new ≡ accepted_line }
{
    let mut w = Sink::new(out, 65537);
    w.put_bytes(b"accepted");
    w.put_byte(b'\n');
    w.at
}

// The line `number length count` of an answer.
fn put_counts(r: Result<Text, Refusal>, out: &mut [u8; 65536]) -> usize
    ensures { take result out.new ≡ numbers r }
{
    let numbers = Numbers::from(r);
    let mut w = Sink::new(out, 65537);
    w.put_decimal(u64::from(numbers.number));
    w.put_byte(b' ');
    w.put_decimal(numbers.length as u64);
    w.put_byte(b' ');
    w.put_decimal(numbers.count as u64);
    w.put_byte(b'\n');
    w.at
}

// The text, which stands in the buffer, or the line `refused N`, which is put there: a refusal left the buffer unused.
fn put_shown(r: Result<Text, Refusal>, out: &mut [u8; 65536]) -> usize
    ensures { take result out.new ≡ shown r out.old }
{
    match r {
        Ok(text) => text.length,
        Err(refusal) => put_refusal(out, refusal),
    }
}

// What the program `whole` prints. This and the next four differ in the entry that they call, and each is a program of its own.
#[tactic(auto, using(crate::proofs::Laws::whole_printed))]
pub fn whole(plan: &[u8], out: &mut [u8; 65536]) -> usize
    ensures { take result out.new ≡ printed (answer plan.now 65536) }
{
    put_shown(emitter::emit(plan, out), out)
}

// What the program `terms` prints.
#[tactic(auto, using(crate::proofs::Laws::terms_printed))]
pub fn terms(plan: &[u8], out: &mut [u8; 65536]) -> usize
    ensures { take result out.new ≡ printed (terms_answer plan.now 65536) }
{
    put_shown(emitter::emit_terms(plan, out), out)
}

// What the program `items` prints.
#[tactic(auto, using(crate::proofs::Laws::items_printed))]
pub fn items(plan: &[u8], out: &mut [u8; 65536]) -> usize
    ensures { take result out.new ≡ printed (items_answer plan.now 65536) }
{
    put_shown(emitter::emit_items(plan, out), out)
}

// What the program `count` prints: of the answer of `whole` its number, length and count.
pub fn count(plan: &[u8], out: &mut [u8; 65536]) -> usize
    ensures { take result out.new ≡ counted (answer plan.now 65536) }
{
    put_counts(emitter::emit(plan, out), out)
}

// What the program `accept` prints.
#[tactic(auto, using(crate::proofs::Laws::none_refused, crate::proofs::Laws::one_refused))]
pub fn accept(plan: &[u8], out: &mut [u8; 65536]) -> usize
    ensures { take result out.new ≡ verdict (refusal plan.now) }
{
    match refusals::refused(plan) {
        None => put_accepted(out),
        Some(refusal) => put_refusal(out, refusal),
    }
}

// What the program `schedule` prints: the whole sheet, whatever its length.
#[tactic(auto, using(crate::proofs::Sheets::sheet_printed))]
pub fn schedule(plan: &[u8], out: &mut [u8; SHEET]) -> usize
    ensures { take result out.new ≡ schedule_text plan.now }
{
    match schedule_check::schedule(plan, out) {
        Ok(length) => length,
        Err(refused) => put_refusal(out, refused),
    }
}

// The first n bytes.
pub fn first(out: &[u8], n: usize) -> &[u8]
    ensures { result.now ≡ take n out.now }
{
    out.get(..n).unwrap_or(out)
}

// Reads once, and again where that is interrupted. An interrupted read leaves no less to read, so nothing shows that a `loop` ends:
// the tries are counted.
fn read_some<R: Read>(input: &mut R, buf: &mut [u8]) -> io::Result<usize>
    ensures { IfOk result (λ n. n ≤ length buf.new) }
{
    for _ in 0..u64::MAX {
        match input.read(buf) {
            Ok(n) => return Ok(n),
            Err(e) if e.kind() == ErrorKind::Interrupted => {}
            Err(e) => return Err(e),
        }
    }
    Err(io::Error::from(ErrorKind::Interrupted))
}

// Reads until the buffer is full or the input ends: how many bytes it put at the start of the buffer.
pub fn read_full<R: Read>(input: &mut R, buf: &mut [u8]) -> io::Result<usize>
    ensures { IfOk result (λ n. n ≤ length buf.new) }
{
    // No `for` and no chain: a read may give less than is asked for, so what is left to read is known after each.
    let mut done = 0;
    while done < buf.len() {
        let n = read_some(input, &mut buf[done..])?;
        if n == 0 {
            break;
        }
        done += n;
    }
    Ok(done)
}

// What each program but `schedule` does: reads a plan, and prints what its function puts into the buffer, as `whole`. No contract can say what is
// written.
pub fn run<R: Read, F: Fn(&[u8], &mut [u8; 65536]) -> usize>(
    input: &mut R,
    rt: &impl Print,
    answer: F,
) -> io::Result<()>
    requires { F.IsAlwaysCallable answer }
{
    // One byte more than a plan may have: a longer one is refused for its length, and never cut.
    let mut plan = [0u8; 65537];
    let mut out = [0u8; 65536];
    let n = read_full(input, &mut plan)?;
    let length = answer(&plan[..n], &mut out);
    rt.write_all(first(&out, length))
}

// The same of the program `schedule`, whose buffer is longer: a function that is handed on takes an array of one length.
pub fn run_schedule<R: Read>(input: &mut R, rt: &impl Print) -> io::Result<()> {
    let mut plan = [0u8; 65537];
    let mut out = [0u8; SHEET];
    let n = read_full(input, &mut plan)?;
    let length = schedule(&plan[..n], &mut out);
    rt.write_all(first(&out, length))
}
