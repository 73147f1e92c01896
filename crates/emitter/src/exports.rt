// The entries as C functions, on slices and numbers: a slice passes as a pointer and a length. Each returns the answer's number and
// gives the length and the count as the first two entries of `told`, as far as there are any. They differ in the entry that they call:
// document 01 asks for each as a function of its own.
ghost use Rattle.std.specs.Prelude.{◌≡◌, [], ◌∷◌, length};
ghost use Rattle.std.proofs.lemmas.List.Edits.{sets};
ghost use Rattle.codegen.specs.Answer.{answer, terms_answer};
ghost use Rattle.emitter.specs.Answered.{number_of, length_of, count_of, items_answer, Exports};

use super::{Numbers, Text};
use refusal::Refusal;

// A C function answers a number, and has no `Result`.
fn tell(r: Result<Text, Refusal>, told: &mut [usize]) -> u32
    ensures { (result ≡ number_of r) × (told.new ≡ sets told.old 0 (length_of r ∷ count_of r ∷ [])) }
{
    let numbers = Numbers::from(r);
    let n = told.len().min(2);
    told[..n].copy_from_slice(&[numbers.length, numbers.count][..n]);
    numbers.number
}

// The whole module.
pub fn rizhavel_whole(plan: &[u8], out: &mut [u8], told: &mut [usize]) -> u32
    ensures { Exports (answer plan.now (length out.old)) result out.old out.new told.old told.new }
{
    tell(super::emit(plan, out), told)
}

// The text of the generated terms alone.
pub fn rizhavel_terms(plan: &[u8], out: &mut [u8], told: &mut [usize]) -> u32
    ensures { Exports (terms_answer plan.now (length out.old)) result out.old out.new told.old told.new }
{
    tell(super::emit_terms(plan, out), told)
}

// Header, trait and types alone.
pub fn rizhavel_items(plan: &[u8], out: &mut [u8], told: &mut [usize]) -> u32
    ensures { Exports (items_answer plan.now (length out.old)) result out.old out.new told.old told.new }
{
    tell(super::emit_items(plan, out), told)
}
