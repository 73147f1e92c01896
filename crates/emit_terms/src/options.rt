// The options that the text of terms goes by: those of `CodegenOptions` in codegen.rs, but for the header's.
ghost use Rattle.std.specs.Prelude.{◌≡◌, None};
ghost use Rattle.codegen.specs.ReturnKind.{by_return_kind};
ghost use Rattle.view.specs.Buffers.{plan_of};
ghost use Rattle.sema.specs.Signature.{return_kind_told};
ghost use Rattle.emit_terms.specs.Told.{OptionsTold};

use sema::signature::ReturnKind;
use view::buffers::Plan;
use view::tables::OPTIONS;

// Arms that weigh more than the threshold split; where there is none, none does.
#[derive(Clone, Copy)]
pub struct Options {
    pub log: bool,
    pub threshold: Option<usize>,
}

impl Options {
    // They are the row of the plan's first table, each read by its number in the row, in the order of the table's names line.
    #[tactic(auto, using(crate::specs::Term::options_told))]
    pub fn read(plan: &Plan<'_, '_, '_>) -> Options
        ensures { OptionsTold (plan_of plan.now).options result }
    {
        let row = plan.row_at(OPTIONS, 0);
        Options {
            log: plan.flag(row, 1),
            threshold: plan.flag(row, 2).then_some(plan.word(row, 3)),
        }
    }

    // The threshold for a term of this kind: only the arms of one of iterator kind split.
    #[tactic(auto, unfolding(codegen::specs::ReturnKind::by_return_kind))]
    pub(super) fn threshold_of(self, kind: ReturnKind) -> Option<usize>
        ensures { result ≡ by_return_kind (return_kind_told kind) self.threshold None None }
    {
        self.threshold.filter(|_| kind == ReturnKind::Iterator)
    }
}
