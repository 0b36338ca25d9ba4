//! A law on pipes as they are made, with nothing to run.
ghost use Rattle.std.specs.FinSet as set;
ghost use Rattle.std.specs.Prelude.{◌≡◌, ℕ, List, Option};
ghost use Rattle.sn_pipe.specs.Pipes.{IsNewPipe, PipeState, at_start};
ghost use Rattle.sn_pipe.specs.declared.gate.Gate.{Gate};
ghost use Rattle.sn_types.specs.declared.typed_op.TOp.{TOp};
ghost use Rattle.sn_types.specs.declared.typed_query.TypedQuery.{TypedQuery};

/// A pipe as it is made is at its own start with no prefix: it is what it will be at the start of a window whose prefix set is empty.
pub fn new_pipes_are_at_their_start()
    ensures { (query : TypedQuery) (branch level : ℕ) (coarser : Option Gate) (ops : List TOp) (depth : ℕ) (sizes : List ℕ) (pipe : PipeState) →
        IsNewPipe query branch level coarser ops depth sizes pipe → at_start pipe set.empty ≡ pipe }
{}
