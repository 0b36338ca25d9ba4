//! The check of types.
ghost use Rattle.std.specs.Prelude.{◌≡◌, ◌≢◌, Some, IfOk, IfErr};
ghost use Rattle.sn_query_grammar.specs.Limits.{KeepsLimits};
ghost use Rattle.sn_types_faults.specs.Walk.{walk, first_fault};
ghost use Rattle.sn_types.specs.Typed.{IsTypingOf};

use crate::typed::Typed;
use crate::typing::typed_queries;
use sn_base::seed::Seed;
use sn_query_grammar::ast::QueryFile;
use sn_types_faults::fault::TypeFault;
use sn_types_faults::walk::file_fault;
use std::alloc::Global;

/// Resolves the names and widths of a file. The fault is that of the first place of the walk that has one: query by
/// query the refine line, each operator of each branch, the join line, each operator after it.
pub fn check(alloc: Global, file: QueryFile) -> Result<Typed, TypeFault>
    requires { KeepsLimits file }
    ensures ok { IfOk result (λ typed. IsTypingOf file typed.window_us typed.queries) }
    ensures fault { IfErr result (λ fault. fault ≢ TypeFault.Memory → first_fault (walk file) ≡ Some fault) }
{
    let fault = match file_fault(alloc, &file) {
        Ok(fault) => fault,
        Err(_) => return Err(TypeFault::Memory),
    };
    if let Some(found) = fault {
        return Err(found);
    }
    match typed_queries(alloc, file.queries.as_slice()) {
        Ok(queries) => Ok(Typed {
            alloc,
            window_us: file.window_us,
            seed: Seed::new(0),
            queries,
        }),
        Err(_) => Err(TypeFault::Memory),
    }
}
