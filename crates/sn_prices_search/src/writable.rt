//! Prices as a text tells them.
ghost use Rattle.std.specs.Prelude.{◌≡◌, ◌≤◌, length, IfOk, IfSome, OnOk};
ghost use Rattle.std.specs.List.{All};
ghost use Rattle.sn_prices_search.specs.Writable.{IsWritable, AreWritable};

use sn_base::memory::Memory;
use sn_base::seq::Seq;
use sn_prices_dual::sheet::{Form, Line, Sheet};
use sn_prices_grammar::prices::{Limit, MetaLimit, Mix, Prices, StageLimit};
use std::alloc::Global;

/// The last stage that a text can tell.
const LAST: usize = 31;
/// The greatest number that a text of prices can tell.
const MOST: u64 = 4294967295;
/// How many limits a text can tell.
const LIMITS: usize = 64;

/// A number of 32 bits, or the greatest one where it has more.
fn narrow(number: u64) -> u32 {
    number.min(MOST) as u32
}

/// A number, or 1 in place of 0.
fn some(number: u32) -> u32
    ensures { 1 ≤ result }
{
    if number == 0 { 1 } else { number }
}

/// What is divided, where it isn't the bits alone.
fn mix_of(form: Form) -> Option<Mix> {
    if form.times == 1 && form.plus == 0 {
        return None;
    }
    Some(Mix {
        times: narrow(form.times),
        plus: narrow(form.plus),
    })
}

/// A limit as a text tells it. `None` where it costs nothing, or no text can tell it.
fn limit_of(line: &Line) -> Option<Limit>
    ensures { IfSome result IsWritable }
{
    if line.price == 0 || line.first > line.last || line.last > LAST {
        return None;
    }
    if line.form.divisor == 0 || line.form.divisor > MOST {
        return None;
    }
    Some(Limit::Stages(StageLimit {
        first: line.first as u32,
        last: line.last as u32,
        mix: mix_of(line.form),
        divisor: line.form.divisor as u32,
        price: narrow(line.price),
    }))
}

/// Adds a limit, while there is room for it.
fn add(limits: &mut Seq<Limit>, limit: Limit) -> Result<(), Memory>
    requires own { IsWritable limit }
    requires few { length limits.old ≤ 64 }
    requires fine { All IsWritable limits.old }
    ensures few { OnOk result (length limits.new ≤ 64) }
    ensures fine { OnOk result (All IsWritable limits.new) }
{
    if limits.as_slice().len() < LIMITS {
        limits.push(limit)?;
    }
    Ok(())
}

/// The limit of metadata, where it costs something.
fn first_limits(alloc: Global, price: u64) -> Result<Seq<Limit>, Memory>
    ensures few { IfOk result (λ limits. length limits ≤ 64) }
    ensures fine { IfOk result (λ limits. All IsWritable limits) }
{
    let mut limits = Seq::new(alloc);
    if price > 0 {
        let price = narrow(price);
        add(&mut limits, Limit::Meta(MetaLimit { divisor: 1, price }))?;
    }
    Ok(limits)
}

/// The limits of a sheet.
fn limits_of(alloc: Global, sheet: &Sheet) -> Result<Seq<Limit>, Memory>
    ensures few { IfOk result (λ limits. length limits ≤ 64) }
    ensures fine { IfOk result (λ limits. All IsWritable limits) }
{
    let mut limits = first_limits(alloc, sheet.metadata)?;
    for line in sheet.lines.as_slice() {
        if let Some(limit) = limit_of(line) {
            add(&mut limits, limit)?;
        }
    }
    Ok(limits)
}

/// The prices of a sheet as a text tells them. What costs nothing is left out, as is what no text can tell.
///
/// # Errors
/// Out of memory.
pub fn writable(alloc: Global, sheet: &Sheet) -> Result<Prices, Memory>
    ensures { IfOk result AreWritable }
{
    let limits = limits_of(alloc, sheet)?;
    Ok(Prices {
        scale: some(narrow(sheet.scale)),
        limits,
    })
}
