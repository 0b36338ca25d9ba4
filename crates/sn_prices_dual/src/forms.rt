//! What registers of a stage may weigh, for limits that can be scarce.

use crate::sheet::{Form, weight};
use sn_base::memory::Memory;
use sn_base::seq::Seq;
use sn_prices_offers::offers::Offers;
use std::alloc::Global;

/// Whether a form weighs each kind of register as much as another does, or more, where a full stage weighs the same.
fn is_as_heavy(o: &Offers, a: Form, b: Form) -> bool {
    let most = u128::from(weight(a, o.bits, o.actions));
    let other_most = u128::from(weight(b, o.bits, o.actions));
    for bits in o.kinds.as_slice() {
        let own = u128::from(weight(a, *bits, 1));
        let other = u128::from(weight(b, *bits, 1));
        if own * other_most < other * most {
            return false;
        }
    }
    true
}

/// Whether a form weighs any kind of register, and a stage has room.
fn is_of_use(o: &Offers, form: Form) -> bool {
    if weight(form, o.bits, o.actions) == 0 {
        return false;
    }
    for bits in o.kinds.as_slice() {
        if weight(form, *bits, 1) > 0 {
            return true;
        }
    }
    false
}

/// Whether one of these forms weighs as much as another one everywhere.
fn is_covered(o: &Offers, forms: &[Form], form: Form) -> bool {
    for other in forms {
        if is_as_heavy(o, *other, form) {
            return true;
        }
    }
    false
}

/// Adds a form, if it is of use and none of the others weighs as much.
fn add(o: &Offers, forms: &mut Seq<Form>, form: Form) -> Result<(), Memory> {
    if is_of_use(o, form) && !is_covered(o, forms.as_slice(), form) {
        forms.push(form)?;
    }
    Ok(())
}

/// What is added to these bits so that the divisor divides the sum.
fn filling(bits: u64, divisor: u64) -> u64 {
    if divisor == 0 {
        0
    } else {
        (divisor - bits % divisor) % divisor
    }
}

/// Adds the forms that divide by this, each with a number added that fills up a kind of register.
fn add_filled(o: &Offers, forms: &mut Seq<Form>, divisor: u64) -> Result<(), Memory> {
    for bits in o.kinds.as_slice() {
        let plus = filling(*bits, divisor);
        add(
            o,
            forms,
            Form {
                times: 1,
                plus,
                divisor,
            },
        )?;
    }
    Ok(())
}

/// Adds the forms that tell two sizes of registers apart: the larger weighs up to three more than the smaller.
fn add_pair(o: &Offers, forms: &mut Seq<Form>, large: u64, small: u64) -> Result<(), Memory> {
    for parts in 1..4 {
        let divisor = large.saturating_sub(small) / parts;
        add_filled(o, forms, divisor)?;
        add_filled(o, forms, divisor.saturating_add(1))?;
    }
    Ok(())
}

/// Adds the forms that tell a size of registers from the smaller ones.
fn add_larger(o: &Offers, forms: &mut Seq<Form>, large: u64) -> Result<(), Memory> {
    add_pair(o, forms, large, 0)?;
    for small in o.kinds.as_slice() {
        if *small < large {
            add_pair(o, forms, large, *small)?;
        }
    }
    Ok(())
}

/// Adds the forms that tell kinds of registers that fit from one another, and from a whole stage.
fn add_mixed(o: &Offers, forms: &mut Seq<Form>) -> Result<(), Memory> {
    add_larger(o, forms, o.bits)?;
    for large in o.kinds.as_slice() {
        if *large <= o.bits {
            add_larger(o, forms, *large)?;
        }
    }
    Ok(())
}

/// Adds the forms that count registers of more than a half, a third, and so on down to a seventh of a stage.
fn add_parts(o: &Offers, forms: &mut Seq<Form>) -> Result<(), Memory> {
    for parts in 2..8 {
        let divisor = (o.bits / parts).saturating_add(1);
        add(
            o,
            forms,
            Form {
                times: 1,
                plus: 0,
                divisor,
            },
        )?;
    }
    Ok(())
}

/// What registers of a stage may weigh: a register one, its bits, its bits over divisors, and the like with a number added to
/// tell kinds of registers apart.
///
/// # Errors
/// Out of memory.
pub fn forms_of(alloc: Global, o: &Offers) -> Result<Seq<Form>, Memory> {
    let mut forms = Seq::new(alloc);
    add(
        o,
        &mut forms,
        Form {
            times: 0,
            plus: 1,
            divisor: 1,
        },
    )?;
    add_parts(o, &mut forms)?;
    add_mixed(o, &mut forms)?;
    add(
        o,
        &mut forms,
        Form {
            times: 1,
            plus: 0,
            divisor: 1,
        },
    )?;
    Ok(forms)
}
