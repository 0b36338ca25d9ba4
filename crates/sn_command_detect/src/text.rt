//! What is said of refined queries in the end.
ghost use Rattle.std.specs.Prelude.{◌≡◌, ◌<◌, ◌++◌, length, OnOk};
ghost use Rattle.std.specs.List.{flat_map};
ghost use Rattle.sn_command_detect.specs.Detected.{column_in, stay_text};
ghost use Rattle.sn_command_detect.specs.Watching.{detect_text};
ghost use Rattle.sn_types.specs.Typed.{query_at};

use sn_base::column::Column;
use sn_base::memory::Memory;
use sn_detect::detect::Detect;
use sn_detect::monotone::monotone;
use sn_detect::stay::Stay;
use sn_out::stays::{push_bound_line, push_stay_line};
use sn_refine::members::place_of;
use sn_types::typed::Typed;

/// The column that has the addresses of a refined query.
fn column_in(t: &Typed, q: u32) -> Column
    requires { q < length t.now.queries }
    ensures { result ≡ column_in (query_at t.now.queries q) }
{
    let place = place_of(t, q) as usize;
    match t.final_schema(q).as_slice().get(place) {
        Some(column) => *column,
        None => Column {
            name: t.name(q),
            width: 1,
            address: false,
        },
    }
}

fn push_stays(text: &mut Vec<u8>, t: &Typed, q: u32, stays: &[Stay]) -> Result<(), Memory>
    requires { q < length t.now.queries }
    ensures { OnOk result (text.new.items ≡ text.old.items ++ flat_map (stay_text (query_at t.now.queries q)) stays.now) }
{
    let column = column_in(t, q);
    for stay in stays {
        push_stay_line(
            text,
            &column,
            stay.address,
            stay.first,
            stay.last,
            stay.printed,
        )?;
    }
    Ok(())
}

/// Adds the line of a refined query, and those of its stays.
fn push_detect(text: &mut Vec<u8>, detect: &Detect) -> Result<(), Memory>
    ensures { OnOk result (text.new.items ≡ text.old.items ++ detect_text detect.now) }
{
    let t = &detect.t;
    let q = detect.refined.query;
    let levels = detect.refined.path.as_slice().len();
    push_bound_line(text, &t.name(q), levels, monotone(t, q))?;
    let stays = detect.stays()?;
    push_stays(text, t, q, stays.as_slice())
}

/// Adds the lines of all refined queries.
pub(crate) fn push_detects(text: &mut Vec<u8>, detects: &[Detect]) -> Result<(), Memory>
    ensures { OnOk result (text.new.items ≡ text.old.items ++ flat_map detect_text detects.now) }
{
    for detect in detects {
        push_detect(text, detect)?;
    }
    Ok(())
}
