//! A case of a table: the files and words of its command, and what of its answer isn't as wanted.
use sn_base::seq::Seq;
use sn_core_net::net::Net;
use sn_io::mem_inputs::MemInputs;
use sn_io::mem_sink::MemSink;
use sn_test_inputs::case::Case;
use sn_test_inputs::packets::push_syns;
use sn_top::top::top;
use std::alloc::Global;
use std::test::Fail;

/// What the lines of a table's cases leave out.
#[derive(Clone, Copy)]
pub enum Form {
    /// Nothing: the query text and the answers are whole.
    Whole,
    /// The query text is the body of one query, on line 2, after a window of a second.
    Body,
    /// So is it, and of the answers the rows alone are reported, which are those of one window.
    Rows,
    /// The text is that of a switch, on which a query runs uncut.
    Switch,
    /// The text is a plan of counts by destination, on a small switch.
    Plan,
    /// The text is a plan of two counts on a narrow switch, with a cost and a tree after it, and is checked.
    Tree,
}

impl Form {
    /// The form that a table's head names.
    pub fn named(name: &str) -> Option<Form> {
        match name {
            "whole" => Some(Form::Whole),
            "body" => Some(Form::Body),
            "rows" => Some(Form::Rows),
            "switch" => Some(Form::Switch),
            "plan" => Some(Form::Plan),
            "tree" => Some(Form::Tree),
            _ => None,
        }
    }
}

/// Counts by destination.
const COUNTS: &str = "packets | map ip.dst as d, 1 as n | reduce d: sum(n) width 16;";

/// Counts by destination and by source.
const TWO_COUNTS: &str = "window 1000000
query a { packets | map ip.dst as d, 1 as n | reduce d: sum(n) width 8; }
query b { packets | map ip.src as s, 1 as n | reduce s: sum(n) width 8; }
";

/// Room for one register.
const NARROW: &str = "stages 2; actions 1; bits 41; meta 100; chain 1; slots 1;";

/// What the two counts are trained on.
const TRAINED: &str = "0 1 9, 1 1 9, 2 1 9, 3 2 9, 4 2 9";

const SMALL: &str = "stages 4; actions 2; bits 1000; meta 1000; chain 1; slots 1;";

const UNCUT: &str = "plan query q path 0; piece 0 0 cut 0;";

/// The words of a case. Where it says none, its files tell the command.
fn words_of(form: Form, case: &Case) -> &str {
    let is_plain = matches!(form, Form::Whole | Form::Body | Form::Rows) && case.plan.is_empty();
    if !case.words.is_empty() {
        case.words.as_str()
    } else if !case.reports.is_empty() {
        "finish q p r"
    } else if matches!(form, Form::Tree) {
        "check s q t p"
    } else if is_plain {
        "plain q c"
    } else {
        "run s q p c"
    }
}

/// The query text of a case.
fn queries_of(alloc: Global, form: Form, case: &Case) -> Result<String, Fail> {
    let body = match form {
        Form::Whole => return Ok(String::from_str(alloc, case.text.as_str())?),
        Form::Body | Form::Rows => case.text.as_str(),
        Form::Tree => return Ok(String::from_str(alloc, TWO_COUNTS)?),
        Form::Switch | Form::Plan => COUNTS,
    };
    Ok(format!(in alloc; "window 1000000\nquery q {{ {body} }}")?)
}

/// The text of a switch.
fn switch_of(form: Form, case: &Case) -> &str {
    match form {
        Form::Switch => case.text.as_str(),
        Form::Tree if case.switch.is_empty() => NARROW,
        _ if case.switch.is_empty() => SMALL,
        _ => case.switch.as_str(),
    }
}

/// The text of a plan.
fn plan_of(form: Form, case: &Case) -> &str {
    match form {
        Form::Plan | Form::Tree => case.text.as_str(),
        _ if case.plan.is_empty() => UNCUT,
        _ => case.plan.as_str(),
    }
}

/// A text as a file.
fn text_file(alloc: Global, text: &str) -> Result<Seq<u8>, Fail> {
    Ok(Seq::from_vec(Vec::from_slice(alloc, text.as_bytes())?))
}

/// The training capture.
fn training_of(alloc: Global, form: Form, case: &Case) -> Result<Vec<u8>, Fail> {
    let mut capture = Vec::from_slice(alloc, case.header.as_slice())?;
    match form {
        Form::Tree => push_syns(&mut capture, TRAINED)?,
        _ if case.trained.is_empty() => capture.extend_from_slice(case.records.as_slice())?,
        _ => capture.extend_from_slice(case.trained.as_slice())?,
    }
    Ok(capture)
}

fn files_of(alloc: Global, form: Form, case: &Case) -> Result<MemInputs, Fail> {
    let queries = queries_of(alloc, form, case)?;
    let mut capture = Vec::from_slice(alloc, case.header.as_slice())?;
    capture.extend_from_slice(case.records.as_slice())?;
    let training = training_of(alloc, form, case)?;
    let reports = Vec::from_slice(alloc, case.reports.as_slice())?;
    let mut files = MemInputs::new(alloc);
    files.put("q", text_file(alloc, queries.as_str())?)?;
    files.put("s", text_file(alloc, switch_of(form, case))?)?;
    files.put("p", text_file(alloc, plan_of(form, case))?)?;
    files.put("c", Seq::from_vec(capture))?;
    files.put("t", Seq::from_vec(training))?;
    files.put("r", Seq::from_vec(reports))?;
    Ok(files)
}

/// The text that is wanted.
fn wanted_of(alloc: Global, form: Form, case: &Case) -> Result<String, Fail> {
    let reported = case.wanted.as_str();
    Ok(match form {
        Form::Rows => {
            let count = reported.lines().count();
            format!(in alloc;
                "window 0\nquery q level 0 rows {count}\n{reported}total windows 1\n"
            )?
        }
        _ => String::from_str(alloc, reported)?,
    })
}

/// The status of a command that writes this text and line.
fn status_of(text: &str) -> u8 {
    let Some((_, line)) = text.split_once("sonata: ") else {
        return 0;
    };
    match line.split_whitespace().next() {
        Some("usage") => 2,
        Some("queries") => 3,
        Some("switch") => 4,
        Some("capture") => 5,
        Some("plan") => 6,
        Some("tree") => 7,
        Some("budget") => 8,
        Some("read") => 9,
        Some("write") => 10,
        Some("reports") => 11,
        Some("too") => 12,
        _ => 1,
    }
}

/// The words of a line, which blanks stand between.
fn words_in(alloc: Global, line: &str) -> Result<Vec<String>, Fail> {
    let mut words = Vec::new(alloc);
    for word in line.split_whitespace() {
        words.push(String::from_str(alloc, word)?)?;
    }
    Ok(words)
}

/// Runs a case. The bytes of its text and of its line, and its status.
fn run(alloc: Global, form: Form, case: &Case) -> Result<(Vec<u8>, u8), Fail> {
    let words = words_in(alloc, words_of(form, case))?;
    let mut files = files_of(alloc, form, case)?;
    let mut out = MemSink::new(alloc, 4000)?;
    let mut err = MemSink::new(alloc, 1000)?;
    let status = top::<Net, MemInputs, MemSink, MemSink>(
        alloc, &words, &mut files, &mut out, &mut err,
    );
    let mut reported = Vec::from_slice(alloc, out.bytes())?;
    reported.extend_from_slice(err.bytes())?;
    Ok((reported, status))
}

/// Tells the first line that came otherwise than is wanted, unless there is none.
fn other_line(alloc: Global, reported: &str, wanted: &str) -> Result<Option<String>, Fail> {
    if reported == wanted {
        return Ok(None);
    }
    let mut rest = wanted.lines();
    for line in reported.lines() {
        let next = rest.next().unwrap_or("nothing");
        if line != next {
            return Ok(Some(format!(in alloc; "wanted {next}, came {line}")?));
        }
    }
    let next = rest.next().unwrap_or("another end");
    Ok(Some(format!(in alloc; "wanted {next}, came nothing")?))
}

/// Runs the case that these lines tell, and tells what of its text, its line and their status isn't as wanted.
pub fn difference(alloc: Global, form: Form, lines: &str) -> Result<Option<String>, Fail> {
    let case = Case::read(alloc, lines)?;
    let wanted = wanted_of(alloc, form, &case)?;
    let (reported, status) = run(alloc, form, &case)?;
    let reported = String::from_utf8(reported)?;
    let line = other_line(alloc, reported.as_str(), wanted.as_str())?;
    let wanted = status_of(wanted.as_str());
    if line.is_some() || status == wanted {
        return Ok(line);
    }
    Ok(Some(format!(in alloc; "wanted status {wanted}, came {status}")?))
}
