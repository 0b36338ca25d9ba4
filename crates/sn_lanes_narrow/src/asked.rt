//! Conditions asked of the tuples of a block, each once.
ghost use Rattle.std.specs.Prelude.{◌≡◌, ℕ, List, length, IfSome, OnOk, bit_and};
ghost use Rattle.std.specs.Simd.Lanes.{zip2};
ghost use Rattle.sn_lanes.specs.Columns.{column_of};
ghost use Rattle.sn_lanes_narrow.specs.Asked.{AreAnswersOf, AreColumnsOf, AreOf};
ghost use Rattle.sn_lanes_narrow.specs.Marks.{marks_of, marks_of_all, numbers_in};

use crate::both::both;
use crate::column::Column;
use crate::condition::Condition;
use sn_base::memory::Memory;
use sn_fields::field::Field;
use sn_fields::tuple::Tuple;
use std::alloc::Global;

/// A condition, and its marks: 1 for each tuple of a block of which it holds, and 0 for the others.
#[derive(Drop)]
pub struct Answer {
    pub condition: Condition,
    pub marks: Vec<u8>,
}

/// The different conditions that were asked of a block, with their marks, and the columns that they read. They stay from block to block,
/// as does their room: for the next block all columns are filled and all conditions asked at once.
#[derive(Drop)]
pub struct Asked {
    alloc: Global,
    pub columns: Vec<Column>,
    pub answers: Vec<Answer>,
    /// 1 for each tuple of which all conditions hold that were asked last, and 0 for the others.
    pub passed: Vec<u8>,
}

fn column_at(columns: &[Column], field: Field) -> Option<&Column>
    ensures { IfSome result (λ column. (tuples : List (List ℕ)) → AreColumnsOf tuples columns.now → numbers_in column.now.numbers ≡ column_of tuples field) }
{
    for column in columns {
        if column.field.number() == field.number() {
            return Some(column);
        }
    }
    None
}

fn answer_to<'a>(answers: &'a [Answer], condition: &Condition) -> Option<&'a Answer>
    ensures { IfSome result (λ answer. (tuples : List (List ℕ)) → AreAnswersOf tuples answers.now → answer.now.marks.items ≡ marks_of condition.now tuples) }
{
    for answer in answers {
        if answer.condition.is(condition) {
            return Some(answer);
        }
    }
    None
}

/// The marks of a condition: by the column of its field, where there is one, and else tuple by tuple.
fn marks_into(
    columns: &[Column],
    condition: &Condition,
    tuples: &[Tuple],
    marks: &mut Vec<u8>,
) -> Result<(), Memory>
    requires { AreColumnsOf tuples.now columns.now }
    ensures { OnOk result (marks.new.items ≡ marks_of condition.now tuples.now) }
{
    marks.resize(tuples.len(), 0)?;
    match column_at(columns, condition.field) {
        Some(column) => column.compare(
            condition.and,
            condition.cmp,
            condition.constant,
            marks.as_mut_slice(),
        ),
        None => condition.mark_each(tuples, marks.as_mut_slice()),
    }
    Ok(())
}

fn fill_all(columns: &mut [Column], tuples: &[Tuple]) -> Result<(), Memory>
    ensures { OnOk result (AreColumnsOf tuples.now columns.new) }
{
    for column in columns.iter_mut() {
        column.fill(tuples)?;
    }
    Ok(())
}

fn answer_all(columns: &[Column], tuples: &[Tuple], answers: &mut [Answer]) -> Result<(), Memory>
    requires { AreColumnsOf tuples.now columns.now }
    ensures { OnOk result (AreAnswersOf tuples.now answers.new) }
{
    for held in answers.iter_mut() {
        marks_into(columns, &held.condition, tuples, &mut held.marks)?;
    }
    Ok(())
}

impl Asked {
    /// No condition.
    pub fn new(alloc: Global) -> Asked
        ensures { (tuples : List (List ℕ)) → AreOf tuples result }
    {
        Asked {
            alloc,
            columns: Vec::new(alloc),
            answers: Vec::new(alloc),
            passed: Vec::new(alloc),
        }
    }

    /// Asks these tuples all conditions that were asked of former ones.
    pub fn fill(&mut self, tuples: &[Tuple]) -> Result<(), Memory>
        ensures { OnOk result (AreOf tuples.now self.new) }
    {
        fill_all(&mut self.columns, tuples)?;
        answer_all(self.columns.as_slice(), tuples, &mut self.answers)
    }

    /// Makes the column of a field, where it is at most 64 bits wide and there is none.
    fn need(&mut self, field: Field, tuples: &[Tuple]) -> Result<(), Memory>
        requires { AreOf tuples.now self.old }
        ensures columns { OnOk result (AreOf tuples.now self.new) }
        ensures passed { OnOk result (self.new.passed ≡ self.old.passed) }
    {
        if field.width() > 64 || column_at(self.columns.as_slice(), field).is_some() {
            return Ok(());
        }
        let mut column = Column::new(self.alloc, field);
        column.fill(tuples)?;
        self.columns.push(column)?;
        Ok(())
    }

    /// Asks a condition that was not asked yet, and keeps its marks of those that passed.
    fn ask_new(&mut self, condition: &Condition, tuples: &[Tuple]) -> Result<(), Memory>
        requires of { AreOf tuples.now self.old }
        requires long { length self.old.passed.items ≡ length tuples.now }
        ensures of { OnOk result (AreOf tuples.now self.new) }
        ensures passed { OnOk result (self.new.passed.items ≡ zip2 bit_and self.old.passed.items (marks_of condition.now tuples.now)) }
    {
        self.need(condition.field, tuples)?;
        let mut marks = Vec::new(self.alloc);
        marks_into(self.columns.as_slice(), condition, tuples, &mut marks)?;
        both(marks.as_slice(), self.passed.as_mut_slice());
        self.answers.push(Answer {
            condition: *condition,
            marks,
        })?;
        Ok(())
    }

    /// Keeps a condition's marks of those that passed.
    fn ask(&mut self, condition: &Condition, tuples: &[Tuple]) -> Result<(), Memory>
        requires of { AreOf tuples.now self.old }
        requires long { length self.old.passed.items ≡ length tuples.now }
        ensures of { OnOk result (AreOf tuples.now self.new) }
        ensures passed { OnOk result (self.new.passed.items ≡ zip2 bit_and self.old.passed.items (marks_of condition.now tuples.now)) }
    {
        match answer_to(self.answers.as_slice(), condition) {
            Some(answer) => {
                both(answer.marks.as_slice(), self.passed.as_mut_slice());
                Ok(())
            }
            None => self.ask_new(condition, tuples),
        }
    }

    /// Asks all these conditions of the tuples that it was filled with last: `passed` are their marks then.
    pub fn ask_all(&mut self, conditions: &[Condition], tuples: &[Tuple]) -> Result<(), Memory>
        requires { AreOf tuples.now self.old }
        ensures of { OnOk result (AreOf tuples.now self.new) }
        ensures passed { OnOk result (self.new.passed.items ≡ marks_of_all conditions.now tuples.now) }
    {
        self.passed.clear();
        self.passed.resize(tuples.len(), 1)?;
        for condition in conditions {
            self.ask(condition, tuples)?;
        }
        Ok(())
    }
}
